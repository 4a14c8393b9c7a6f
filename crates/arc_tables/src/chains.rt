//! Arcs files: from bytes to a chain over a catalogue, or to the first fault.
ghost use Rattle.std.specs.Prelude.{◌≡◌, ℕ, ◌<◌, ◌≤◌, length, map, sum_by, Ok, Some, None, IfOk, IfErr, OnOk, Err};
ghost use Rattle.offer_model.specs.declared.ranges.TheConstants.{MOST_SCALE, MOST_AMOUNT};
ghost use Rattle.catalogue_rows.specs.declared.faults.FileName.TheVariants as file;
ghost use Rattle.catalogue_rows.specs.Sizes.{most_table};
ghost use Rattle.catalogue_rows.specs.Faults.{OnFault, first_row_fault};
ghost use Rattle.catalogue_rows.specs.Rows.{IsCatalogue};
ghost use Rattle.arc_tables.specs.ArcTables.{arc_fault, arcs_before, arcs_outcome, chain_data_of};

use crate::arc_columns::{ARC_COLUMNS, COLUMNS};
use crate::arc_rows::read_arc;
use crate::seen_arcs::SeenArcs;
use catalogue_rows::{Catalogue, FileName, InputFault, ProductPlaces, Row, fault_of_table};
use offer_model::{Arcs, Chain, MOST_ARCS, NoMemory, Numbers};
use std::alloc::Global;
use table_reader::{Table, read_table};

/// The arcs that the rows of a table state, or the first fault of one.
fn read_rows(
    alloc: Global,
    table: &Table<ARC_COLUMNS>,
    rows: &[Row],
    scale: u64,
) -> Result<Arcs, InputFault>
    requires scale { (1 ≤ scale) × (scale ≤ MOST_SCALE) }
    requires catalogue { IsCatalogue rows.now }
    ensures arcs { IfOk result (λ arcs. arcs.items ≡ arcs_before rows.now table.now (length table.now.records)) }
    ensures sound { OnOk result
        (first_row_fault file.Arcs (arc_fault rows.now scale table.now) 0 (length table.now.records) ≡ None) }
    ensures fault { IfErr result (λ e. OnFault e
        (first_row_fault file.Arcs (arc_fault rows.now scale table.now) 0 (length table.now.records) ≡ Some e)) }
{
    let products = ProductPlaces::of(alloc, rows)?;
    let mut seen = SeenArcs::new(alloc, rows.len(), table.rows().min(MOST_ARCS))?;
    'rows: for k in 0..table.rows() {
        let arc = match read_arc(table, k, &products, scale, &seen) {
            Ok(arc) => arc,
            Err(code) => {
                return Err(InputFault::Fault {
                    file: FileName::Arcs,
                    row: k + 2,
                    code,
                });
            }
        };
        seen.put(arc);
    }
    Ok(seen.into_arcs())
}

fn margins_of(alloc: Global, rows: &[Row]) -> Result<Numbers, NoMemory>
    ensures { IfOk result (λ list. list.items ≡ map (λ row. row.product.margin) rows.now) }
{
    let mut list = Numbers::new(alloc);
    list.reserve(rows.len())?;
    for row in rows {
        list.push(row.product.margin);
    }
    Ok(list)
}

fn arrivals_of(alloc: Global, rows: &[Row]) -> Result<Numbers, NoMemory>
    ensures { IfOk result (λ list. list.items ≡ map (λ row. row.arrival) rows.now) }
{
    let mut list = Numbers::new(alloc);
    list.reserve(rows.len())?;
    for row in rows {
        list.push(row.arrival);
    }
    Ok(list)
}

/// The chain in the bytes of an arcs file over a catalogue at which some customers arrive, or the first fault. Customers
/// who arrive at no product weigh `away`, and arcs have their parts of `scale`.
pub fn read_chain(
    alloc: Global,
    bytes: &[u8],
    c: &Catalogue,
    away: u64,
    scale: u64,
) -> Result<Chain, InputFault>
    requires size { length bytes.now ≤ most_table }
    requires away { away ≤ MOST_AMOUNT }
    requires scale { (1 ≤ scale) × (scale ≤ MOST_SCALE) }
    requires arrive { 0 < sum_by (λ row. row.arrival) c.now }
    ensures arcs { IfOk result (λ chain. arcs_outcome c.now scale bytes.now ≡ Ok chain.arcs) }
    ensures chain { IfOk result (λ chain. chain ≡ chain_data_of c.now scale away chain.arcs) }
    ensures fault { IfErr result (λ e. OnFault e (arcs_outcome c.now scale bytes.now ≡ Err e)) }
{
    let table = match read_table::<ARC_COLUMNS>(alloc, bytes, &COLUMNS, &[true; ARC_COLUMNS]) {
        Ok(table) => table,
        Err(fault) => return Err(fault_of_table(FileName::Arcs, fault)),
    };
    let arcs = read_rows(alloc, &table, c.rows(), scale)?;
    let margins = margins_of(alloc, c.rows())?;
    let arrivals = arrivals_of(alloc, c.rows())?;
    Ok(Chain::new(scale, away, margins, arrivals, arcs))
}
