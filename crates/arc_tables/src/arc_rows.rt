//! One row of an arcs file: the arc that it states, or what is wrong with it.
ghost use Rattle.std.specs.Prelude.{◌≡◌, ℕ, ◌<◌, ◌≤◌, length, IfOk, IfErr, OnOk, Some, None};
ghost use Rattle.offer_model.specs.declared.ranges.TheConstants.{MOST_SCALE};
ghost use Rattle.catalogue_rows.specs.Rows.{IsCatalogue};
ghost use Rattle.arc_tables.specs.ArcTables.{stated_arc, arc_fault};
ghost use Rattle.arc_tables.specs.SeenArcs.{HasSeenArcs};

use crate::arc_columns::{ARC_COLUMNS, FROM, PARTS, TO};
use crate::seen_arcs::SeenArcs;
use catalogue_rows::{Code, ProductPlaces, cell, parse_number};
use offer_model::{Arc, MOST_ARCS};
use table_reader::Table;

/// The arc that data row `k` states, or what is wrong with it. `seen` is what the rows before it say.
pub fn read_arc(
    table: &Table<ARC_COLUMNS>,
    k: usize,
    products: &ProductPlaces,
    scale: u64,
    seen: &SeenArcs,
) -> Result<Arc, Code>
    requires row { k < length table.now.records }
    requires products { IsCatalogue products.now }
    requires scale { scale ≤ MOST_SCALE }
    requires seen { HasSeenArcs products.now scale table.now k seen.now }
    ensures arc { IfOk result (λ arc. arc ≡ stated_arc products.now table.now k) }
    ensures sound { OnOk result (arc_fault products.now scale table.now k ≡ None) }
    ensures fault { IfErr result (λ code. arc_fault products.now scale table.now k ≡ Some code) }
{
    if k >= MOST_ARCS {
        return Err(Code::TooManyLines);
    }
    let from = products
        .place(cell(table, k, FROM))
        .ok_or(Code::UnknownName)?;
    let to = products.place(cell(table, k, TO)).ok_or(Code::UnknownName)?;
    let parts = parse_number(cell(table, k, PARTS), 0, scale)?;
    if seen.has(from, to) {
        return Err(Code::RepeatedName);
    }
    let sum = seen.parts_from(from) + parts;
    if sum >= scale {
        return Err(Code::NoLeaving);
    }
    Ok(Arc { from, to, parts })
}
