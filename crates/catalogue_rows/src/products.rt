//! Products files: from bytes to a catalogue, or to the first fault.
ghost use Rattle.std.specs.Prelude.{◌≡◌, ◌≤◌, ◌==◌, length, sum_by, Ok, Err, IfOk, IfErr, OnOk, Some, None};
ghost use Rattle.offer_model.specs.declared.ranges.TheConstants.{MOST_PRODUCTS};
ghost use Rattle.catalogue_rows.specs.Sizes.{most_table};
ghost use Rattle.catalogue_rows.specs.Rows.{KeepsShadows};
ghost use Rattle.catalogue_rows.specs.declared.faults.FileName.TheVariants as file;
ghost use Rattle.catalogue_rows.specs.Faults.{OnFault, first_row_fault};
ghost use Rattle.catalogue_rows.specs.ProductTables.{product_fault, product_rows, arrival_fault, products_outcome};

use crate::catalogue::{Catalogue, Row};
use crate::faults::{Code, FileName, InputFault};
use crate::product_cells::needed_columns;
use crate::product_columns::{COLUMNS, PRODUCT_COLUMNS};
use crate::product_rows::{SeenNames, read_row};
use crate::table_faults::fault_of_table;
use offer_model::ModelName;
use std::alloc::Global;
use table_reader::{Table, read_table};

/// The most bytes of a table file.
pub const MOST_TABLE: usize = 16_777_216;

/// The rows of a table, or the first fault of one.
fn read_rows(
    alloc: Global,
    table: &Table<PRODUCT_COLUMNS>,
    model: ModelName,
) -> Result<Vec<Row>, InputFault>
    ensures rows { IfOk result (λ rows. rows.items ≡ product_rows table.now) }
    ensures sound { OnOk result
        (first_row_fault file.Products (product_fault model table.now) 0 (length table.now.records) ≡ None) }
    ensures fault { IfErr result (λ e. OnFault e
        (first_row_fault file.Products (product_fault model table.now) 0 (length table.now.records) ≡ Some e)) }
{
    let mut seen = SeenNames::new(alloc);
    let mut rows = Vec::new(alloc);
    'rows: for k in 0..table.rows() {
        rows.push(read_row(alloc, table, k, model, &mut seen)?)?;
    }
    Ok(rows)
}

fn nobody_arrives(rows: &[Row]) -> bool
    ensures { result ≡ (sum_by (λ row. row.arrival) rows.now == 0) }
{
    for row in rows {
        if row.arrival != 0 {
            return false;
        }
    }
    true
}

/// That nobody arrives, under a chain.
fn arrival_fault(rows: &[Row], model: ModelName) -> Option<Code>
    ensures { result ≡ arrival_fault model rows.now }
{
    match model {
        ModelName::Chain if nobody_arrives(rows) => Some(Code::NoArrivals),
        _ => None,
    }
}

/// The catalogue in the bytes of a products file, or its first fault. Columns that the model doesn't use are judged too.
pub fn read_products(alloc: Global, bytes: &[u8], model: ModelName) -> Result<Catalogue, InputFault>
    requires { length bytes.now ≤ most_table }
    ensures rows { IfOk result (λ rows. products_outcome model bytes.now ≡ Ok rows) }
    ensures shadows { IfOk result (λ rows. model ≡ ModelName.Attract → KeepsShadows rows) }
    ensures fault { IfErr result (λ e. OnFault e (products_outcome model bytes.now ≡ Err e)) }
{
    let table = match read_table::<PRODUCT_COLUMNS>(
        alloc,
        bytes,
        &COLUMNS,
        &needed_columns(model),
    ) {
        Ok(table) => table,
        Err(fault) => return Err(fault_of_table(FileName::Products, fault)),
    };
    let rows = read_rows(alloc, &table, model)?;
    if let Some(code) = arrival_fault(&rows, model) {
        return Err(InputFault::Fault {
            file: FileName::Products,
            row: 1,
            code,
        });
    }
    Ok(Catalogue::new(rows))
}
