//! One row of a products file after another. What was seen so far is one value, so that only this file drops name sets.
ghost use Rattle.std.specs.Prelude.{◌≡◌, ◌<◌, ◌+◌, length, option_map, IfOk, IfErr, OnOk, Some, None};
ghost use Rattle.table_reader.specs.Tables.{TableData};
ghost use Rattle.catalogue_rows.specs.declared.faults.FileName.TheVariants as file;
ghost use Rattle.catalogue_rows.specs.declared.faults.InputFault.TheVariants.{Fault};
ghost use Rattle.catalogue_rows.specs.Faults.{OnFault};
ghost use Rattle.catalogue_rows.specs.ProductTables.{product_fault, product_row};
ghost use Rattle.catalogue_rows.specs.SeenNames.{HasSeen};

use crate::catalogue::Row;
use crate::faults::{FileName, InputFault};
use crate::name_set::NameSet;
use crate::product_cells::read_cells;
use crate::product_columns::PRODUCT_COLUMNS;
use offer_model::ModelName;
use std::alloc::Global;
use table_reader::Table;

/// The names of the products, the categories and the ladders of the rows so far.
#[derive(Drop)]
pub struct SeenNames<'a> {
    names: NameSet<'a>,
    categories: NameSet<'a>,
    ladders: NameSet<'a>,
}

impl<'a> SeenNames<'a> {
    /// Those of no rows.
    pub fn new(alloc: Global) -> SeenNames<'a>
        ensures { (table : TableData) → HasSeen table 0 result }
    {
        SeenNames {
            names: NameSet::new(alloc),
            categories: NameSet::new(alloc),
            ladders: NameSet::new(alloc),
        }
    }
}

/// Data row `k`, or its fault. Its names are seen from then on.
pub fn read_row<'a>(
    alloc: Global,
    table: &'a Table<PRODUCT_COLUMNS>,
    k: usize,
    model: ModelName,
    seen: &mut SeenNames<'a>,
) -> Result<Row, InputFault>
    requires row { k < length table.now.records }
    requires seen { HasSeen table.now k seen.old }
    ensures row { IfOk result (λ row. row ≡ product_row table.now k) }
    ensures sound { OnOk result (product_fault model table.now k ≡ None) }
    ensures seen { OnOk result (HasSeen table.now (k + 1) seen.new) }
    ensures fault { IfErr result (λ e. OnFault e
        (option_map (Fault file.Products (k + 2)) (product_fault model table.now k) ≡ Some e)) }
{
    let cells = match read_cells(table, k, model, &seen.names) {
        Ok(cells) => cells,
        Err(code) => {
            return Err(InputFault::Fault {
                file: FileName::Products,
                row: k + 2,
                code,
            });
        }
    };
    seen.names.insert(cells.name.as_bytes())?;
    let category = seen.categories.number(cells.category.as_bytes())?;
    let ladder = seen.ladders.number(cells.ladder.as_bytes())?;
    Ok(cells.to_row(alloc, category, ladder)?)
}
