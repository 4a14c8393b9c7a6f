//! The cells of one row of a products file, each judged in the order of the columns.
ghost use Rattle.std.specs.Prelude.{◌≡◌, ◌<◌, [], ◌∷◌, length, take, IfOk, IfErr, OnOk, Some, None};
ghost use Rattle.catalogue_rows.specs.Columns.{name_column, category_column, ladder_column};
ghost use Rattle.catalogue_rows.specs.Names.{number_in};
ghost use Rattle.catalogue_rows.specs.Cells.{texts_of, text_of, written_number, name_fault};
ghost use Rattle.catalogue_rows.specs.Faults.{first_of};
ghost use Rattle.catalogue_rows.specs.ProductTables.{needed_columns, amount_fault, group_fault, repeat_fault, product_fault, product_row};
ghost use Rattle.catalogue_rows.specs.ProductCells.{row_of};

use crate::catalogue::Row;
use crate::cells::{cell, parse_amount, parse_group, parse_name};
use crate::faults::Code;
use crate::name_set::NameSet;
use crate::product_columns::{
    ARRIVAL, ATTRACTION, CATEGORY, GRADE, LADDER, MARGIN, NAME, PRICE, PRODUCT_COLUMNS, SHADOW,
    SPACE,
};
use offer_model::{MOST_AMOUNT, MOST_COUNT, MOST_PRODUCTS, ModelName, NoMemory, Product};
use std::alloc::Global;
use table_reader::Table;

/// What the cells of a row say of a product.
#[derive(Clone, Copy)]
pub struct Cells<'a> {
    pub name: &'a str,
    pub margin: u64,
    pub attraction: u64,
    pub shadow: u64,
    pub category: &'a str,
    pub space: u64,
    pub price: u64,
    pub ladder: &'a str,
    pub grade: u64,
    pub arrival: u64,
}

/// Which columns a model needs.
pub fn needed_columns(model: ModelName) -> [bool; PRODUCT_COLUMNS]
    ensures { result ≡ needed_columns model }
{
    let ratio = matches!(model, ModelName::Logit | ModelName::Attract);
    let chain = matches!(model, ModelName::Chain);
    [
        true, true, ratio, false, false, false, false, false, false, chain,
    ]
}

/// The name of data row `k`, which isn't among those of the rows before it.
fn new_name<'a>(
    table: &'a Table<PRODUCT_COLUMNS>,
    k: usize,
    names: &NameSet<'a>,
) -> Result<&'a str, Code>
    requires row { k < length table.now.records }
    requires names { names.now ≡ take k (texts_of table.now name_column) }
    ensures name { IfOk result (λ name. name.now ≡ text_of table.now k name_column) }
    ensures bad { OnOk result (name_fault (text_of table.now k name_column) ≡ None) }
    ensures repeated { OnOk result (repeat_fault table.now k ≡ None) }
    ensures fault { IfErr result
        (λ code. first_of (name_fault (text_of table.now k name_column) ∷ repeat_fault table.now k ∷ []) ≡ Some code) }
{
    let text = cell(table, k, NAME);
    let name = parse_name(text)?;
    if names.contains(text) {
        return Err(Code::RepeatedName);
    }
    Ok(name)
}

/// The number of data row `k` in a column, from 0 to `most`.
fn amount_at(
    table: &Table<PRODUCT_COLUMNS>,
    k: usize,
    model: ModelName,
    c: usize,
    most: u64,
) -> Result<u64, Code>
    requires row { k < length table.now.records }
    requires column { c < PRODUCT_COLUMNS }
    ensures number { IfOk result (λ n. n ≡ written_number (text_of table.now k c)) }
    ensures sound { OnOk result (amount_fault model table.now k c most ≡ None) }
    ensures fault { IfErr result (λ code. amount_fault model table.now k c most ≡ Some code) }
{
    parse_amount(cell(table, k, c), needed_columns(model)[c], most)
}

/// The name of the category or the ladder of data row `k`, or the empty text.
fn group_at<'a>(table: &'a Table<PRODUCT_COLUMNS>, k: usize, c: usize) -> Result<&'a str, Code>
    requires row { k < length table.now.records }
    requires column { c < PRODUCT_COLUMNS }
    ensures name { IfOk result (λ name. name.now ≡ text_of table.now k c) }
    ensures sound { OnOk result (group_fault table.now k c ≡ None) }
    ensures fault { IfErr result (λ code. group_fault table.now k c ≡ Some code) }
{
    parse_group(cell(table, k, c))
}

/// The cells of data row `k`, or what is wrong with it. `names` has the names of the rows before it.
pub fn read_cells<'a>(
    table: &'a Table<PRODUCT_COLUMNS>,
    k: usize,
    model: ModelName,
    names: &NameSet<'a>,
) -> Result<Cells<'a>, Code>
    requires row { k < length table.now.records }
    requires names { names.now ≡ take k (texts_of table.now name_column) }
    ensures row { IfOk result (λ cells. product_row table.now k ≡ row_of cells
        (number_in (texts_of table.now category_column) cells.category.now) (number_in (texts_of table.now ladder_column) cells.ladder.now)) }
    ensures sound { OnOk result (product_fault model table.now k ≡ None) }
    ensures fault { IfErr result (λ code. product_fault model table.now k ≡ Some code) }
{
    if k >= MOST_PRODUCTS {
        return Err(Code::TooManyProducts);
    }
    let cells = Cells {
        name: new_name(table, k, names)?,
        margin: amount_at(table, k, model, MARGIN, MOST_AMOUNT)?,
        attraction: amount_at(table, k, model, ATTRACTION, MOST_AMOUNT)?,
        shadow: amount_at(table, k, model, SHADOW, MOST_AMOUNT)?,
        category: group_at(table, k, CATEGORY)?,
        space: amount_at(table, k, model, SPACE, MOST_COUNT)?,
        price: amount_at(table, k, model, PRICE, MOST_AMOUNT)?,
        ladder: group_at(table, k, LADDER)?,
        grade: amount_at(table, k, model, GRADE, MOST_COUNT)?,
        arrival: amount_at(table, k, model, ARRIVAL, MOST_AMOUNT)?,
    };
    if matches!(model, ModelName::Attract) && cells.attraction < cells.shadow {
        return Err(Code::ShadowAbove);
    }
    Ok(cells)
}

impl Cells<'_> {
    /// The product, with the numbers of its category and its ladder.
    pub fn to_row(self, alloc: Global, category: u32, ladder: u32) -> Result<Row, NoMemory>
        ensures { IfOk result (λ row. row ≡ row_of self.entry category ladder) }
    {
        Ok(Row {
            name: String::from_str(alloc, self.name)?,
            product: Product {
                margin: self.margin,
                category,
                space: self.space,
                price: self.price,
                ladder,
                grade: self.grade,
            },
            attraction: self.attraction,
            shadow: self.shadow,
            arrival: self.arrival,
            category: String::from_str(alloc, self.category)?,
            ladder: String::from_str(alloc, self.ladder)?,
        })
    }
}
