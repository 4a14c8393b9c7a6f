//! A catalogue as a products file.
ghost use Rattle.std.specs.Prelude.{◌≡◌, [], ◌++◌, ℕ, List, map, decimal, OnOk, IfOk};
ghost use Rattle.csv.specs.Writing.{default_writer, row_text};
ghost use Rattle.catalogue_rows.specs.PrintedProducts.{product_fields, products_text, HasWritten, ReadsBack};
ghost use Rattle.catalogue_rows.specs.ProductTables.{product_columns};

use crate::catalogue::{Catalogue, Row};
use crate::product_columns::COLUMNS;
use csv::{Writer, WriterBuilder};
use itoa::Buffer;
use offer_model::{Bytes, NoMemory};
use std::alloc::Global;

/// A writer to memory, by csv's defaults, that has written nothing.
fn fresh_writer(alloc: Global) -> Writer<Vec<u8>>
    ensures { HasWritten result [] }
{
    WriterBuilder::new().from_writer(Vec::new(alloc))
}

/// Writes one record after the others.
fn write_record(writer: &mut Writer<Vec<u8>>, fields: &[&[u8]]) -> Result<(), NoMemory>
    ensures { (text : List ℕ) → HasWritten writer.old text
        → OnOk result (HasWritten writer.new (text ++ row_text default_writer (map (λ field. field.now) fields.now))) }
{
    // The bytes go to memory and all records have ten fields, so only memory can be wanting.
    match writer.write_fields(fields) {
        Ok(()) => Ok(()),
        Err(_) => Err(NoMemory),
    }
}

fn number_text(digits: &mut Buffer, number: u64) -> &[u8]
    ensures { result.now ≡ decimal number }
{
    digits.format(number).as_bytes()
}

fn write_row(writer: &mut Writer<Vec<u8>>, row: &Row) -> Result<(), NoMemory>
    ensures { (text : List ℕ) → HasWritten writer.old text
        → OnOk result (HasWritten writer.new (text ++ row_text default_writer (product_fields row.now))) }
{
    let (mut margin, mut attraction, mut shadow) = (Buffer::new(), Buffer::new(), Buffer::new());
    let (mut space, mut price) = (Buffer::new(), Buffer::new());
    let (mut grade, mut arrival) = (Buffer::new(), Buffer::new());
    let fields = [
        row.name.as_bytes(),
        number_text(&mut margin, row.product.margin),
        number_text(&mut attraction, row.attraction),
        number_text(&mut shadow, row.shadow),
        row.category.as_bytes(),
        number_text(&mut space, row.product.space),
        number_text(&mut price, row.product.price),
        row.ladder.as_bytes(),
        number_text(&mut grade, row.product.grade),
        number_text(&mut arrival, row.arrival),
    ];
    write_record(writer, &fields)
}

/// What the writer has written.
fn written(alloc: Global, writer: Writer<Vec<u8>>) -> Result<Bytes, NoMemory>
    ensures { (text : List ℕ) → HasWritten writer text → IfOk result (λ bytes. bytes.items ≡ text) }
{
    let Ok(bytes) = writer.into_inner() else {
        return Err(NoMemory);
    };
    let mut text = Bytes::new(alloc);
    text.reserve(bytes.len())?;
    text.push_slice(&bytes);
    Ok(text)
}

/// The catalogue as a products file: a header with the ten columns and a row for each product.
pub fn print_products(alloc: Global, c: &Catalogue) -> Result<Bytes, NoMemory>
    ensures text { IfOk result (λ text. text.items ≡ products_text c.now) }
    ensures reads_back { IfOk result (λ text. ReadsBack c.now text.items) }
{
    let mut writer = fresh_writer(alloc);
    write_record(&mut writer, &COLUMNS)?;
    'rows: for row in c.rows() {
        write_row(&mut writer, row)?;
    }
    written(alloc, writer)
}
