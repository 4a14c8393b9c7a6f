//! One cell of a table: its text, and the number or the name that it writes.
ghost use Rattle.std.specs.Prelude.{◌≡◌, ◌<◌, ◌≤◌, length, false, IfOk, IfErr, OnOk, Some, None};
ghost use Rattle.catalogue_rows.specs.Cells.{text_of, written_number, number_fault, name_fault, fault_unless_empty};

use crate::faults::Code;
use crate::names::read_name;
use offer_model::read_number;
use table_reader::Table;

/// The text of a data row in a column, empty where the column is absent.
pub fn cell<const N: usize>(table: &Table<N>, row: usize, c: usize) -> &[u8]
    requires row { row < length table.now.records }
    requires column { c < N }
    ensures { result.now ≡ text_of table.now row c }
{
    table.field(row, c).unwrap_or(b"")
}

/// The number that a text writes, from `least` to `most`.
pub fn parse_number(text: &[u8], least: u64, most: u64) -> Result<u64, Code>
    ensures number { IfOk result (λ n. n ≡ written_number text.now) }
    ensures sound { OnOk result (number_fault least most text.now ≡ None) }
    ensures fault { IfErr result (λ code. number_fault least most text.now ≡ Some code) }
{
    let Some(number) = read_number(text) else {
        return Err(Code::BadNumber);
    };
    if number < u128::from(least) || number > u128::from(most) {
        return Err(Code::OutOfRange);
    }
    Ok(number as u64)
}

/// The number that a text writes, from 0 to `most`, or 0 for an empty text that isn't needed.
pub fn parse_amount(text: &[u8], needed: bool, most: u64) -> Result<u64, Code>
    ensures number { IfOk result (λ n. n ≡ written_number text.now) }
    ensures sound { OnOk result (fault_unless_empty needed (number_fault 0 most) text.now ≡ None) }
    ensures fault { IfErr result (λ code. fault_unless_empty needed (number_fault 0 most) text.now ≡ Some code) }
{
    if !needed && text.is_empty() {
        return Ok(0);
    }
    parse_number(text, 0, most)
}

/// The name that a text is.
pub fn parse_name(text: &[u8]) -> Result<&str, Code>
    ensures name { IfOk result (λ name. name.now ≡ text.now) }
    ensures sound { OnOk result (name_fault text.now ≡ None) }
    ensures fault { IfErr result (λ code. name_fault text.now ≡ Some code) }
{
    read_name(text).ok_or(Code::BadName)
}

/// The name of a category or a ladder, or the empty text.
pub fn parse_group(text: &[u8]) -> Result<&str, Code>
    ensures name { IfOk result (λ name. name.now ≡ text.now) }
    ensures sound { OnOk result (fault_unless_empty false name_fault text.now ≡ None) }
    ensures fault { IfErr result (λ code. fault_unless_empty false name_fault text.now ≡ Some code) }
{
    if text.is_empty() {
        return Ok("");
    }
    parse_name(text)
}
