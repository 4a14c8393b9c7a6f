//! The line that names a fault of a file.
ghost use Rattle.std.specs.Prelude.{◌≡◌, ◌++◌, ◌+◌, ◌≤◌, length};
ghost use Rattle.arrayvec.specs.ArrayString.{array_string_len};
ghost use Rattle.assort_core.specs.Lines.{file_text, column_text, code_text, missing_text, row_text, fault_line, unread_line};

use crate::lines::usage_line::ErrorLine;
use catalogue::{Code, FileName};
use itoa::Buffer;

fn file_text(file: FileName) -> &'static str
    ensures text { result.now ≡ file_text file }
    ensures short { length result.now ≤ 8 }
{
    match file {
        FileName::Products => "products",
        FileName::Limits => "limits",
        FileName::Segments => "segments",
        FileName::Arcs => "arcs",
        FileName::Proof => "proof",
        FileName::Offer => "offer",
    }
}

/// The name of column `c` of a file.
fn column_text(file: FileName, c: usize) -> &'static str
    ensures text { result.now ≡ column_text file c }
    ensures short { length result.now ≤ 10 }
{
    match (file, c) {
        (FileName::Products, 0) => "name",
        (FileName::Products, 1) => "margin",
        (FileName::Products, 2) => "attraction",
        (FileName::Products, 3) => "shadow",
        (FileName::Products, 4) => "category",
        (FileName::Products, 5) => "space",
        (FileName::Products, 6) => "price",
        (FileName::Products, 7) => "ladder",
        (FileName::Products, 8) => "grade",
        (FileName::Products, 9) => "arrival",
        (FileName::Limits, 0) => "kind",
        (FileName::Limits, 1) => "first",
        (FileName::Limits, 2) => "second",
        (FileName::Limits, 3) => "number",
        (FileName::Segments, 0) => "segment",
        (FileName::Segments, 1) => "product",
        (FileName::Segments, 2) => "size",
        (FileName::Segments, 3) => "attraction",
        (FileName::Arcs, 0) => "from",
        (FileName::Arcs, 1) => "to",
        (FileName::Arcs, 2) => "parts",
        _ => "",
    }
}

fn code_text(code: Code) -> &'static str
    ensures text { result.now ≡ code_text code }
    ensures short { length result.now ≤ 23 }
{
    match code {
        Code::BadName => "bad name",
        Code::BadNumber => "bad number",
        Code::OutOfRange => "out of range",
        Code::RepeatedName => "repeated name",
        Code::UnknownName => "unknown name",
        Code::UnknownKind => "unknown kind",
        Code::RepeatedLimit => "repeated limit",
        Code::ShadowAbove => "shadow above attraction",
        Code::TooManyProducts => "too many products",
        Code::TooManyLines => "too many lines",
        Code::SizesTooGreat => "sizes too great",
        Code::NoArrivals => "no arrivals",
        Code::NoLeaving => "no chance of leaving",
        Code::UnknownColumn => "unknown column",
        Code::RepeatedColumn => "repeated column",
        Code::MissingColumn(_) => "missing column ",
        Code::FieldCount => "wrong number of fields",
        Code::TooLarge => "file too large",
        Code::WrongLength => "wrong length",
    }
}

/// The column that is missing.
fn missing_text(file: FileName, code: Code) -> &'static str
    ensures text { result.now ≡ missing_text file code }
    ensures short { length result.now ≤ 10 }
{
    match code {
        Code::MissingColumn(c) => column_text(file, c),
        _ => "",
    }
}

/// Puts the row last, but for a fault of the whole file.
fn push_row(line: &mut ErrorLine, row: usize, code: Code)
    requires { array_string_len line.old ≤ 32 }
    ensures bytes { line.new.bytes ≡ line.old.bytes ++ row_text row code }
    ensures len { array_string_len line.new ≤ array_string_len line.old + 25 }
{
    match code {
        Code::TooLarge | Code::WrongLength => {}
        _ => {
            line.push_str(" row ");
            line.push_str(Buffer::new().format(row));
        }
    }
}

/// The line for a fault of a file.
pub(crate) fn fault_line(file: FileName, row: usize, code: Code) -> ErrorLine
    ensures { result.bytes ≡ fault_line file row code }
{
    let mut line = ErrorLine::new();
    line.push_str("assort: ");
    line.push_str(file_text(file));
    push_row(&mut line, row, code);
    line.push_str(": ");
    line.push_str(code_text(code));
    line.push_str(missing_text(file, code));
    line.push_str("\n");
    line
}

/// The line for a file that can't be read.
pub(crate) fn unread_line(file: FileName) -> ErrorLine
    ensures { result.bytes ≡ unread_line file }
{
    let mut line = ErrorLine::new();
    line.push_str("assort: cannot read ");
    line.push_str(file_text(file));
    line.push_str("\n");
    line
}
