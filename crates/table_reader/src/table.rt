//! Tables, and how one is read.
ghost use Rattle.std.specs.Prelude.{◌≡◌, ◌<◌, ◌↔◌, length, option_map, IsNone, IfOk, IfErr};
ghost use Rattle.table_reader.specs.Records.{records_of};
ghost use Rattle.table_reader.specs.Tables.{AreDistinct, names_in, HasNeeded, place_of, field_of};
ghost use Rattle.table_reader.specs.TableFaults.{OnFault, table_outcome};

use crate::checks::checked_places;
use crate::columns::Columns;
use crate::faults::TableFault;
use crate::header::field;
use crate::records::all_records;
use csv::ByteRecord;
use std::alloc::Global;
use std::marker::Model;

/// A table of N columns. Contracts see the place of each column and the records of the data rows.
#[derive(Drop)]
pub struct Table<const N: usize> {
    columns: Columns<N>,
    /// The header, if there is one, and the data rows.
    records: Vec<ByteRecord>,
}

impl<const N: usize> Model for Table<N> {
    ghost use Rattle.std.specs.Prelude.{map};
    ghost use Rattle.csv.specs.Records.{fields_of};
    ghost use Rattle.table_reader.specs.Tables.{TableData, IsTable, table_under};

    ghost Value = { TableData };

    ghost view = { λ t. table_under t.columns (map fields_of t.records.items) };

    ghost invariant = { λ t. IsTable (table_under t.columns (map fields_of t.records.items)) };
}

impl<const N: usize> Table<N> {
    /// The number of data rows.
    pub fn rows(&self) -> usize
        ensures { result ≡ length self.now.records }
    {
        self.records.len().saturating_sub(1)
    }

    /// The field of a data row in column `c`. Data row `row`, from 0, is row `row + 2` of the file.
    pub fn field(&self, row: usize, c: usize) -> Option<&[u8]>
        requires row { row < length self.now.records }
        requires column { c < N }
        ensures value { option_map (λ s. s.now) result ≡ field_of self.now row c }
        ensures absent { IsNone result ↔ (place_of self.now c ≡ None) }
    {
        let place = self.columns.place(c)?;
        Some(field(&self.records[row + 1], place))
    }

    /// Where the columns stand in the header.
    pub fn columns(&self) -> &Columns<N>
        ensures { result.now ≡ self.now.places }
    {
        &self.columns
    }
}

/// The table in the bytes of a file, with columns of these names. `needed` says of each whether it must be
/// there.
pub fn read_table<const N: usize>(
    alloc: Global,
    bytes: &[u8],
    names: &[&[u8]],
    needed: &[bool; N],
) -> Result<Table<N>, TableFault>
    requires count { length names.now ≡ N }
    requires distinct { AreDistinct (names_in names.now) }
    ensures table { let outcome = table_outcome (names_in names.now) needed.now (records_of bytes.now) in
        IfOk result (λ t. outcome ≡ Ok t) }
    ensures needed { IfOk result (λ t. HasNeeded needed.now t) }
    ensures fault { let outcome = table_outcome (names_in names.now) needed.now (records_of bytes.now) in
        IfErr result (λ e. OnFault e (outcome ≡ Err e)) }
{
    let records = all_records(alloc, bytes)?;
    let places = checked_places(&records, names, needed)?;
    Ok(Table {
        columns: Columns::new(places),
        records,
    })
}
