//! The faults of a file's records, in their order.
ghost use Rattle.std.specs.Prelude.{◌≡◌, ◌<◌, ◌==◌, not, length, map, position, IfOk, IfErr, IfSome, OnOk, Some, None};
ghost use Rattle.csv.specs.Records.{fields_of};
ghost use Rattle.table_reader.specs.Tables.{AreDistinct, names_in, header_of, places_of};
ghost use Rattle.table_reader.specs.TableFaults.{first_fault, first_missing, header_fault};

use crate::faults::TableFault;
use crate::header::header_places;
use csv::ByteRecord;

/// The first needed column that is absent.
fn missing_column<const N: usize>(places: &[Option<usize>; N], needed: &[bool; N]) -> Option<usize>
    ensures { result ≡ first_missing places.now needed.now }
{
    places
        .iter()
        .zip(needed.iter())
        .position(|(place, need)| place.is_none() && *need)
}

/// The first record with another number of fields, from 0.
fn other_length(records: &[ByteRecord], width: usize) -> Option<usize>
    ensures value { result ≡
        position (λ entry. not (length (fields_of entry) == width)) records.now }
    ensures within { IfSome result (λ k. k < length records.now) }
{
    records.iter().position(|record| record.len() != width)
}

/// The number of fields of the header, 0 where there is none.
fn header_width(records: &[ByteRecord]) -> usize
    ensures { result ≡ length (header_of (map fields_of records.now)) }
{
    let Some(header) = records.first() else {
        return 0;
    };
    header.len()
}

/// The place of each column in the header, or the header's first fault. Without a header no column is there.
fn table_places<const N: usize>(
    records: &[ByteRecord],
    names: &[&[u8]],
) -> Result<[Option<usize>; N], TableFault>
    requires count { length names.now ≡ N }
    requires distinct { AreDistinct (names_in names.now) }
    ensures places { let header = header_of (map fields_of records.now) in
        IfOk result (λ places. places ≡ places_of (names_in names.now) header) }
    ensures sound { let header = header_of (map fields_of records.now) in
        OnOk result (header_fault (names_in names.now) header ≡ None) }
    ensures fault { let header = header_of (map fields_of records.now) in
        IfErr result (λ e. header_fault (names_in names.now) header ≡ Some e) }
{
    let Some(header) = records.first() else {
        return Ok([None; N]);
    };
    header_places(header, names)
}

/// The place of each column in the records' header, or the first fault of the records.
pub fn checked_places<const N: usize>(
    records: &[ByteRecord],
    names: &[&[u8]],
    needed: &[bool; N],
) -> Result<[Option<usize>; N], TableFault>
    requires count { length names.now ≡ N }
    requires distinct { AreDistinct (names_in names.now) }
    ensures places { let header = header_of (map fields_of records.now) in
        IfOk result (λ places. places ≡ places_of (names_in names.now) header) }
    ensures sound { let records = map fields_of records.now in
        OnOk result (first_fault (names_in names.now) needed.now records ≡ None) }
    ensures fault { let records = map fields_of records.now in
        IfErr result (λ e. first_fault (names_in names.now) needed.now records ≡ Some e) }
{
    let places = table_places(records, names)?;
    if let Some(c) = missing_column(&places, needed) {
        return Err(TableFault::MissingColumn(c));
    }
    if let Some(k) = other_length(records, header_width(records)) {
        return Err(TableFault::FieldCount(k + 1));
    }
    Ok(places)
}
