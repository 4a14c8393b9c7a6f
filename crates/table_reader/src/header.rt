//! The header: each field is a column's name.
ghost use Rattle.std.specs.Prelude.{◌≡◌, ◌<◌, length, slice_get, position, IfOk, IfErr, OnOk, Some, None};
ghost use Rattle.std.specs.Str.{bytes_eq};
ghost use Rattle.csv.specs.Records.{fields_of};
ghost use Rattle.table_reader.specs.Tables.{AreDistinct, names_in, places_of};
ghost use Rattle.table_reader.specs.TableFaults.{header_fault};

use crate::faults::TableFault;
use csv::ByteRecord;

/// The field of a record at a place.
#[tactic(auto, using(crate::proofs::FieldLemmas::field_is_read, crate::proofs::FieldLemmas::field_there))]
pub fn field(entry: &ByteRecord, place: usize) -> &[u8]
    requires { place < length (fields_of entry.now) }
    ensures { slice_get (fields_of entry.now) place ≡ Some result.now }
{
    entry.get(place).unwrap()
}

/// The first column with this name.
fn column_of(names: &[&[u8]], name: &[u8]) -> Option<usize>
    ensures { result ≡ position (λ known. bytes_eq name.now known.now) names.now }
{
    names.iter().position(|known| name == *known)
}

/// The place of each column in the header, or the header's first fault.
pub fn header_places<const N: usize>(
    header: &ByteRecord,
    names: &[&[u8]],
) -> Result<[Option<usize>; N], TableFault>
    requires count { length names.now ≡ N }
    requires distinct { AreDistinct (names_in names.now) }
    ensures places { IfOk result (λ places. places ≡ places_of (names_in names.now) (fields_of header.now)) }
    ensures sound { OnOk result (header_fault (names_in names.now) (fields_of header.now) ≡ None) }
    ensures fault { IfErr result (λ e. header_fault (names_in names.now) (fields_of header.now) ≡ Some e) }
{
    let mut places = [None; N];
    'fields: for place in 0..header.len() {
        let Some(c) = column_of(names, field(header, place)) else {
            return Err(TableFault::UnknownColumn(place));
        };
        if places[c].is_some() {
            return Err(TableFault::RepeatedColumn(place));
        }
        places[c] = Some(place);
    }
    Ok(places)
}
