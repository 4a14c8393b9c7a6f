//! The records of a file.
ghost use Rattle.std.specs.Prelude.{◌≡◌, IfOk, map};
ghost use Rattle.csv.specs.Records.{fields_of};
ghost use Rattle.table_reader.specs.Records.{records_of};

use csv::{ByteRecord, ReaderBuilder};
use offer_model::NoMemory;
use std::alloc::Global;

/// Every record of a file, of whatever lengths.
pub fn all_records(alloc: Global, bytes: &[u8]) -> Result<Vec<ByteRecord>, NoMemory>
    ensures { IfOk result (λ records. map fields_of records.items ≡ records_of bytes.now) }
{
    let reader = ReaderBuilder::new()
        .has_headers(false)
        .flexible(true)
        .from_reader(alloc, bytes);
    let mut records = Vec::new(alloc);
    'records: for record in reader.into_byte_records() {
        // The bytes lie in memory and lengths may differ, so only memory can be wanting.
        let Ok(record) = record else {
            return Err(NoMemory);
        };
        records.push(record)?;
    }
    Ok(records)
}
