//! Segments files: from bytes to the segments of a mixed model over a catalogue, or to the first fault.
ghost use Rattle.std.specs.Prelude.{◌≡◌, ◌≤◌, length, map, All, Ok, Err, IfOk, IfErr, OnOk, Some, None};
ghost use Rattle.offer_model.specs.Validity.{IsPositiveAmount, IsSegment};
ghost use Rattle.catalogue_rows.specs.declared.faults.FileName.TheVariants as file;
ghost use Rattle.catalogue_rows.specs.Sizes.{most_table};
ghost use Rattle.catalogue.specs.CatalogueProblems.{FitSegments};
ghost use Rattle.catalogue.specs.Drafts.{segment_drafted};
ghost use Rattle.catalogue_rows.specs.Faults.{OnFault, first_row_fault};
ghost use Rattle.catalogue_rows.specs.Rows.{IsCatalogue};
ghost use Rattle.catalogue.specs.SegmentTables.{segment_fault, segments_of, segments_outcome};

use crate::segment_columns::{COLUMNS, SEGMENT_COLUMNS};
use crate::segment_draft::SegmentDraft;
use crate::segment_rows::{SeenSegments, read_row};
use crate::segment_table::{SegmentRow, SegmentTable};
use catalogue_rows::{Catalogue, FileName, InputFault, ProductPlaces, Row, fault_of_table};
use offer_model::NoMemory;
use std::alloc::Global;
use table_reader::{Table, read_table};

/// The segments, all of whose rows were read.
fn closed(alloc: Global, drafts: &[SegmentDraft]) -> Result<Vec<SegmentRow>, NoMemory>
    ensures value { IfOk result (λ rows. rows.items ≡ map segment_drafted drafts.now) }
    ensures valid { IfOk result (λ rows. All (λ row. IsSegment row.segment) rows.items) }
{
    let mut rows = Vec::new(alloc);
    'drafts: for draft in drafts {
        rows.push(draft.close(alloc)?)?;
    }
    Ok(rows)
}

/// The segments that the rows of a table give, or the first fault of one.
fn read_rows(
    alloc: Global,
    table: &Table<SEGMENT_COLUMNS>,
    unit: u64,
    catalogue: &[Row],
) -> Result<Vec<SegmentRow>, InputFault>
    requires unit { IsPositiveAmount unit }
    requires catalogue { IsCatalogue catalogue.now }
    ensures segments { IfOk result (λ rows. rows.items ≡ segments_of catalogue.now table.now) }
    ensures fits { IfOk result (λ rows. FitSegments catalogue.now unit rows.items) }
    ensures sound { OnOk result
        (first_row_fault file.Segments (segment_fault catalogue.now unit table.now) 0 (length table.now.records) ≡ None) }
    ensures fault { IfErr result (λ e. OnFault e
        (first_row_fault file.Segments (segment_fault catalogue.now unit table.now) 0 (length table.now.records) ≡ Some e)) }
{
    let products = ProductPlaces::of(alloc, catalogue)?;
    let mut seen = SeenSegments::new(alloc);
    'rows: for k in 0..table.rows() {
        read_row(alloc, table, k, unit, &products, &mut seen)?;
    }
    Ok(closed(alloc, seen.drafts())?)
}

/// The segments in the bytes of a segments file over a catalogue under this unit, in the order of their heads, or the first
/// fault.
pub fn read_segments(
    alloc: Global,
    bytes: &[u8],
    c: &Catalogue,
    unit: u64,
) -> Result<SegmentTable, InputFault>
    requires size { length bytes.now ≤ most_table }
    requires unit { IsPositiveAmount unit }
    ensures segments { IfOk result (λ segments. segments_outcome c.now unit bytes.now ≡ Ok segments) }
    ensures fits { IfOk result (λ segments. FitSegments c.now unit segments) }
    ensures fault { IfErr result (λ e. OnFault e (segments_outcome c.now unit bytes.now ≡ Err e)) }
{
    let table = match read_table::<SEGMENT_COLUMNS>(
        alloc,
        bytes,
        &COLUMNS,
        &[true; SEGMENT_COLUMNS],
    ) {
        Ok(table) => table,
        Err(fault) => return Err(fault_of_table(FileName::Segments, fault)),
    };
    let rows = read_rows(alloc, &table, unit, c.rows())?;
    Ok(SegmentTable::new(rows))
}
