//! One row of a segments file after another: a head, or a product's attraction in a segment. What was seen so far is one value,
//! so that only this file drops name sets.
ghost use Rattle.std.specs.Prelude.{◌≡◌, ℕ, ◌<◌, ◌≤◌, ◌+◌, ◌*◌, [], ◌∷◌, not, nat_lt, nat_le, List, false, true, length, option_map, IfOk, IfErr, OnOk, Some, None};
ghost use Rattle.offer_model.specs.declared.ranges.TheConstants.{MOST_AMOUNT, MOST_SEGMENTS};
ghost use Rattle.offer_model.specs.Validity.{IsPositiveAmount};
ghost use Rattle.table_reader.specs.Tables.{TableData};
ghost use Rattle.catalogue_rows.specs.declared.faults.FileName.TheVariants as file;
ghost use Rattle.catalogue_rows.specs.declared.faults.InputFault.TheVariants.{Fault};
ghost use Rattle.catalogue_rows.specs.Faults.{OnFault, first_of};
ghost use Rattle.catalogue_rows.specs.Places.{product_named};
ghost use Rattle.catalogue.specs.LimitTables.{named_fault};
ghost use Rattle.catalogue_rows.specs.Rows.{RowData, IsCatalogue};
ghost use Rattle.catalogue.specs.SegmentTables.{segment_text, product_text, row_size, row_weight, is_head, heads_before, names_before, sizes_before, segment_named, head_fault, pair_fault, segment_fault};
ghost use Rattle.catalogue.specs.SegmentDrafts.{HasSeenSegments};

use crate::segment_columns::{PRODUCT, SEGMENT, SEGMENT_COLUMNS, SIZE, WEIGHT};
use crate::segment_draft::SegmentDraft;
use catalogue_rows::{
    Code, FileName, InputFault, NameSet, ProductPlaces, cell, parse_name, parse_number,
};
use offer_model::{MOST_AMOUNT, MOST_SEGMENTS};
use std::alloc::Global;
use table_reader::Table;

/// The names of the segments so far, what is known of each, and the sum of size times unit.
#[derive(Drop)]
pub struct SeenSegments<'a> {
    names: NameSet<'a>,
    drafts: Vec<SegmentDraft>,
    sizes: u64,
}

/// What a head says of its segment.
#[derive(Clone, Copy)]
struct Head<'a> {
    name: &'a str,
    size: u64,
    none: u64,
}

/// The places of a segment and of a product.
#[derive(Clone, Copy)]
struct Places {
    segment: usize,
    product: usize,
}

/// The attraction of a product in a segment.
#[derive(Clone, Copy)]
struct Pair {
    places: Places,
    attraction: u64,
}

impl<'a> SeenSegments<'a> {
    /// What no rows say.
    pub fn new(alloc: Global) -> SeenSegments<'a>
        ensures { (rows : List RowData) (unit : ℕ) (table : TableData) → HasSeenSegments rows unit table 0 result }
    {
        SeenSegments {
            names: NameSet::new(alloc),
            drafts: Vec::new(alloc),
            sizes: 0,
        }
    }

    /// The segments, some of whose rows were read.
    pub fn drafts(&self) -> &[SegmentDraft]
        ensures { result.now ≡ self.now.drafts.items }
    {
        &self.drafts
    }
}

/// Whether there is no place for one more segment after so many.
fn is_full(segments: usize) -> bool
    ensures { result ≡ not (nat_lt segments MOST_SEGMENTS) }
{
    segments >= MOST_SEGMENTS
}

/// Whether the sum of the sizes is too great with one more.
fn is_too_great(sizes: u64, size: u64) -> bool
    requires sizes { sizes ≤ MOST_AMOUNT }
    requires size { size ≤ MOST_AMOUNT * MOST_AMOUNT }
    ensures { result ≡ not (nat_le (sizes + size) MOST_AMOUNT) }
{
    sizes + size > MOST_AMOUNT
}

/// What data row `k` says as a head, or what is wrong with it.
fn read_head<'a>(
    table: &'a Table<SEGMENT_COLUMNS>,
    k: usize,
    unit: u64,
    seen: &SeenSegments<'a>,
) -> Result<Head<'a>, Code>
    requires row { k < length table.now.records }
    requires head { is_head table.now k ≡ true }
    requires unit { IsPositiveAmount unit }
    // what the rows before it say
    requires names { seen.now.names ≡ names_before table.now k }
    requires count { length seen.now.drafts.items ≡ length (heads_before table.now k) }
    requires sizes { seen.now.sizes ≡ sizes_before unit table.now k }
    requires small { seen.now.sizes ≤ MOST_AMOUNT }

    ensures name { IfOk result (λ head. head.name.now ≡ segment_text table.now k) }
    ensures size { IfOk result (λ head. head.size ≡ row_size table.now k) }
    ensures none { IfOk result (λ head. head.none ≡ row_weight table.now k) }
    ensures sound { OnOk result (head_fault unit table.now k ≡ None) }
    ensures fault { IfErr result (λ code. head_fault unit table.now k ≡ Some code) }
{
    let text = cell(table, k, SEGMENT);
    let name = parse_name(text)?;
    if seen.names.contains(text) {
        return Err(Code::RepeatedName);
    }
    if is_full(seen.drafts.len()) {
        return Err(Code::TooManyLines);
    }
    let size = parse_number(cell(table, k, SIZE), 1, MOST_AMOUNT)?;
    let none = parse_number(cell(table, k, WEIGHT), 1, MOST_AMOUNT)?;
    if is_too_great(seen.sizes, size * unit) {
        return Err(Code::SizesTooGreat);
    }
    Ok(Head { name, size, none })
}

/// The places of the segment and of the product that data row `k` names, or what is wrong with the names.
fn read_places<'a>(
    table: &'a Table<SEGMENT_COLUMNS>,
    k: usize,
    products: &ProductPlaces<'a>,
    seen: &SeenSegments<'a>,
) -> Result<Places, Code>
    requires row { k < length table.now.records }
    requires names { seen.now.names ≡ names_before table.now k }
    ensures segment { IfOk result (λ places. segment_named table.now k ≡ Some places.segment) }
    ensures product { IfOk result (λ places. product_named products.now (product_text table.now k) ≡ Some places.product) }
    ensures fault { IfErr result (λ code. first_of (
        named_fault (segment_named table.now k) ∷ named_fault (product_named products.now (product_text table.now k)) ∷ []) ≡ Some code) }
{
    let segment = seen.names.place(cell(table, k, SEGMENT));
    let product = products.place(cell(table, k, PRODUCT));
    Ok(Places {
        segment: segment.ok_or(Code::UnknownName)?,
        product: product.ok_or(Code::UnknownName)?,
    })
}

/// What data row `k` says as a product's attraction in a segment, or what is wrong with it.
fn read_pair<'a>(
    table: &'a Table<SEGMENT_COLUMNS>,
    k: usize,
    unit: u64,
    products: &ProductPlaces<'a>,
    seen: &SeenSegments<'a>,
) -> Result<Pair, Code>
    requires row { k < length table.now.records }
    requires seen { HasSeenSegments products.now unit table.now k seen.now }
    ensures segment { IfOk result (λ pair. segment_named table.now k ≡ Some pair.places.segment) }
    ensures product { IfOk result (λ pair. product_named products.now (product_text table.now k) ≡ Some pair.places.product) }
    ensures attraction { IfOk result (λ pair. pair.attraction ≡ row_weight table.now k) }
    ensures small { IfOk result (λ pair. pair.attraction ≤ MOST_AMOUNT) }
    ensures sound { OnOk result (pair_fault products.now table.now k ≡ None) }
    ensures fault { IfErr result (λ code. pair_fault products.now table.now k ≡ Some code) }
{
    let places = read_places(table, k, products, seen)?;
    if seen.drafts[places.segment].has(places.product) {
        return Err(Code::RepeatedName);
    }
    let attraction = parse_number(cell(table, k, WEIGHT), 0, MOST_AMOUNT)?;
    Ok(Pair { places, attraction })
}

/// Data row `k` as a head, or its fault. Its segment is known from then on.
fn begin_segment<'a>(
    alloc: Global,
    table: &'a Table<SEGMENT_COLUMNS>,
    k: usize,
    unit: u64,
    products: &ProductPlaces<'a>,
    seen: &mut SeenSegments<'a>,
) -> Result<(), InputFault>
    requires row { k < length table.now.records }
    requires head { is_head table.now k ≡ true }
    requires unit { IsPositiveAmount unit }
    requires products { IsCatalogue products.now }
    requires seen { HasSeenSegments products.now unit table.now k seen.old }
    ensures seen { OnOk result (HasSeenSegments products.now unit table.now (k + 1) seen.new) }
    ensures sound { OnOk result (head_fault unit table.now k ≡ None) }
    ensures fault { IfErr result (λ e. OnFault e
        (option_map (Fault file.Segments (k + 2)) (head_fault unit table.now k) ≡ Some e)) }
{
    let head = match read_head(table, k, unit, seen) {
        Ok(head) => head,
        Err(code) => {
            return Err(InputFault::Fault {
                file: FileName::Segments,
                row: k + 2,
                code,
            });
        }
    };
    let draft = SegmentDraft::begin(alloc, head.name, head.size, head.none, products.len())?;
    seen.names.insert(head.name.as_bytes())?;
    seen.drafts.push(draft)?;
    seen.sizes += head.size * unit;
    Ok(())
}

/// Data row `k` as a product's attraction in a segment, or its fault. The attraction is known from then on.
fn put_attraction<'a>(
    table: &'a Table<SEGMENT_COLUMNS>,
    k: usize,
    unit: u64,
    products: &ProductPlaces<'a>,
    seen: &mut SeenSegments<'a>,
) -> Result<(), InputFault>
    requires row { k < length table.now.records }
    requires pair { is_head table.now k ≡ false }
    requires products { IsCatalogue products.now }
    requires seen { HasSeenSegments products.now unit table.now k seen.old }
    ensures seen { OnOk result (HasSeenSegments products.now unit table.now (k + 1) seen.new) }
    ensures sound { OnOk result (pair_fault products.now table.now k ≡ None) }
    ensures fault { IfErr result (λ e. OnFault e
        (option_map (Fault file.Segments (k + 2)) (pair_fault products.now table.now k) ≡ Some e)) }
{
    let pair = match read_pair(table, k, unit, products, seen) {
        Ok(pair) => pair,
        Err(code) => {
            return Err(InputFault::Fault {
                file: FileName::Segments,
                row: k + 2,
                code,
            });
        }
    };
    let places = pair.places;
    seen.drafts[places.segment].put(places.product, pair.attraction);
    Ok(())
}

/// Data row `k`, or its fault. What it says is seen from then on.
pub fn read_row<'a>(
    alloc: Global,
    table: &'a Table<SEGMENT_COLUMNS>,
    k: usize,
    unit: u64,
    products: &ProductPlaces<'a>,
    seen: &mut SeenSegments<'a>,
) -> Result<(), InputFault>
    requires row { k < length table.now.records }
    requires unit { IsPositiveAmount unit }
    requires products { IsCatalogue products.now }
    requires seen { HasSeenSegments products.now unit table.now k seen.old }
    ensures seen { OnOk result (HasSeenSegments products.now unit table.now (k + 1) seen.new) }
    ensures sound { OnOk result (segment_fault products.now unit table.now k ≡ None) }
    ensures fault { IfErr result (λ e. OnFault e
        (option_map (Fault file.Segments (k + 2)) (segment_fault products.now unit table.now k) ≡ Some e)) }
{
    if cell(table, k, PRODUCT).is_empty() {
        begin_segment(alloc, table, k, unit, products, seen)
    } else {
        put_attraction(table, k, unit, products, seen)
    }
}
