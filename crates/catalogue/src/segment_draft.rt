//! A segment that is being read: what its head says, and each product's attraction where a row said it.
ghost use Rattle.std.specs.Prelude.{◌≡◌, ◌<◌, ◌≤◌, length, map, replicate, set, is_some, slice_index_or, unwrap_or, Some, None, IfOk};
ghost use Rattle.offer_model.specs.declared.ranges.TheConstants.{MOST_AMOUNT};
ghost use Rattle.offer_model.specs.Validity.{IsPositiveAmount, IsSegment};
ghost use Rattle.catalogue.specs.Drafts.{segment_drafted};

use crate::segment_table::SegmentRow;
use offer_model::{NoMemory, Numbers, Segment};
use std::alloc::Global;
use std::marker::Model;

/// A segment some of whose rows were read.
#[derive(Drop)]
pub struct SegmentDraft {
    name: String,
    size: u64,
    none: u64,
    attract: Vec<Option<u64>>,
}

impl Model for SegmentDraft {
    ghost use Rattle.std.specs.Prelude.{string_bytes};
    ghost use Rattle.catalogue.specs.Drafts.{DraftData, IsDraft};

    ghost Value = { DraftData };

    ghost view = { λ d. record { name = string_bytes d.name; size = d.size; none = d.none; attract = d.attract.items } };

    ghost invariant = { λ d. IsDraft (record { name = string_bytes d.name; size = d.size; none = d.none; attract = d.attract.items }) };
}

/// As many attractions as products, those that no row said being 0.
fn said_attractions(alloc: Global, said: &[Option<u64>]) -> Result<Numbers, NoMemory>
    ensures { IfOk result (λ list. list.items ≡ map (λ found. unwrap_or found 0) said.now) }
{
    let mut list = Numbers::new(alloc);
    list.reserve(said.len())?;
    for found in said {
        list.push(found.unwrap_or(0));
    }
    Ok(list)
}

fn no_shadows(alloc: Global, products: usize) -> Result<Numbers, NoMemory>
    ensures { IfOk result (λ list. list.items ≡ replicate products 0) }
{
    let mut list = Numbers::new(alloc);
    list.reserve(products)?;
    for _k in 0..products {
        list.push(0);
    }
    Ok(list)
}

impl SegmentDraft {
    /// A segment whose head was read, and none of whose products.
    pub fn begin(
        alloc: Global,
        name: &str,
        size: u64,
        none: u64,
        products: usize,
    ) -> Result<SegmentDraft, NoMemory>
        requires size { IsPositiveAmount size }
        requires none { IsPositiveAmount none }
        ensures { IfOk result (λ draft. draft ≡ record { name = name.now; size = size; none = none; attract = replicate products None }) }
    {
        Ok(SegmentDraft {
            name: String::from_str(alloc, name)?,
            size,
            none,
            attract: vec![in alloc; None; products]?,
        })
    }

    /// Whether a row said the attraction of product `i`.
    pub fn has(&self, i: usize) -> bool
        requires { i < length self.now.attract }
        ensures { result ≡ is_some (slice_index_or self.now.attract i None) }
    {
        self.attract[i].is_some()
    }

    /// A row says the attraction of product `i`.
    pub fn put(&mut self, i: usize, attraction: u64)
        requires product { i < length self.old.attract }
        requires attraction { attraction ≤ MOST_AMOUNT }
        ensures { self.new ≡ record self.old { attract = set self.old.attract i (Some attraction) } }
    {
        self.attract[i] = Some(attraction);
    }

    /// The segment, all of whose rows were read.
    pub fn close(&self, alloc: Global) -> Result<SegmentRow, NoMemory>
        ensures value { IfOk result (λ row. row ≡ segment_drafted self.now) }
        ensures valid { IfOk result (λ row. IsSegment row.segment) }
    {
        let attract = said_attractions(alloc, &self.attract)?;
        let shadow = no_shadows(alloc, self.attract.len())?;
        let name = String::from_str(alloc, self.name.as_str())?;
        let segment = Segment::new(self.size, self.none, attract, shadow);
        Ok(SegmentRow { name, segment })
    }
}
