//! The segments of a mixed model.
ghost use Rattle.std.specs.Prelude.{◌≡◌, ◌<◌, [], length};
ghost use Rattle.catalogue.specs.SegmentTables.{named_segment_at};

use offer_model::Segment;
use std::alloc::Global;
use std::marker::Model;

/// A segment of the customers, with its name.
#[derive(Drop)]
pub(crate) struct SegmentRow {
    pub name: String,
    pub segment: Segment,
}

impl Model for SegmentRow {
    ghost use Rattle.std.specs.Prelude.{string_bytes};
    ghost use Rattle.catalogue.specs.SegmentTables.{NamedSegment};

    ghost Value = { NamedSegment };

    ghost view = { λ r. record { name = string_bytes r.name; segment = r.segment } };
}

/// The segments of a mixed model, in the order of their heads.
#[derive(Drop)]
pub struct SegmentTable {
    rows: Vec<SegmentRow>,
}

impl Model for SegmentTable {
    ghost use Rattle.std.specs.Prelude.{List};
    ghost use Rattle.catalogue.specs.SegmentTables.{NamedSegment};

    ghost Value = { List NamedSegment };

    ghost view = { λ t. t.rows.items };
}

impl SegmentTable {
    /// No segments. It keeps the allocator for later growth.
    pub fn empty(alloc: Global) -> SegmentTable
        ensures { result ≡ [] }
    {
        SegmentTable {
            rows: Vec::new(alloc),
        }
    }

    pub(crate) fn new(rows: Vec<SegmentRow>) -> SegmentTable
        ensures { result ≡ rows.items }
    {
        SegmentTable { rows }
    }

    /// The number of segments.
    pub fn len(&self) -> usize
        ensures { result ≡ length self.now }
    {
        self.rows.len()
    }

    /// The name of segment `g`.
    pub fn name(&self, g: usize) -> &str
        requires { g < length self.now }
        ensures { result.now ≡ (named_segment_at self.now g).name }
    {
        let row = &self.rows[g];
        row.name.as_str()
    }

    /// The numbers of segment `g`.
    pub fn segment(&self, g: usize) -> &Segment
        requires { g < length self.now }
        ensures { result.now ≡ (named_segment_at self.now g).segment }
    {
        let row = &self.rows[g];
        &row.segment
    }
}
