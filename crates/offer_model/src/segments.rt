//! Segments of the customers.
ghost use Rattle.std.specs.Prelude.{◌≡◌, ◌<◌, length, IfOk};
ghost use Rattle.offer_model.specs.Problems.{attraction_of, shadow_of};
ghost use Rattle.offer_model.specs.Validity.{IsSegment};

use crate::lists::Numbers;
use crate::memory::NoMemory;
use std::alloc::Global;
use std::marker::Model;

/// A segment of the customers: its size, the weight of buying nothing, and each product's attraction and
/// shadow attraction.
#[derive(Drop)]
pub struct Segment {
    size: u64,
    none: u64,
    attract: Numbers,
    shadow: Numbers,
}

impl Model for Segment {
    ghost use Rattle.offer_model.specs.Problems.{SegmentData};
    ghost use Rattle.offer_model.specs.Validity.{IsSegment};

    ghost Value = { SegmentData };

    ghost view = { λ g. record { size = g.size; none = g.none; attract = g.attract.items; shadow = g.shadow.items } };

    ghost invariant = { λ g. IsSegment (record { size = g.size; none = g.none; attract = g.attract.items; shadow = g.shadow.items }) };
}

impl Segment {
    pub fn new(size: u64, none: u64, attract: Numbers, shadow: Numbers) -> Segment
        requires { IsSegment (record { size = size; none = none; attract = attract.items; shadow = shadow.items }) }
        ensures { result ≡ record { size = size; none = none; attract = attract.items; shadow = shadow.items } }
    {
        Segment {
            size,
            none,
            attract,
            shadow,
        }
    }

    /// An equal segment.
    pub fn copy(&self, alloc: Global) -> Result<Segment, NoMemory>
        ensures { IfOk result (λ copy. copy ≡ self.now) }
    {
        let attract = self.attract.copy(alloc)?;
        let shadow = self.shadow.copy(alloc)?;
        Ok(Segment::new(self.size, self.none, attract, shadow))
    }

    /// How many customers, as a weight from 1.
    pub fn size(&self) -> u64
        ensures value { result ≡ self.now.size }
        ensures valid { IsSegment self.now }
    {
        self.size
    }

    /// The weight of buying nothing, from 1.
    pub fn none(&self) -> u64
        ensures value { result ≡ self.now.none }
        ensures valid { IsSegment self.now }
    {
        self.none
    }

    /// The attraction of product `i`.
    pub fn attract(&self, i: usize) -> u64
        requires { i < length self.now.attract }
        ensures value { result ≡ attraction_of self.now i }
        ensures valid { IsSegment self.now }
    {
        *self.attract.get(i)
    }

    /// The shadow attraction of product `i`, which stays where it isn't offered.
    pub fn shadow(&self, i: usize) -> u64
        requires { i < length self.now.attract }
        ensures value { result ≡ shadow_of self.now i }
        ensures valid { IsSegment self.now }
    {
        *self.shadow.get(i)
    }
}
