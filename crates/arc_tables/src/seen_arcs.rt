//! What the rows of an arcs file said so far.
ghost use Rattle.std.specs.Prelude.{◌≡◌, ◌+◌, ◌*◌, ◌<◌, ◌≤◌, ◌++◌, ◌∷◌, [], true, false, replicate, length, slice_index, slice_index_or, slice_set, IfOk};
ghost use Rattle.offer_model.specs.declared.ranges.TheConstants.{MOST_PRODUCTS, MOST_SCALE};

use offer_model::{Arc, Arcs, NoMemory};
use std::alloc::Global;
use std::marker::Model;

/// The arcs so far, for each pair of products whether it has one, and the parts from each product.
#[derive(Drop)]
pub struct SeenArcs {
    count: usize,
    arcs: Arcs,
    pairs: Vec<bool>,
    parts: Vec<u64>,
}

impl Model for SeenArcs {
    ghost use Rattle.arc_tables.specs.SeenArcs.{SeenData};

    ghost Value = { SeenData };

    ghost view = { λ s. record { count = s.count; arcs = s.arcs.items; spare = s.arcs.spare; pairs = s.pairs.items; parts = s.parts.items } };
}

impl SeenArcs {
    /// No arcs over so many products, with room for so many arcs.
    pub fn new(alloc: Global, count: usize, room: usize) -> Result<SeenArcs, NoMemory>
        requires { count ≤ MOST_PRODUCTS }
        ensures count { IfOk result (λ s. s.count ≡ count) }
        ensures arcs { IfOk result (λ s. s.arcs ≡ []) }
        ensures room { IfOk result (λ s. room ≤ s.spare) }
        ensures pairs { IfOk result (λ s. s.pairs ≡ replicate (count * count) false) }
        ensures parts { IfOk result (λ s. s.parts ≡ replicate count 0) }
    {
        let mut arcs = Arcs::new(alloc);
        arcs.reserve(room)?;
        let pairs = vec![in alloc; false; count * count]?;
        let parts = vec![in alloc; 0; count]?;
        Ok(SeenArcs {
            count,
            arcs,
            pairs,
            parts,
        })
    }

    /// Whether an arc leads from one product to the other.
    pub fn has(&self, from: usize, to: usize) -> bool
        requires count { self.now.count ≤ MOST_PRODUCTS }
        requires from { from < self.now.count }
        requires to { to < self.now.count }
        requires pairs { length self.now.pairs ≡ self.now.count * self.now.count }
        ensures { result ≡ slice_index_or self.now.pairs (from * self.now.count + to) false }
    {
        self.pairs[from * self.count + to]
    }

    /// The parts of the arcs from a product.
    pub fn parts_from(&self, from: usize) -> u64
        requires { from < length self.now.parts }
        ensures { result ≡ slice_index self.now.parts from }
    {
        self.parts[from]
    }

    /// Takes one more arc.
    pub fn put(&mut self, arc: Arc)
        requires count { self.old.count ≤ MOST_PRODUCTS }
        requires from { arc.from < self.old.count }
        requires to { arc.to < self.old.count }
        requires pairs { length self.old.pairs ≡ self.old.count * self.old.count }
        requires parts { length self.old.parts ≡ self.old.count }

        // room for it, and a sum in range
        requires spare { 0 < self.old.spare }
        requires small { slice_index self.old.parts arc.from + arc.parts ≤ MOST_SCALE }
        ensures arcs { self.new.arcs ≡ self.old.arcs ++ arc ∷ [] }
        ensures count { self.new.count ≡ self.old.count }
        ensures spare { self.new.spare + 1 ≡ self.old.spare }
        ensures pairs { self.new.pairs ≡ slice_set self.old.pairs (arc.from * self.old.count + arc.to) true }
        ensures parts { self.new.parts ≡ slice_set self.old.parts arc.from (slice_index self.old.parts arc.from + arc.parts) }
    {
        self.pairs[arc.from * self.count + arc.to] = true;
        self.parts[arc.from] += arc.parts;
        self.arcs.push(arc);
    }

    /// The arcs, in file order.
    pub fn into_arcs(self) -> Arcs
        ensures { result.items ≡ self.arcs }
    {
        self.arcs
    }
}
