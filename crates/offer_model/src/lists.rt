//! Lists with reserved room, of whatever items.
ghost use Rattle.std.specs.Prelude.{◌≡◌, ◌+◌, ◌<◌, ◌≤◌, [], ◌∷◌, ◌++◌, length, slice_get, OnOk, IfOk};

use crate::arc::Arc;
use crate::memory::NoMemory;
use crate::products::{Limit, Product};
use crate::segments::Segment;
use std::alloc::Global;
use std::marker::Model;

/// A list with reserved room. Contracts see its items and `spare`, the room for further ones.
#[derive(Drop)]
pub struct Items<X> {
    items: Vec<X>,
}

impl<X> Model for Items<X> {
    ghost use Rattle.std.specs.Prelude.{◌-◌, vec_len, vec_capacity};
    ghost use Rattle.offer_model.specs.Roomy.{Roomy};

    ghost Value = { Roomy X };

    ghost view = { λ l. record { items = l.items.items; spare = vec_capacity l.items - vec_len l.items } };
}

/// Bytes, as of a file or a report.
pub type Bytes = Items<u8>;

/// Numbers of up to 64 bits.
pub type Numbers = Items<u64>;

/// Numbers of up to 128 bits.
pub type Wide = Items<u128>;

/// Products in catalogue order.
pub type Products = Items<Product>;

/// Segments in the order of their heads.
pub type Segments = Items<Segment>;

/// Limits in file order.
pub type Limits = Items<Limit>;

/// Arcs in file order.
pub type Arcs = Items<Arc>;

impl<X> Items<X> {
    /// The empty list. It keeps the allocator for later growth.
    pub fn new(alloc: Global) -> Self
        ensures { result.items ≡ [] }
    {
        Items {
            items: Vec::new(alloc),
        }
    }

    /// Makes room for so many further items.
    pub fn reserve(&mut self, more: usize) -> Result<(), NoMemory>
        ensures items { self.new.items ≡ self.old.items }
        ensures room { OnOk result (more ≤ self.new.spare) }
        ensures kept { self.old.spare ≤ self.new.spare }
    {
        self.items.reserve(more)?;
        Ok(())
    }

    /// Puts an item last.
    pub fn push(&mut self, item: X)
        requires { 0 < self.old.spare }
        ensures items { self.new.items ≡ self.old.items ++ item ∷ [] }
        ensures spare { self.new.spare + 1 ≡ self.old.spare }
    {
        self.items.push_reserved(item)
    }

    pub fn len(&self) -> usize
        ensures { result ≡ length self.now.items }
    {
        self.items.len()
    }

    /// The item at a place, counted from 0.
    pub fn get(&self, at: usize) -> &X
        requires { at < length self.now.items }
        ensures { slice_get self.now.items at ≡ Some result.now }
    {
        &self.items[at]
    }

    /// The items, as a slice.
    pub fn as_slice(&self) -> &[X]
        ensures { result.now ≡ self.now.items }
    {
        self.items.as_slice()
    }

    /// Takes all items out. The room stays.
    pub fn clear(&mut self)
    where
        X: Drop,
        ensures items { self.new.items ≡ [] }
        ensures spare { self.new.spare ≡ self.old.spare + length self.old.items }
    {
        self.items.clear()
    }
}

impl<X: Copy> Items<X> {
    /// A list of equal items.
    pub fn copy(&self, alloc: Global) -> Result<Self, NoMemory>
        ensures { IfOk result (λ copy. copy.items ≡ self.now.items) }
    {
        let items = Vec::from_slice(alloc, &self.items)?;
        Ok(Items { items })
    }
}

impl Items<u8> {
    /// Puts a piece last.
    pub fn push_slice(&mut self, piece: &[u8])
        requires { length piece.now ≤ self.old.spare }
        ensures items { self.new.items ≡ self.old.items ++ piece.now }
        ensures spare { self.new.spare + length piece.now ≡ self.old.spare }
    {
        for byte in piece {
            self.push(*byte);
        }
    }
}
