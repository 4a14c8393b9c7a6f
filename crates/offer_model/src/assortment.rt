//! Assortments, and the rule of ties between them.
ghost use Rattle.std.specs.Prelude.{◌≡◌, ◌<◌, ◌↔◌, false, replicate, length, slice_set, IfOk, IsTrue};
ghost use Rattle.offer_model.specs.Assortments.{offers, IsBefore};

use crate::memory::NoMemory;
use std::alloc::Global;
use std::marker::Model;

/// Which products are offered, in catalogue order.
#[derive(Debug, Drop)]
pub struct Assortment {
    places: Vec<bool>,
}

impl Model for Assortment {
    ghost use Rattle.std.specs.Prelude.{List, Bool};

    ghost Value = { List Bool };

    ghost view = { λ x. x.places.items };
}

impl Assortment {
    /// The assortment of `n` products that offers none.
    pub fn empty(alloc: Global, n: usize) -> Result<Assortment, NoMemory>
        ensures { IfOk result (λ x. x ≡ replicate n false) }
    {
        let places = vec![in alloc; false; n]?;
        Ok(Assortment { places })
    }

    /// The number of products.
    pub fn len(&self) -> usize
        ensures { result ≡ length self.now }
    {
        self.places.len()
    }

    /// Whether product `i` is offered.
    pub fn offers(&self, i: usize) -> bool
        requires { i < length self.now }
        ensures { result ≡ offers self.now i }
    {
        self.places[i]
    }

    /// Offers product `i`, or takes it out.
    pub fn set(&mut self, i: usize, offered: bool)
        requires { i < length self.old }
        ensures { self.new ≡ slice_set self.old i offered }
    {
        self.places[i] = offered;
    }

    /// An equal assortment.
    pub fn copy(&self, alloc: Global) -> Result<Assortment, NoMemory>
        ensures { IfOk result (λ x. x ≡ self.now) }
    {
        let places = Vec::from_slice(alloc, &self.places)?;
        Ok(Assortment { places })
    }

    /// Becomes equal to another assortment.
    pub fn copy_from(&mut self, other: &Assortment)
        requires { length self.old ≡ length other.now }
        ensures { self.new ≡ other.now }
    {
        self.places.copy_from_slice(&other.places);
    }

    /// The rule of ties: at the first product where they differ this one doesn't offer it.
    pub fn before(&self, other: &Assortment) -> bool
        requires { length self.now ≡ length other.now }
        ensures { IsTrue result ↔ IsBefore self.now other.now }
    {
        for i in 0..self.places.len() {
            if self.places[i] != other.places[i] {
                return other.places[i];
            }
        }
        false
    }
}
