//! Lists of weights, which are read and written product by product.
ghost use Rattle.std.specs.Prelude.{◌≡◌, ◌<◌, ◌≤◌, [], ◌∷◌, ◌++◌, length, slice_set, IfOk};
ghost use Rattle.linear_weights.specs.Weights.{weight_at};

use offer_model::NoMemory;
use std::alloc::Global;
use std::marker::Model;

/// A weight for each product, in catalogue order, and a constant. Contracts also see for how many products there is room.
#[derive(Drop)]
pub struct Weights {
    items: Vec<i128>,
    constant: i128,
}

impl Model for Weights {
    ghost use Rattle.std.specs.Prelude.{vec_capacity};
    ghost use Rattle.linear_weights.specs.Weights.{WeightsData};

    ghost Value = { WeightsData };

    ghost view = { λ w. record { items = w.items.items; constant = w.constant; room = vec_capacity w.items } };
}

impl Weights {
    /// No weights yet, and room for those of `n` products.
    pub fn reserve(alloc: Global, n: usize) -> Result<Weights, NoMemory>
        ensures { IfOk result (λ w. n ≤ w.room) }
    {
        let mut items = Vec::new(alloc);
        items.reserve(n)?;
        Ok(Weights { items, constant: 0 })
    }

    /// A weight for each of `n` products, to be written before any is read: they and the constant are 0 as yet.
    pub fn new(alloc: Global, n: usize) -> Result<Weights, NoMemory>
        ensures { IfOk result (λ w. length w.items ≡ n) }
    {
        let items = vec![in alloc; 0i128; n]?;
        Ok(Weights { items, constant: 0 })
    }

    /// The number of products.
    pub fn len(&self) -> usize
        ensures { result ≡ length self.now.items }
    {
        self.items.len()
    }

    /// The weight of product `i`.
    pub fn get(&self, i: usize) -> i128
        requires { i < length self.now.items }
        ensures { result ≡ weight_at self.now i }
    {
        self.items[i]
    }

    /// What each assortment weighs beside its products.
    pub fn constant(&self) -> i128
        ensures { result ≡ self.now.constant }
    {
        self.constant
    }

    /// Gives product `i` another weight.
    pub fn set(&mut self, i: usize, weight: i128)
        requires { i < length self.old.items }
        ensures { self.new ≡ record self.old { items = slice_set self.old.items i weight } }
    {
        self.items[i] = weight;
    }

    /// Makes another number the constant.
    pub fn set_constant(&mut self, constant: i128)
        ensures { self.new ≡ record self.old { constant = constant } }
    {
        self.constant = constant;
    }

    /// Takes all weights out, and makes another number the constant. The room stays.
    pub fn restart(&mut self, constant: i128)
        ensures { self.new ≡ record { items = []; constant = constant; room = self.old.room } }
    {
        self.items.clear();
        self.constant = constant;
    }

    /// Puts the next product's weight last.
    pub fn push(&mut self, weight: i128)
        requires { length self.old.items < self.old.room }
        ensures { self.new ≡ record self.old { items = self.old.items ++ weight ∷ [] } }
    {
        self.items.push_reserved(weight);
    }

    /// Becomes equal to other weights. The room stays.
    pub fn copy_from(&mut self, other: &Weights)
        requires { length self.old.items ≡ length other.now.items }
        ensures { self.new ≡ record other.now { room = self.old.room } }
    {
        self.constant = other.constant;
        self.items.copy_from_slice(&other.items);
    }
}
