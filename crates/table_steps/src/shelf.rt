//! The step and the closer under a shelf.
ghost use Rattle.std.specs.Prelude.{◌≡◌, ℕ, ◌+◌, ◌<◌, ◌≤◌, ◌↔◌, length, IfOk, cond, slice_index, Some};
ghost use Rattle.offer_model.specs.Problems.{ProblemData, product_count};
ghost use Rattle.limit_rules.specs.Kinds.{kind_of};
ghost use Rattle.limit_rules.specs.declared.kind.Kind.TheVariants as K;
ghost use Rattle.linear_step.specs.Weights.{AreWeights, weight_at};
ghost use Rattle.table_steps.specs.ShelfFits.{FitsShelf};
ghost use Rattle.shelf_table.specs.Tables.{space_of, price_in, free_prices};
ghost use Rattle.shelf_table.specs.Rooms.{IsRoomLeft};
ghost use Rattle.table_steps.specs.ShelfReading.{best_sum, IsRead};

use crate::shelf_parts::{refresh, shelf_of};
use limit_rules::fill_out;
use linear_step::{Closer, Closing, Step, Steps, Weights};
use offer_model::{Assortment, NoMemory, Node, Problem};
use shelf_table::{ShelfTable, first_open, room_left, spaces_of};
use std::alloc::Global;
use std::marker::Brand;
use std::sync::ledger::Ledger;

/// The step of problems under a shelf: it offers what is In, and of what is Open the choice that a table over products and
/// the space left is best by. The table is kept as long as the weights stay the same.
#[derive(Drop)]
pub struct ShelfStep {
    alloc: Global,
    shelf: usize,
    spaces: Vec<usize>,
    prices: Vec<i128>,
    table: ShelfTable,
}

impl ShelfStep {
    /// A step that fits the problem, whatever the ledger. It takes all memory but that of its answers.
    pub fn prepare(alloc: Global, p: &Problem) -> Result<ShelfStep, NoMemory>
        requires kind { kind_of p.now.limits ≡ K.Shelf }
        ensures step { IfOk result (λ s. ⟦<ShelfStep as Step<Brand>>⟧.fits s p.now) }
        ensures closer { IfOk result (λ s. ⟦<ShelfStep as Closer>⟧.fits s p.now) }
    {
        let count = p.products().len();
        let shelf = shelf_of(p);
        let spaces = spaces_of(alloc, p)?;
        let prices = vec![in alloc; 0; count]?;
        let mut table = ShelfTable::reserve(alloc, count, shelf)?;
        table.fill(p, &prices);
        Ok(ShelfStep {
            alloc,
            shelf,
            spaces,
            prices,
            table,
        })
    }

    /// Has the table serve the node from the first Open product on.
    fn refresh(&mut self, p: &Problem, weights: &Weights, node: &Node, start: usize)
        requires fits { FitsShelf p.now self.old.shelf self.old.spaces.items self.old.prices.items self.old.table }
        requires weights { AreWeights p.now weights.now }
        requires node { length node.now ≡ product_count p.now }
        ensures same { (self.new.shelf ≡ self.old.shelf) × (self.new.spaces ≡ self.old.spaces) }
        ensures fits { FitsShelf p.now self.new.shelf self.new.spaces.items self.new.prices.items self.new.table }
        ensures free { (i : ℕ) → start ≤ i → i < product_count p.now
            → price_in self.new.prices.items i ≡ free_prices node.now (weight_at weights.now) i }
    {
        refresh(p, weights, node, start, &mut self.prices, &mut self.table);
    }

    /// The best choice that completes the node, where what is In leaves this room.
    fn choose(
        &mut self,
        p: &Problem,
        weights: &Weights,
        node: &Node,
        room: usize,
    ) -> Result<Assortment, NoMemory>
        requires fits { FitsShelf p.now self.old.shelf self.old.spaces.items self.old.prices.items self.old.table }
        requires weights { AreWeights p.now weights.now }
        requires node { length node.now ≡ product_count p.now }
        requires room { IsRoomLeft self.old.spaces.items self.old.shelf node.now (Some room) }
        ensures same { (self.new.shelf ≡ self.old.shelf) × (self.new.spaces ≡ self.old.spaces) }
        ensures fits { FitsShelf p.now self.new.shelf self.new.spaces.items self.new.prices.items self.new.table }
        ensures answer { IfOk result (λ x. (left : ℕ)
            × IsRead (space_of p.now) (product_count p.now) node.now (weight_at weights.now) self.old.shelf
            (best_sum (space_of p.now) (product_count p.now) node.now (weight_at weights.now) room) (product_count p.now) x left) }
    {
        let start = first_open(node);
        self.refresh(p, weights, node, start);
        let mut x = Assortment::empty(self.alloc, node.len())?;
        fill_out(node, &mut x);
        let mut room = room;
        for k in start..node.len() {
            if self.table.best_from(k, room) > self.table.best_from(k + 1, room) {
                x.set(k, true);
                room -= self.spaces[k];
            }
        }
        Ok(x)
    }
}

impl<L: Ledger> Step<L> for ShelfStep {
    ghost fits = { λ s p. FitsShelf p s.shelf s.spaces.items s.prices.items s.table };

    fn best(
        &mut self,
        p: &Problem,
        weights: &Weights,
        node: &Node,
        steps: &mut Steps<L>,
    ) -> Result<Option<Assortment>, NoMemory> {
        steps.tick();
        match room_left(&self.spaces, self.shelf, node) {
            Some(room) => Ok(Some(self.choose(p, weights, node, room)?)),
            None => Ok(None),
        }
    }
}

impl Closer for ShelfStep {
    ghost fits = { λ s p. FitsShelf p s.shelf s.spaces.items s.prices.items s.table };

    fn close(
        &mut self,
        _p: &Problem,
        _weights: &Weights,
        node: &Node,
    ) -> Result<Closing, NoMemory> {
        match room_left(&self.spaces, self.shelf, node) {
            Some(_) => Ok(Closing::Shelf),
            None => Ok(Closing::Clash),
        }
    }
}
