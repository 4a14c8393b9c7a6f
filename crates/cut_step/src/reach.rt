//! What a search has reached: its tree, and where each product stands.
ghost use Rattle.std.specs.Prelude.{◌≡◌, ℕ, ◌<◌, ◌++◌, ◌∷◌, [], true, length, slice_set, vec_len, vec_capacity, IfOk};
ghost use Rattle.offer_model.specs.Assortments.{offers};
ghost use Rattle.cut_step.specs.Trees.{entry_at};
ghost use Rattle.cut_step.specs.Searches.{spot_at, seen, is_seen, kept_of, forgotten_of};

use offer_model::{Assortment, NoMemory};
use std::alloc::Global;

/// A product that a search has reached: over a row from the entry at place `from`, or as a root, whose `from` is its own
/// place. On its way from the root so much can be carried.
#[derive(Clone, Copy)]
pub struct Entry {
    pub product: usize,
    pub row: usize,
    pub from: usize,
    pub back: bool,
    pub cap: u128,
}

/// What a search knows of a product.
#[derive(Clone, Copy)]
pub enum Spot {
    /// It wasn't reached.
    Free,
    /// It was reached in the first phase, and belongs to the set for good.
    Kept,
    /// It was reached by this search, and stands at this place of the tree.
    At(usize),
}

/// A search tree, and where each product stands. No call takes memory for the tree: it has room for all products.
#[derive(Drop)]
pub struct Reach {
    pub tree: Vec<Entry>,
    pub spots: Vec<Spot>,
}

/// Whether the product was reached.
pub fn is_seen(spot: Spot) -> bool
    ensures { result ≡ is_seen spot }
{
    match spot {
        Spot::Free => false,
        Spot::Kept | Spot::At(_) => true,
    }
}

fn kept(spot: Spot) -> Spot
    ensures { result ≡ kept_of spot }
{
    match spot {
        Spot::Free => Spot::Free,
        Spot::Kept | Spot::At(_) => Spot::Kept,
    }
}

fn forgotten(spot: Spot) -> Spot
    ensures { result ≡ forgotten_of spot }
{
    match spot {
        Spot::Free | Spot::At(_) => Spot::Free,
        Spot::Kept => Spot::Kept,
    }
}

fn keep_all(spots: &mut [Spot])
    ensures kept { (i : ℕ) → seen spots.old i ≡ true → spot_at spots.new i ≡ Spot.Kept }
    ensures was { (i : ℕ) → spot_at spots.new i ≡ Spot.Kept → seen spots.old i ≡ true }
    ensures none { (i p : ℕ) → spot_at spots.new i ≡ Spot.At p → ⊥ }
{
    for spot in spots.iter_mut() {
        *spot = kept(*spot);
    }
}

fn forget_all(spots: &mut [Spot])
    ensures kept { (i : ℕ) → spot_at spots.old i ≡ Spot.Kept → spot_at spots.new i ≡ Spot.Kept }
    ensures was { (i : ℕ) → spot_at spots.new i ≡ Spot.Kept → spot_at spots.old i ≡ Spot.Kept }
    ensures none { (i p : ℕ) → spot_at spots.new i ≡ Spot.At p → ⊥ }
{
    for spot in spots.iter_mut() {
        *spot = forgotten(*spot);
    }
}

impl Reach {
    /// Where product `i` stands.
    pub fn spot(&self, i: usize) -> Spot
        requires { i < length self.now.spots.items }
        ensures { result ≡ spot_at self.now.spots.items i }
    {
        self.spots[i]
    }

    /// The entry at a place.
    pub fn entry(&self, place: usize) -> Entry
        requires { place < length self.now.tree.items }
        ensures { result ≡ entry_at self.now.tree.items place }
    {
        self.tree[place]
    }

    /// Puts an entry at the end.
    pub fn add(&mut self, entry: Entry)
        requires inside { entry.product < length self.old.spots.items }
        requires room { length self.old.tree.items < vec_capacity self.old.tree }
        ensures tree { self.new.tree.items ≡ self.old.tree.items ++ entry ∷ [] }
        ensures spots { self.new.spots.items
            ≡ slice_set self.old.spots.items entry.product (Spot.At (length self.old.tree.items)) }
        ensures room { vec_capacity self.new.tree ≡ vec_capacity self.old.tree }
    {
        self.spots[entry.product] = Spot::At(self.tree.len());
        self.tree.push_reserved(entry);
    }

    /// Empties the tree. What stood in it is kept for good.
    pub fn keep(&mut self)
        ensures tree { self.new.tree.items ≡ [] }
        ensures each { length self.new.spots.items ≡ length self.old.spots.items }
        ensures kept { (i : ℕ) → seen self.old.spots.items i ≡ true → spot_at self.new.spots.items i ≡ Spot.Kept }
        ensures was { (i : ℕ) → spot_at self.new.spots.items i ≡ Spot.Kept → seen self.old.spots.items i ≡ true }
        ensures none { (i p : ℕ) → spot_at self.new.spots.items i ≡ Spot.At p → ⊥ }
        ensures room { vec_capacity self.new.tree ≡ vec_capacity self.old.tree }
    {
        self.tree.clear();
        keep_all(&mut self.spots);
    }

    /// Empties the tree, and forgets what stood in it.
    pub fn forget(&mut self)
        ensures tree { self.new.tree.items ≡ [] }
        ensures each { length self.new.spots.items ≡ length self.old.spots.items }
        ensures kept { (i : ℕ) → spot_at self.old.spots.items i ≡ Spot.Kept → spot_at self.new.spots.items i ≡ Spot.Kept }
        ensures was { (i : ℕ) → spot_at self.new.spots.items i ≡ Spot.Kept → spot_at self.old.spots.items i ≡ Spot.Kept }
        ensures none { (i p : ℕ) → spot_at self.new.spots.items i ≡ Spot.At p → ⊥ }
        ensures room { vec_capacity self.new.tree ≡ vec_capacity self.old.tree }
    {
        self.tree.clear();
        forget_all(&mut self.spots);
    }

    /// Empties the tree, and knows nothing of any product.
    pub fn start(&mut self)
        ensures tree { self.new.tree.items ≡ [] }
        ensures each { length self.new.spots.items ≡ length self.old.spots.items }
        ensures free { (i : ℕ) → spot_at self.new.spots.items i ≡ Spot.Free }
        ensures room { vec_capacity self.new.tree ≡ vec_capacity self.old.tree }
    {
        self.tree.clear();
        self.spots.fill(Spot::Free);
    }

    /// The assortment of what was reached.
    pub fn assortment(&self, alloc: Global) -> Result<Assortment, NoMemory>
        ensures each { IfOk result (λ x. length x ≡ length self.now.spots.items) }
        ensures offered { IfOk result (λ x. (i : ℕ) → offers x i ≡ seen self.now.spots.items i) }
    {
        let mut x = Assortment::empty(alloc, self.spots.len())?;
        for i in 0..self.spots.len() {
            x.set(i, is_seen(self.spots[i]));
        }
        Ok(x)
    }
}
