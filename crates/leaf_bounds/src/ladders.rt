//! The products of each ladder, found once for a problem.
ghost use Rattle.std.specs.Prelude.{◌≡◌, ◌<◌, length, IfOk, IfSome};
ghost use Rattle.offer_model.specs.Problems.{product_count};
ghost use Rattle.offer_model.specs.LeafBounds.{ladder_of};
ghost use Rattle.leaf_bounds.specs.LadderLists.{Collects, IsLadderOf, StandsAt, HaveLadders};
ghost use Rattle.leaf_bounds.specs.Kept.{AreLaddersOf};

use offer_model::{NoMemory, Problem};
use std::alloc::Global;
use std::marker::Model;

/// The products of one ladder, in catalogue order.
#[derive(Drop)]
pub struct Ladder {
    products: Vec<usize>,
}

impl Model for Ladder {
    ghost use Rattle.std.specs.Prelude.{ℕ, List};

    ghost Value = { List ℕ };

    ghost view = { λ l. l.products.items };
}

/// The products of each ladder, and for each product the place of its ladder among them. Products without a ladder share one.
#[derive(Drop)]
pub struct Ladders {
    lists: Vec<Ladder>,
    places: Vec<usize>,
}

/// The number of product `i`'s ladder, 0 without one.
fn ladder_of(p: &Problem, i: usize) -> u32
    requires { i < product_count p.now }
    ensures { result ≡ ladder_of p.now i }
{
    p.products().get(i).ladder
}

/// The products of a ladder, in catalogue order.
fn collect(alloc: Global, p: &Problem, ladder: u32) -> Result<Vec<usize>, NoMemory>
    ensures { IfOk result (λ list. Collects p.now ladder (product_count p.now) list.items) }
{
    let mut list = Vec::new(alloc);
    for i in 0..p.products().len() {
        if ladder_of(p, i) == ladder {
            list.push(i)?;
        }
    }
    Ok(list)
}

/// A product before product `i` on the same ladder.
fn earlier(p: &Problem, i: usize) -> Option<usize>
    requires { i < product_count p.now }
    ensures below { IfSome result (λ j. j < i) }
    ensures same { IfSome result (λ j. ladder_of p.now j ≡ ladder_of p.now i) }
{
    for j in 0..i {
        if ladder_of(p, j) == ladder_of(p, i) {
            return Some(j);
        }
    }
    None
}

/// The place of the ladder of product `i`, where the products before it have theirs. A new ladder is listed last.
fn place_of(
    alloc: Global,
    p: &Problem,
    i: usize,
    lists: &mut Vec<Ladder>,
    places: &[usize],
) -> Result<usize, NoMemory>
    requires product { i < product_count p.now }
    requires before { HaveLadders p.now i lists.old.items places.now }
    ensures place { IfOk result (StandsAt p.now lists.new.items i) }
    ensures before { HaveLadders p.now i lists.new.items places.now }
{
    if let Some(j) = earlier(p, i) {
        return Ok(places[j]);
    }
    let products = collect(alloc, p, ladder_of(p, i))?;
    let place = lists.len();
    lists.push(Ladder { products })?;
    Ok(place)
}

impl Ladders {
    /// The ladders of the problem's products.
    pub fn new(alloc: Global, p: &Problem) -> Result<Ladders, NoMemory>
        ensures { IfOk result (λ s. AreLaddersOf p.now s) }
    {
        let mut lists = Vec::new(alloc);
        let mut places = Vec::new(alloc);
        for i in 0..p.products().len() {
            let place = place_of(alloc, p, i, &mut lists, &places)?;
            places.push(place)?;
        }
        Ok(Ladders { lists, places })
    }

    /// The products of the ladder of product `i`.
    pub fn of(&self, p: &Problem, i: usize) -> &[usize]
        requires product { i < product_count p.now }
        requires ladders { AreLaddersOf p.now self.now }
        ensures { IsLadderOf p.now i result.now }
    {
        &self.lists[self.places[i]].products
    }
}
