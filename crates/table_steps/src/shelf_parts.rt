//! The prices that a table is made for, and when it has to be made again.
ghost use Rattle.std.specs.Prelude.{◌≡◌, ℕ, ◌<◌, ◌≤◌, [], ◌∷◌, false, length};
ghost use Rattle.offer_model.specs.declared.products.Limit.TheVariants.{Shelf};
ghost use Rattle.offer_model.specs.Problems.{product_count};
ghost use Rattle.offer_model.specs.Nodes.{mark_at};
ghost use Rattle.limit_rules.specs.Kinds.{kind_of};
ghost use Rattle.limit_rules.specs.declared.kind.Kind.TheVariants as K;
ghost use Rattle.linear_step.specs.Weights.{AreWeights, weight_at};
ghost use Rattle.shelf_table.specs.Tables.{space_of, price_in, free_price, free_prices, IsSmallPrice, IsTableOf};

use linear_step::Weights;
use offer_model::{Limit, MOST_COUNT, Mark, Node, Problem};
use shelf_table::ShelfTable;

/// The space of the shelf, which is the only limit.
pub fn shelf_of(p: &Problem) -> usize
    requires kind { kind_of p.now.limits ≡ K.Shelf }
    ensures shelf { p.now.limits ≡ Shelf result ∷ [] }
    ensures bound { result ≤ MOST_COUNT }
{
    match *p.limits().get(0) {
        Limit::Shelf(space) => space as usize,
        _ => 0,
    }
}

/// The price of product `i` in a table that is read from product `start` on: its weight, and from `start` on nothing
/// where its mark settles it.
fn price(weights: &Weights, node: &Node, start: usize, i: usize) -> i128
    requires weights { i < length weights.now.items }
    requires node { i < length node.now }
    requires small { IsSmallPrice (weight_at weights.now i) }
    ensures free { start ≤ i → result ≡ free_price (mark_at node.now i) (weight_at weights.now i) }
    ensures small { IsSmallPrice result }
{
    if i < start || node.mark(i) == Mark::Open {
        weights.get(i)
    } else {
        0
    }
}

/// Takes over the prices of a table that is read from product `start` on. Whether one of them has changed.
fn take_prices(weights: &Weights, node: &Node, start: usize, prices: &mut [i128]) -> bool
    requires weights { length weights.now.items ≡ length prices.old }
    requires node { length node.now ≡ length prices.old }
    requires small { (i : ℕ) → i < length prices.old → IsSmallPrice (weight_at weights.now i) }
    ensures each { length prices.new ≡ length prices.old }
    ensures free { (i : ℕ) → start ≤ i → i < length prices.old
        → price_in prices.new i ≡ free_prices node.now (weight_at weights.now) i }
    ensures small { (i : ℕ) → i < length prices.old → IsSmallPrice (price_in prices.new i) }
    ensures kept { result ≡ false → prices.new ≡ prices.old }
{
    let mut changed = false;
    for i in 0..prices.len() {
        let price = price(weights, node, start, i);
        if prices[i] != price {
            prices[i] = price;
            changed = true;
        }
    }
    changed
}

/// Makes the table that serves the node from product `start` on, unless it's made already.
pub fn refresh(
    p: &Problem,
    weights: &Weights,
    node: &Node,
    start: usize,
    prices: &mut [i128],
    table: &mut ShelfTable,
)
    requires weights { AreWeights p.now weights.now }
    requires node { length node.now ≡ product_count p.now }
    requires prices { length prices.old ≡ product_count p.now }
    requires products { table.old.products ≡ product_count p.now }
    requires table { IsTableOf table.old (space_of p.now) (price_in prices.old) }
    ensures each { length prices.new ≡ length prices.old }
    ensures free { (i : ℕ) → start ≤ i → i < product_count p.now
        → price_in prices.new i ≡ free_prices node.now (weight_at weights.now) i }
    ensures products { table.new.products ≡ table.old.products }
    ensures space { table.new.space ≡ table.old.space }
    ensures table { IsTableOf table.new (space_of p.now) (price_in prices.new) }
{
    if take_prices(weights, node, start, prices) {
        table.fill(p, prices);
    }
}
