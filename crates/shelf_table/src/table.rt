//! The table of greatest sums, filled from the last product to the first.
ghost use Rattle.std.specs.Prelude.{◌≡◌, ℕ, ◌+◌, ◌-◌, ◌*◌, ◌<◌, ◌≤◌, nat_le, length, IfOk, ◌+ℤ◌};
ghost use Rattle.offer_model.specs.Problems.{product_count};
ghost use Rattle.shelf_table.specs.Tables.{space_of, price_in, better_of, best_from, IsSmallPrice, IsSum, cell_at, IsTableOf};

use offer_model::{MOST_COUNT, MOST_PRODUCTS, NoMemory, Problem};
use std::alloc::Global;
use std::marker::Model;

/// For each product and each room, which is space left on the shelf: the greatest sum of prices of products from that one
/// on that fit into the room together. It is made once for given prices, and serves every node.
#[derive(Drop)]
pub struct ShelfTable {
    products: usize,
    space: usize,
    cells: Vec<i128>,
}

impl Model for ShelfTable {
    ghost use Rattle.std.specs.Prelude.{◌≡◌, ◌+◌, ◌*◌, ◌≤◌, vec_len};
    ghost use Rattle.shelf_table.specs.Tables.{TableData};
    ghost use Rattle.offer_model.specs.declared.ranges.TheConstants.{MOST_COUNT, MOST_PRODUCTS};

    ghost Value = { TableData };

    ghost view = { λ t. record { products = t.products; space = t.space; cells = t.cells.items } };

    ghost invariant = { λ t. (vec_len t.cells ≡ (t.products + 1) * (t.space + 1)) × (t.products ≤ MOST_PRODUCTS) × (t.space ≤ MOST_COUNT) };
}

/// The best with this room, by the row that begins at `next`: without a product of this space and price, or with it.
fn better(cells: &[i128], next: usize, room: usize, space: usize, price: i128) -> i128
    requires inside { next + room < length cells.now }
    requires price { IsSmallPrice price }
    requires sums { (s : ℕ) → s ≤ room → IsSum (price_in cells.now (next + s)) }
    ensures { result ≡ better_of (nat_le space room) (price_in cells.now (next + room)) (price +ℤ price_in cells.now (next + (room - space))) }
{
    let without = cells[next + room];
    if space > room {
        return without;
    }
    let with = price + cells[next + (room - space)];
    if with < without { without } else { with }
}

/// Fills the row that begins at `start` by the one behind it.
fn fill_row(cells: &mut [i128], start: usize, width: usize, space: usize, price: i128)
    requires inside { start + width + width ≤ length cells.old }
    requires price { IsSmallPrice price }
    requires sums { (s : ℕ) → s < width → IsSum (price_in cells.old (start + width + s)) }
    ensures each { length cells.new ≡ length cells.old }
    ensures row { (s : ℕ) → s < width → price_in cells.new (start + s)
        ≡ better_of (nat_le space s) (price_in cells.old (start + width + s)) (price +ℤ price_in cells.old (start + width + (s - space))) }
    ensures rest { (j : ℕ) → start + width ≤ j → price_in cells.new j ≡ price_in cells.old j }
{
    let next = start + width;
    for room in 0..width {
        cells[start + room] = better(cells, next, room, space, price);
    }
}

/// The space that product `i` takes.
fn space_of(p: &Problem, i: usize) -> usize
    requires { i < product_count p.now }
    ensures { result ≡ space_of p.now i }
{
    p.products().get(i).space as usize
}

/// Fills all rows, from the last.
fn fill_rows(p: &Problem, prices: &[i128], width: usize, cells: &mut [i128])
    requires products { length prices.now ≡ product_count p.now }
    requires few { length prices.now ≤ MOST_PRODUCTS }
    requires width { (1 ≤ width) × (width ≤ MOST_COUNT + 1) }
    requires each { length cells.old ≡ (length prices.now + 1) * width }
    requires small { (i : ℕ) → i < length prices.now → IsSmallPrice (price_in prices.now i) }
    ensures each { length cells.new ≡ length cells.old }
    ensures rows { (k room : ℕ) → k ≤ length prices.now → room < width
        → price_in cells.new (k * width + room) ≡ best_from (space_of p.now) (price_in prices.now) (length prices.now) k room }
{
    let last = prices.len() * width;
    cells[last..].fill(0);
    for k in (0..prices.len()).rev() {
        fill_row(cells, k * width, width, space_of(p, k), prices[k]);
    }
}

impl ShelfTable {
    /// Room for the table of so many products and so much space.
    pub fn reserve(alloc: Global, products: usize, space: usize) -> Result<ShelfTable, NoMemory>
        requires products { products ≤ MOST_PRODUCTS }
        requires space { space ≤ MOST_COUNT }
        ensures products { IfOk result (λ t. t.products ≡ products) }
        ensures space { IfOk result (λ t. t.space ≡ space) }
    {
        let cells = vec![in alloc; 0; (products + 1) * (space + 1)]?;
        Ok(ShelfTable {
            products,
            space,
            cells,
        })
    }

    /// Makes the table of the problem's products at these prices.
    pub fn fill(&mut self, p: &Problem, prices: &[i128])
        requires products { product_count p.now ≡ self.old.products }
        requires each { length prices.now ≡ self.old.products }
        requires small { (i : ℕ) → i < self.old.products → IsSmallPrice (price_in prices.now i) }
        ensures products { self.new.products ≡ self.old.products }
        ensures space { self.new.space ≡ self.old.space }
        ensures table { IsTableOf self.new (space_of p.now) (price_in prices.now) }
    {
        fill_rows(p, prices, self.space + 1, &mut self.cells);
    }

    /// The cell of product `k` with this room: the greatest sum of prices of products from `k` on that fit into it.
    pub fn best_from(&self, k: usize, room: usize) -> i128
        requires product { k ≤ self.now.products }
        requires room { room ≤ self.now.space }
        ensures { result ≡ cell_at self.now k room }
    {
        self.cells[k * (self.space + 1) + room]
    }
}
