//! The moves of a chain, product by product.
ghost use Rattle.std.specs.Prelude.{◌≡◌, ℕ, ◌*◌, ◌^◌, ◌<◌, ◌≤◌, length, slice_index, slice_index_or, IfOk, OnOk, [], Vec, All};
ghost use Rattle.std.specs.Global.{Global};
ghost use Rattle.chain_moves.specs.declared.rows.Move.{Move};
ghost use Rattle.chain_moves.specs.Rows.{sum_moves, AreRows, IsPut};
ghost use Rattle.chain_moves.specs.Values.{AreSmall};

use offer_model::{Arc, Chain, NoMemory};
use std::alloc::Global;

/// The customers of a product who move on to product `to`.
#[derive(Clone, Copy)]
pub struct Move {
    pub to: usize,
    /// In parts of the chain's scale.
    pub parts: u64,
}

/// The parts of each move times the value where it leads.
pub fn sum_moves(row: &[Move], values: &[u64]) -> u64
    requires ends { All (λ m. m.to < length values.now) row.now }
    requires small { AreSmall values.now }
    requires parts { sum_moves row.now (λ j. 1) < 10000 }
    ensures value { result ≡ sum_moves row.now (slice_index values.now) }
    ensures range { result ≤ 9999 * 10 ^ 15 }
{
    let mut sum = 0;
    for m in row {
        sum += m.parts * values[m.to];
    }
    sum
}

/// The parts of all moves of a row.
pub fn parts_of(row: &[Move]) -> u64
    requires { sum_moves row.now (λ j. 1) < 10000 }
    ensures { result ≡ sum_moves row.now (λ j. 1) }
{
    let mut sum = 0;
    for m in row {
        sum += m.parts;
    }
    sum
}

/// So many rows without moves.
fn empty_rows(alloc: Global, count: usize) -> Result<Vec<Vec<Move>>, NoMemory>
    ensures each { IfOk result (λ rows. length rows.items ≡ count) }
    ensures empty { IfOk result (λ rows. (i : ℕ) (r : Vec Move Global) → i < count → r ≡ slice_index_or rows.items i r → r.items ≡ []) }
{
    let mut rows = Vec::new(alloc);
    for _ in 0..count {
        rows.push(Vec::new(alloc))?;
    }
    Ok(rows)
}

/// Puts an arc's move last in the row of its product, where somebody takes it.
fn put(rows: &mut Vec<Vec<Move>>, arc: Arc) -> Result<(), NoMemory>
    requires { arc.from < length rows.old.items }
    ensures { OnOk result (IsPut rows.old.items arc rows.new.items) }
{
    if arc.parts == 0 {
        return Ok(());
    }
    let row = &mut rows[arc.from];
    row.push(Move {
        to: arc.to,
        parts: arc.parts,
    })?;
    Ok(())
}

/// The moves from each product, without those that nobody takes.
pub fn rows_of(alloc: Global, chain: &Chain) -> Result<Vec<Vec<Move>>, NoMemory>
    ensures { IfOk result (λ rows. AreRows chain.now rows.items) }
{
    let mut rows = empty_rows(alloc, chain.margins().len())?;
    let arcs = chain.arcs().as_slice();
    'each: for arc in arcs {
        put(&mut rows, *arc)?;
    }
    Ok(rows)
}
