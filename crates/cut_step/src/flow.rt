//! The flow: the amount on each row, and each product's excess.
ghost use Rattle.std.specs.Prelude.{◌≡◌, ℕ, ◌<◌, ◌≤◌, ◌+◌, ◌-◌, ◌^◌, true, cond, length, pos, ◌-ℤ◌, ◌+ℤ◌, slice_index, slice_set};
ghost use Rattle.linear_step.specs.Weights.{weight_at};
ghost use Rattle.cut_step.specs.Closures.{price_at};
ghost use Rattle.cut_step.specs.Flows.{Carried, AreWithin};

use crate::rows::Row;
use linear_step::Weights;

/// A flow in the network of the rows: an amount for each row, and each product's excess, which is what is left of its price
/// after the amounts were carried. An excess below 0 is a deficit. The amounts are the rows' multipliers.
#[derive(Drop)]
pub struct Flow {
    pub amounts: Vec<u128>,
    pub excess: Vec<i128>,
}

/// Takes d from the excess of product `i`.
fn lower(excess: &mut [i128], i: usize, d: u128)
    requires inside { i < length excess.old }
    requires within { AreWithin excess.old (2 ^ 120) }
    requires small { d ≤ 2 ^ 110 }
    ensures { excess.new ≡ slice_set excess.old i (price_at excess.old i -ℤ pos d) }
{
    excess[i] -= d as i128;
}

/// Adds d to the excess of product `i`.
fn raise(excess: &mut [i128], i: usize, d: u128)
    requires inside { i < length excess.old }
    requires within { AreWithin excess.old (2 ^ 120 + 2 ^ 110) }
    requires small { d ≤ 2 ^ 110 }
    ensures { excess.new ≡ slice_set excess.old i (price_at excess.old i +ℤ pos d) }
{
    excess[i] += d as i128;
}

/// Carries d from one product to another.
fn carry(excess: &mut [i128], from: usize, to: usize, d: u128)
    requires from { from < length excess.old }
    requires to { to < length excess.old }
    requires within { AreWithin excess.old (2 ^ 120) }
    requires small { d ≤ 2 ^ 110 }
    ensures { Carried excess.old excess.new from to d }
{
    lower(excess, from, d);
    raise(excess, to, d);
}

impl Flow {
    /// The amount of row `k`.
    pub fn amount(&self, k: usize) -> u128
        requires { k < length self.now.amounts.items }
        ensures { result ≡ slice_index self.now.amounts.items k }
    {
        self.amounts[k]
    }

    /// The excess of product `i`.
    pub fn excess(&self, i: usize) -> i128
        requires { i < length self.now.excess.items }
        ensures { result ≡ price_at self.now.excess.items i }
    {
        self.excess[i]
    }

    /// Carries d on over row `k`, or takes it back.
    pub fn carry_over(&mut self, row: Row, k: usize, back: bool, d: u128)
        requires inside { k < length self.old.amounts.items }
        requires first { row.first < length self.old.excess.items }
        requires second { row.second < length self.old.excess.items }
        requires within { AreWithin self.old.excess.items (2 ^ 120) }
        requires small { d ≤ 2 ^ 110 }
        requires room { slice_index self.old.amounts.items k ≤ 2 ^ 110 }
        requires enough { back ≡ true → d ≤ slice_index self.old.amounts.items k }
        ensures amount { let f = slice_index self.old.amounts.items k in
            self.new.amounts.items ≡ slice_set self.old.amounts.items k (cond back (f - d) (f + d)) }
        ensures carried { Carried self.old.excess.items self.new.excess.items
            (cond back row.second row.first) (cond back row.first row.second) d }
    {
        if back {
            self.amounts[k] -= d;
            carry(&mut self.excess, row.second, row.first, d);
        } else {
            self.amounts[k] += d;
            carry(&mut self.excess, row.first, row.second, d);
        }
    }

    /// No amounts, and the prices whole.
    pub fn start(&mut self, weights: &Weights)
        requires { length weights.now.items ≡ length self.old.excess.items }
        ensures amounts { (k : ℕ) → slice_index self.new.amounts.items k ≡ 0 }
        ensures rows { length self.new.amounts.items ≡ length self.old.amounts.items }
        ensures excess { self.new.excess.items ≡ weights.now.items }
    {
        self.amounts.fill(0);
        set_excess(&mut self.excess, weights);
    }
}

fn set_excess(excess: &mut [i128], weights: &Weights)
    requires { length weights.now.items ≡ length excess.old }
    ensures { excess.new ≡ weights.now.items }
{
    for i in 0..excess.len() {
        excess[i] = weights.get(i);
    }
}
