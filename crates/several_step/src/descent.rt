//! Multipliers that are kept and improved from call to call, by steps along their slopes (Polyak's subgradient steps).
ghost use Rattle.std.specs.Prelude.{◌≡◌, ◌+◌, ◌≤◌, ◌^◌, length, IfOk};
ghost use Rattle.offer_model.specs.Problems.{product_count};
ghost use Rattle.offer_model.specs.Validity.{IsProblem};
ghost use Rattle.linear_weights.specs.Weights.{AreWeights, prices_of};
ghost use Rattle.multiplier_bound.specs.Fits.{HasLists, AreSmall};
ghost use Rattle.several_step.specs.ChainFits.{IsRelaxedList};

use crate::slopes::{MOST_MULTIPLIER, measure, move_along, square, steepness};
use linear_weights::Weights;
use multiplier_bound::Multipliers;
use offer_model::{Assortment, NoMemory, Problem, Wide};
use std::alloc::Global;
use std::marker::Model;

/// Multipliers of a problem's limits: the best so far, and those that are tried. Any multipliers bound, at whatever weights, so
/// they are kept from call to call.
#[derive(Drop)]
pub struct Descent {
    multipliers: Multipliers,
    best: Vec<u128>,
    tried: Vec<u128>,
    numbers: Wide,
    squares: Vec<u128>,
    slopes: Vec<i128>,
}

impl Model for Descent {
    ghost use Rattle.std.specs.Prelude.{◌≡◌, ◌+◌, ◌≤◌, length};
    ghost use Rattle.multiplier_bound.specs.Fits.{MultipliersData, AreSmall};

    ghost Value = { MultipliersData };

    ghost view = { λ s. s.multipliers };

    ghost invariant = { λ s. (length s.best.items ≡ length s.multipliers.priced) × AreSmall s.best.items
        × (length s.tried.items ≡ length s.multipliers.priced) × AreSmall s.tried.items
        × (length s.multipliers.priced ≤ length s.numbers.items + s.numbers.spare)
        × (length s.squares.items ≡ length s.multipliers.priced) × (length s.slopes.items ≡ length s.multipliers.priced) };
}

/// The same numbers as multipliers.
fn write_numbers(us: &[u128], numbers: &mut Wide)
    requires room { length us.now ≤ length numbers.old.items + numbers.old.spare }
    ensures items { numbers.new.items ≡ us.now }
    ensures room { length numbers.new.items + numbers.new.spare ≡ length numbers.old.items + numbers.old.spare }
{
    numbers.clear();
    for u in us {
        numbers.push(*u);
    }
}

/// For each limit that has a multiplier, the sum of the squares of what products use of it.
fn squares_of(alloc: Global, p: &Problem, multipliers: &Multipliers) -> Result<Vec<u128>, NoMemory>
    requires few { product_count p.now ≤ 256 }
    ensures { IfOk result (λ squares. length squares.items ≡ length multipliers.now.priced) }
{
    let priced = multipliers.priced();
    let mut squares = vec![in alloc; 1u128; priced.len()]?;
    for k in 0..priced.len() {
        squares[k] = square(p, *priced.get(k));
    }
    Ok(squares)
}

impl Descent {
    /// Multipliers of the problem's limits, all 0 as yet. It takes all memory that is needed.
    pub fn new(alloc: Global, p: &Problem) -> Result<Descent, NoMemory>
        requires few { product_count p.now ≤ 256 }
        ensures { IfOk result (λ s. HasLists p.now s) }
    {
        let multipliers = Multipliers::new(alloc, p)?;
        let count = multipliers.priced().len();
        let best = vec![in alloc; 0u128; count]?;
        let tried = vec![in alloc; 0u128; count]?;
        let mut numbers = Wide::new(alloc);
        numbers.reserve(count)?;
        let squares = squares_of(alloc, p, &multipliers)?;
        let slopes = vec![in alloc; 0i128; count]?;
        Ok(Descent {
            multipliers,
            best,
            tried,
            numbers,
            squares,
            slopes,
        })
    }

    /// The list becomes the prices that the best multipliers make of the weights.
    pub fn relax(&mut self, p: &Problem, weights: &Weights, list: &mut Weights)
        requires valid { IsProblem p.now }
        requires lists { HasLists p.now self.old }
        requires weights { AreWeights p.now weights.now }
        requires each { length list.old.items ≡ product_count p.now }
        ensures relaxed { IsRelaxedList p.now (prices_of weights.now) list.new }
        ensures same { self.new ≡ self.old }
    {
        write_numbers(&self.best, &mut self.numbers);
        self.multipliers.relax(p, weights, &self.numbers, list);
    }

    /// The list becomes the prices that the multipliers which are tried make of the weights.
    pub fn relax_tried(&mut self, p: &Problem, weights: &Weights, list: &mut Weights)
        requires valid { IsProblem p.now }
        requires lists { HasLists p.now self.old }
        requires weights { AreWeights p.now weights.now }
        requires each { length list.old.items ≡ product_count p.now }
        ensures relaxed { IsRelaxedList p.now (prices_of weights.now) list.new }
        ensures same { self.new ≡ self.old }
    {
        write_numbers(&self.tried, &mut self.numbers);
        self.multipliers.relax(p, weights, &self.numbers, list);
    }

    /// Those that are tried become the best.
    pub fn keep(&mut self)
        ensures { self.new ≡ self.old }
    {
        self.best.copy_from_slice(&self.tried);
    }

    /// The best are tried again.
    pub fn go_back(&mut self)
        ensures { self.new ≡ self.old }
    {
        self.tried.copy_from_slice(&self.best);
    }

    /// Moves what is tried along the slopes that the assortment shows, so far as the gap at this pace asks. False where all
    /// slopes are 0.
    pub fn follow(&mut self, p: &Problem, x: &Assortment, gap: u128, pace: u128) -> bool
        requires valid { IsProblem p.now }
        requires lists { HasLists p.now self.old }
        requires long { length x.now ≡ product_count p.now }
        ensures { self.new ≡ self.old }
    {
        measure(
            p,
            self.multipliers.priced(),
            x,
            &self.tried,
            &mut self.slopes,
        );
        let steep = steepness(&self.slopes, &self.squares);
        if steep == 0 {
            return false;
        }
        let step = (gap.saturating_mul(pace).saturating_mul(8) / steep).min(MOST_MULTIPLIER);
        move_along(&mut self.tried, &self.slopes, &self.squares, step);
        true
    }
}
