//! Trial inputs, from a seed and a count.
ghost use Rattle.std.specs.Prelude.{◌≡◌, ◌+◌, ◌/◌, ◌≤◌, [], ◌∷◌, IfOk, OnOk};
ghost use Rattle.offer_model.specs.declared.products.Limit.TheVariants.{Total};
ghost use Rattle.trial_inputs.specs.TrialInputs.{state_at, trial_margins, trial_problem};

use crate::draws::draw_numbers;
use crate::products::products_of;
use crate::segments::draw_segments;
use offer_model::{Limit, Limits, ModelName, NoMemory, Numbers, Problem};
use rand_core::SeedableRng;
use rand_xoshiro::SplitMix64;
use std::alloc::Global;

/// What revenues of trial problems are rounded down to, as parts of a margin unit.
const UNIT: u64 = 100;

/// The margins, by the next words.
fn draw_margins(alloc: Global, rng: &mut SplitMix64, count: usize) -> Result<Numbers, NoMemory>
    ensures margins { IfOk result (λ margins. margins.items ≡ trial_margins rng.old count) }
    ensures state { OnOk result (rng.new ≡ state_at rng.old count) }
{
    draw_numbers(alloc, rng, count, 1, 1000)
}

/// The margins of `count` products, each from 1 to 1,000, by the seed's first words. `NoMemory` is the one failure.
pub fn trial_margins(alloc: Global, seed: u64, count: usize) -> Result<Numbers, NoMemory>
    requires { count ≤ 256 }
    ensures { IfOk result (λ margins. margins.items ≡ trial_margins seed count) }
{
    draw_margins(alloc, &mut SplitMix64::seed_from_u64(seed), count)
}

/// A total cap alone.
fn total_alone(alloc: Global, cap: u64) -> Result<Limits, NoMemory>
    ensures { IfOk result (λ limits. limits.items ≡ Total cap ∷ []) }
{
    let mut limits = Limits::new(alloc);
    limits.reserve(1)?;
    limits.push(Limit::Total(cap));
    Ok(limits)
}

/// The problem of `count` products under mixed logit, in units of 100: margins from 1 to 1,000; the lesser of `count + 1` and 4
/// segments, their sizes from 1 to 10, weights of buying nothing from 50 to 149, and attractions from 0 to 99; and at most
/// `count / 3 + 1` products offered. `NoMemory` is the one failure.
pub fn trial_problem(alloc: Global, seed: u64, count: usize) -> Result<Problem, NoMemory>
    requires { count ≤ 256 }
    ensures { IfOk result (λ problem. problem ≡ trial_problem seed count) }
{
    let mut rng = SplitMix64::seed_from_u64(seed);
    let margins = draw_margins(alloc, &mut rng, count)?;
    let products = products_of(alloc, &margins)?;
    let segments = draw_segments(alloc, &mut rng, count)?;
    let limits = total_alone(alloc, count as u64 / 3 + 1)?;
    Ok(Problem::new(ModelName::Mixed, UNIT, products, segments, limits))
}
