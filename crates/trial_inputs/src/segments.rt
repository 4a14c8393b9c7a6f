//! Segments drawn from the words of a generator.
ghost use Rattle.std.specs.Prelude.{◌≡◌, ℕ, ◌+◌, ◌*◌, ◌≤◌, map, replicate, IfOk, OnOk};
ghost use Rattle.std.specs.List.{range_with_len};
ghost use Rattle.trial_inputs.specs.TrialInputs.{state_at, segment_from, segment_count};

use crate::draws::{draw, draw_numbers};
use offer_model::{NoMemory, Numbers, Segment, Segments};
use rand_xoshiro::SplitMix64;
use std::alloc::Global;

/// The shadows of products that have none.
fn no_shadows(alloc: Global, count: usize) -> Result<Numbers, NoMemory>
    ensures { IfOk result (λ shadows. shadows.items ≡ replicate count 0) }
{
    let mut shadows = Numbers::new(alloc);
    shadows.reserve(count)?;
    for _k in 0..count {
        shadows.push(0);
    }
    Ok(shadows)
}

/// The next segment.
fn draw_segment(alloc: Global, rng: &mut SplitMix64, count: usize) -> Result<Segment, NoMemory>
    ensures segment { IfOk result (λ segment. segment ≡ segment_from rng.old count 0) }
    ensures state { OnOk result (rng.new ≡ state_at rng.old (count + 1)) }
{
    let head = draw(rng);
    let attract = draw_numbers(alloc, rng, count, 0, 100)?;
    let shadow = no_shadows(alloc, count)?;
    Ok(Segment::new(1 + head % 10, 50 + head / 10 % 100, attract, shadow))
}

/// The segments, one after the other.
pub fn draw_segments(
    alloc: Global,
    rng: &mut SplitMix64,
    count: usize,
) -> Result<Segments, NoMemory>
    requires { count ≤ 256 }
    ensures { IfOk result (λ segments. segments.items
        ≡ map (λ g. segment_from rng.old count (g * (count + 1))) (range_with_len 0 (segment_count count))) }
{
    let groups = (count + 1).min(4);
    let mut segments = Segments::new(alloc);
    segments.reserve(groups)?;
    for g in 0..groups {
        segments.push(draw_segment(alloc, rng, count)?);
    }
    Ok(segments)
}
