//! Numbers drawn from the words of a generator.
ghost use Rattle.std.specs.Prelude.{◌≡◌, ℕ, ◌+◌, ◌%◌, ◌≤◌, ◌^◌, map, IfOk, OnOk};
ghost use Rattle.std.specs.List.{range_with_len};
ghost use Rattle.trial_inputs.specs.TrialInputs.{state_at, word_at};

use offer_model::{NoMemory, Numbers};
use rand_core::utils::NextWord;
use rand_xoshiro::SplitMix64;
use std::alloc::Global;

/// The next word.
pub fn draw(rng: &mut SplitMix64) -> u64
    ensures word { result ≡ word_at rng.old 0 }
    ensures state { rng.new ≡ state_at rng.old 1 }
{
    rng.next_word()
}

/// So many numbers from `least` on, below `least + span`, one of each word.
pub fn draw_numbers(
    alloc: Global,
    rng: &mut SplitMix64,
    count: usize,
    least: u64,
    span: u64,
) -> Result<Numbers, NoMemory>
    requires some { 1 ≤ span }
    requires fits { least + span ≤ 2 ^ 64 }
    ensures numbers { IfOk result (λ numbers. numbers.items
        ≡ map (λ i. least + word_at rng.old i % span) (range_with_len 0 count)) }
    ensures state { OnOk result (rng.new ≡ state_at rng.old count) }
{
    let mut numbers = Numbers::new(alloc);
    numbers.reserve(count)?;
    for i in 0..count {
        numbers.push(least + draw(rng) % span);
    }
    Ok(numbers)
}
