//! Sweeps and jumps until nothing falls.
ghost use Rattle.std.specs.Prelude.{◌≡◌, ◌≤◌, length, IfOk};
ghost use Rattle.offer_model.specs.Chains.{place_count};
ghost use Rattle.chain_values.specs.Sweeps.{IsReady, FallsBy, IsGreatestBy};

use crate::jump::jump;
use crate::rule::Rule;
use crate::sweep::sweep;
use crate::vectors::copied;
use chain_moves::Move;
use offer_model::{Chain, NoMemory};
use std::alloc::Global;

/// The most jumps at the start, chosen by trial: where all values fall evenly, few sweeps are left after these.
const FIRST_JUMPS: u64 = 32;

/// A jump at the start that spares fewer steps is the last one there: it goes through all moves four times, and is to
/// spare twice that.
const FEW_STEPS: u64 = 8;

/// How many sweeps come before the next two jumps: twice as many after jumps that spared no more than these sweeps, half
/// as many after others, and always 2 to 256.
fn pause(before: u64, steps: u64) -> u64
    ensures { 2 ≤ result }
{
    let wait = if steps > before {
        before / 2
    } else {
        before.saturating_mul(2)
    };
    wait.max(2).min(256)
}

/// Sweeps and jumps until nothing falls. Jumps come first, while all values fall evenly. `guess` and `ahead` are scratch.
fn settle(
    chain: &Chain,
    rows: &[Vec<Move>],
    rule: &Rule,
    values: &mut [u64],
    guess: &mut [u64],
    ahead: &mut [u64],
)
    requires ready { IsReady chain.now rows.now rule.now }
    requires falls { FallsBy chain.now rule.now values.old }
    requires guess { length guess.old ≡ place_count chain.now }
    requires ahead { length ahead.old ≡ place_count chain.now }
    ensures { IsGreatestBy chain.now rule.now values.new }
{
    'first: for _ in 0..FIRST_JUMPS {
        if jump(chain, rows, rule, values, guess, ahead) < FEW_STEPS {
            break;
        }
    }
    let mut wait = 2;
    'sweeps: loop {
        for _ in 0..wait {
            if sweep(chain, rows, rule, values) == 0 {
                return;
            }
        }
        let first = jump(chain, rows, rule, values, guess, ahead);
        let second = jump(chain, rows, rule, values, guess, ahead);
        wait = pause(wait, first.max(second));
    }
}

/// The vector that sweeps come to from `start`.
pub fn settled(
    alloc: Global,
    chain: &Chain,
    rows: &[Vec<Move>],
    rule: &Rule,
    start: Vec<u64>,
) -> Result<Vec<u64>, NoMemory>
    requires ready { IsReady chain.now rows.now rule.now }
    requires falls { FallsBy chain.now rule.now start.items }
    ensures { IfOk result (λ v. IsGreatestBy chain.now rule.now v.items) }
{
    let mut guess = copied(alloc, &start)?;
    let mut ahead = copied(alloc, &start)?;
    let mut values = start;
    settle(chain, rows, rule, &mut values, &mut guess, &mut ahead);
    Ok(values)
}
