//! How fast multipliers move: a step is a part of the gap between a bound and what it aims at, and the part falls where the bound
//! no longer does.

/// The pace at first, in 128ths of the gap.
const START: u128 = 128;

/// After so many steps without a fall of the bound the pace falls.
const PATIENCE: u32 = 10;

/// The greatest gap that a step is a part of, 2^112: with the pace it fits.
const MOST_GAP: i128 = 5_192_296_858_534_827_628_530_496_329_220_096;

/// A fall of the bound by less than this part of the gap counts as none.
const PART: i128 = 200;

/// The least bound so far, the pace, and how many steps it hasn't fallen.
#[derive(Clone, Copy)]
pub struct Pace {
    least: i128,
    pace: u128,
    stalled: u32,
}

impl Pace {
    pub fn start() -> Pace {
        Pace {
            least: i128::MAX,
            pace: START,
            stalled: 0,
        }
    }

    pub fn pace(&self) -> u128 {
        self.pace
    }

    /// Takes note of a bound, and tells whether it is the least so far.
    pub fn see(&mut self, bound: i128, target: Option<i128>) -> bool {
        if bound >= self.least {
            self.stalled = self.stalled.saturating_add(1);
            return false;
        }
        let aim = target.unwrap_or(bound);
        if self.least.saturating_sub(bound) > self.least.saturating_sub(aim) / PART {
            self.stalled = 0;
        }
        self.least = bound;
        true
    }

    /// Whether no completion is worth more than what is aimed at.
    pub fn is_reached(&self, target: Option<i128>) -> bool {
        match target {
            Some(aim) => self.least <= aim,
            None => false,
        }
    }

    /// Whether the bound hasn't fallen for long.
    pub fn is_stalled(&self) -> bool {
        self.stalled >= PATIENCE
    }

    /// Goes on at two thirds of the pace. False where nothing is left of it.
    pub fn slow(&mut self) -> bool {
        self.stalled = 0;
        self.pace = self.pace.saturating_mul(2) / 3;
        self.pace > 0
    }

    /// Goes on at half the pace. False where nothing is left of it.
    pub fn halve(&mut self) -> bool {
        self.pace /= 2;
        self.pace > 0
    }

    /// The gap from the bound to what is aimed at; without an aim a part of what the bound is above `none`.
    pub fn gap(bound: i128, target: Option<i128>, none: i128) -> u128 {
        let gap = match target {
            Some(aim) => bound.saturating_sub(aim),
            None => bound.saturating_sub(none) / 16,
        };
        gap.max(0).min(MOST_GAP).unsigned_abs()
    }
}
