//! What holds of the definitions, as clauses.
ghost use Rattle.std.specs.Prelude.{◌≡◌};
ghost use Rattle.offer_model.specs.WorkedValues.{RevenueIsWorked, OrderIsWorked, LimitsAreWorked, BestIsWorked};
ghost use Rattle.offer_model.specs.WorkedChains.{ChainsAreWorked};

use crate::numerals::MOST_DIGITS;
use crate::ranges::{
    MOST_AMOUNT, MOST_ARCS, MOST_COUNT, MOST_LIMITS, MOST_PRODUCTS, MOST_REQUIRES, MOST_SCALE,
    MOST_SEGMENTS,
};

#[tactic(auto, using(crate::proofs::WorkedValueLemmas::revenue_worked, crate::proofs::WorkedValueLemmas::order_worked, crate::proofs::WorkedValueLemmas::limits_worked, crate::proofs::WorkedValueLemmas::best_worked, crate::proofs::WorkedChainLemmas::chains_worked))]
/// The definitions have the values that were worked by hand.
pub fn worked_values_hold()
    ensures revenue { RevenueIsWorked }
    ensures order { OrderIsWorked }
    ensures limits { LimitsAreWorked }
    ensures best { BestIsWorked }
    ensures chains { ChainsAreWorked }
{}

/// The numbers that the code compares with are those that the definitions state.
pub fn ranges_are_stated()
    ensures products { MOST_PRODUCTS ≡ 256 }
    ensures segments { MOST_SEGMENTS ≡ 32 }
    ensures limits { MOST_LIMITS ≡ 1024 }
    ensures requirements { MOST_REQUIRES ≡ 512 }
    ensures amount { MOST_AMOUNT ≡ 1000000000 }
    ensures count { MOST_COUNT ≡ 1000 }
    ensures scale { MOST_SCALE ≡ 10000 }
    ensures arcs { MOST_ARCS ≡ 65536 }
    ensures digits { MOST_DIGITS ≡ 20 }
{}
