//! What the header of a certificate claims of its assortment.
ghost use Rattle.std.specs.Prelude.{◌≡◌, ◌↔◌, length, IsTrue};
ghost use Rattle.offer_model.specs.Problems.{product_count};
ghost use Rattle.offer_model.specs.Limits.{IsFeasible};
ghost use Rattle.offer_model.specs.Validity.{IsRatioModel};
ghost use Rattle.proof_lines.specs.Acceptance.{value_numbers};

use limit_rules::first_broken;
use offer_model::{Assortment, Problem, Wide, revenue};

/// Whether the numbers of a value line are true of `x`.
pub(crate) fn says_value(p: &Problem, x: &Assortment, numbers: &Wide) -> bool
    requires model { IsRatioModel p.now.model }
    requires set { length x.now ≡ product_count p.now }
    ensures { IsTrue result ↔ (numbers.now.items ≡ value_numbers p.now x.now) }
{
    if numbers.len() != 3 {
        return false;
    }
    let own = revenue(p, x);
    *numbers.get(0) == 1 && *numbers.get(1) == own.num && *numbers.get(2) == own.den
}

/// Whether it meets all limits.
pub(crate) fn is_feasible(p: &Problem, x: &Assortment) -> bool
    requires { length x.now ≡ product_count p.now }
    ensures { IsTrue result ↔ IsFeasible p.now x.now }
{
    first_broken(p, x).is_none()
}
