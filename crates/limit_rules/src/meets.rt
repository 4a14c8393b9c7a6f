//! Whether a limit is met.
ghost use Rattle.std.specs.Prelude.{◌≡◌, ◌↔◌, IsTrue, length};
ghost use Rattle.offer_model.specs.Problems.{product_count};
ghost use Rattle.offer_model.specs.Limits.{Meets};
ghost use Rattle.offer_model.specs.Validity.{NamesExisting};

use crate::choice::Choice;
use crate::ladder::keeps_ladder;
use crate::measure::{Measure, used_in_all};
use offer_model::{Limit, Problem};

/// Whether what is chosen keeps to the limit.
pub fn meets<C: Choice>(p: &Problem, x: &C, limit: Limit) -> bool
    requires length { length (C.chosen x.now) ≡ product_count p.now }
    requires named { NamesExisting p.now limit }
    ensures { IsTrue result ↔ Meets p.now (C.chosen x.now) limit }
{
    match limit {
        Limit::Total(cap) => used_in_all(p, x, Measure::Each) <= cap,
        Limit::Category(category, cap) => {
            used_in_all(p, x, Measure::OfCategory(category)) <= cap
        }
        Limit::Requires(a, b) => !x.has(a) || x.has(b),
        Limit::Shelf(space) => used_in_all(p, x, Measure::Space) <= space,
        Limit::Ladder(ladder) => keeps_ladder(p, x, ladder),
    }
}
