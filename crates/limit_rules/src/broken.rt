//! The first limit that an assortment breaks.
ghost use Rattle.std.specs.Prelude.{◌≡◌, length};
ghost use Rattle.offer_model.specs.Problems.{product_count};
ghost use Rattle.limit_rules.specs.Broken.{IsFirstBroken};

use crate::meets::meets;
use offer_model::{Assortment, Problem};

/// The first limit, in file order, that the assortment breaks.
pub fn first_broken(p: &Problem, x: &Assortment) -> Option<usize>
    requires { length x.now ≡ product_count p.now }
    ensures { IsFirstBroken p.now x.now result }
{
    for k in 0..p.limits().len() {
        if !meets(p, x, *p.limits().get(k)) {
            return Some(k);
        }
    }
    None
}
