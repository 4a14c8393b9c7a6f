//! When two assortments earn as much.
ghost use Rattle.std.specs.Prelude.{◌↔◌, IsTrue};
ghost use Rattle.offer_model.specs.Ranges.{IsInBounds};
ghost use Rattle.ratio_loop.specs.Earnings.{IsSame};

use offer_model::Fraction;

/// Whether two revenues are equal, by cross products.
pub fn is_same(a: Fraction, b: Fraction) -> bool
    requires a { IsInBounds a }
    requires b { IsInBounds b }
    ensures { IsTrue result ↔ IsSame a b }
{
    a.num * b.den == b.num * a.den
}
