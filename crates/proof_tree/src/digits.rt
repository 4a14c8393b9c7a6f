//! Assortments as digits.
ghost use Rattle.std.specs.Prelude.{◌≡◌, length};
ghost use Rattle.proof_lines.specs.Lines.{AreDigits};
ghost use Rattle.proof_lines.specs.Acceptance.{digits_of};

use offer_model::{Assortment, Wide};

/// Offers what the digits say.
pub fn write_set(digits: &Wide, x: &mut Assortment)
    requires digits { AreDigits digits.now.items }
    requires length { length x.old ≡ length digits.now.items }
    ensures { digits_of x.new ≡ digits.now.items }
{
    for i in 0..digits.len() {
        x.set(i, *digits.get(i) == 1);
    }
}
