//! Which limits have a multiplier.
ghost use Rattle.std.specs.Prelude.{◌≡◌};
ghost use Rattle.offer_model.specs.LeafBounds.{is_priced};

use offer_model::Limit;

/// Whether the limit has a multiplier, as all but ladders do.
pub fn is_priced(limit: Limit) -> bool
    ensures { result ≡ is_priced limit }
{
    !matches!(limit, Limit::Ladder(_))
}
