//! The kind of limits that a problem has.
ghost use Rattle.std.specs.Prelude.{◌≡◌};
ghost use Rattle.std.specs.List.{list_all};
ghost use Rattle.limit_rules.specs.Kinds.{is_in_family, kind_of};

use offer_model::{Limit, Limits};

/// Which limits a problem has.
#[derive(Clone, Copy, Debug, PartialEq, Eq)]
pub enum Kind {
    /// None.
    Free,
    /// Caps in all or by category.
    Caps,
    /// Requirements.
    Closure,
    /// One shelf.
    Shelf,
    /// Ladders.
    Ladder,
    /// Others.
    General,
}

/// Limits that a step treats alike.
#[derive(Clone, Copy)]
pub enum Family {
    Caps,
    Requires,
    Shelves,
    Ladders,
}

/// Whether the limit is of the family.
fn is_in_family(family: Family, limit: Limit) -> bool
    ensures { result ≡ is_in_family family limit }
{
    match limit {
        Limit::Total(_) | Limit::Category(_, _) => matches!(family, Family::Caps),
        Limit::Requires(_, _) => matches!(family, Family::Requires),
        Limit::Shelf(_) => matches!(family, Family::Shelves),
        Limit::Ladder(_) => matches!(family, Family::Ladders),
    }
}

/// Whether each limit is of the family.
fn all_in_family(family: Family, limits: &Limits) -> bool
    ensures { result ≡ list_all (is_in_family family) limits.now.items }
{
    for k in 0..limits.len() {
        if !is_in_family(family, *limits.get(k)) {
            return false;
        }
    }
    true
}

/// The kind of the limits, which decides on the step.
pub fn kind_of(limits: &Limits) -> Kind
    ensures { result ≡ kind_of limits.now.items }
{
    if limits.len() == 0 {
        Kind::Free
    } else if all_in_family(Family::Caps, limits) {
        Kind::Caps
    } else if all_in_family(Family::Requires, limits) {
        Kind::Closure
    } else if all_in_family(Family::Shelves, limits) && limits.len() == 1 {
        Kind::Shelf
    } else if all_in_family(Family::Ladders, limits) {
        Kind::Ladder
    } else {
        Kind::General
    }
}
