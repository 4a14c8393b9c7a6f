//! The rule of a desk's table, and what its steps tell.
use crate::view::View;
use atomic_table::{Join, Play, Split, TableRule};

pub struct DeskRule;

impl TableRule<(), View, u64> for DeskRule {
    ghost use Rattle.shared_best.specs.Views.{first_view};
    ghost use Rattle.shared_best.specs.DeskStates.{IsDesk};

    ghost holds = { IsDesk };

    ghost first = { first_view };
}

pub(crate) struct Take;

impl Play<(), View> for Take {
    ghost use Rattle.shared_best.specs.DeskStates.{Takes};

    ghost then = { Takes };
}

pub(crate) struct Look;

impl Play<(), View> for Look {
    ghost use Rattle.shared_best.specs.DeskStates.{Looks};

    ghost then = { Looks };
}

pub(crate) struct Tell;

impl Play<(), View> for Tell {
    ghost use Rattle.shared_best.specs.DeskStates.{Tells};

    ghost then = { Tells };
}

pub(crate) struct Cut;

impl Split<View> for Cut {
    ghost use Rattle.shared_best.specs.Views.{after_split, split_off};

    ghost left = { after_split };

    ghost right = { split_off };
}

impl Join<View> for Cut {
    ghost use Rattle.shared_best.specs.Views.{joined, spent_view};

    ghost both = { joined };

    ghost spent = { spent_view };
}
