//! The bests of workers are brought together.
ghost use Rattle.std.specs.Prelude.{◌≡◌, ◌||◌, length};
ghost use Rattle.tree_search.specs.Progress.{IsFeasibleBest};
ghost use Rattle.tree_search.specs.Rooms.{best_of};
ghost use Rattle.worker_rounds.specs.Gathering.{MergesBest};

use offer_model::Assortment;
use tree_search::{Goal, Walker, meet};

/// Puts the walker's best in the best's place, where it is better, and tells whether there is a best now.
pub fn merge_best<T: Goal>(goal: &T, found: bool, best: &mut Assortment, walker: &Walker) -> bool
    requires best { length best.old ≡ (T.rules goal.now).products }
    requires feasible { IsFeasibleBest (T.rules goal.now) walker.now.best }
    ensures merged { MergesBest (T.rules goal.now) walker.now.best (best_of found best.old) (best_of result best.new) }
    ensures long { length best.new ≡ (T.rules goal.now).products }
{
    let Some(x) = walker.best() else {
        return found;
    };
    let changed = meet(goal, found, best, x);
    found || changed
}
