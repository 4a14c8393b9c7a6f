//! What holds of worlds after every list of events, as clauses.
ghost use Rattle.std.specs.Prelude.{ℕ, List};
ghost use Rattle.tree_search.specs.declared.event.Event.{Event};
ghost use Rattle.tree_search.specs.Tasks.{tasks_of};
ghost use Rattle.tree_search.specs.Worlds.{WorldData, start_of, Happens, Runs, IsWorldOf, IsEnded};
ghost use Rattle.tree_search.specs.Covered.{Covered, HasValuesFromZero, HasTop};

use crate::goal::Goal;

/// The start loses no feasible assortment of the goal, and no event does.
pub fn events_keep_covered<T: Goal>(goal: &T)
    ensures start { (workers : ℕ) → Covered (T.rules goal.now) (start_of (tasks_of (T.rules goal.now).products) workers) }
    ensures each { (event : Event) (before after : WorldData)
        → IsWorldOf (T.rules goal.now).products before → Covered (T.rules goal.now) before
        → Happens (T.rules goal.now) event before after → Covered (T.rules goal.now) after }
{
    let _ = goal;
}

/// After every list of events from the start, an ended world has a worker whose best is the top of the goal; where there is no
/// top, no worker has a best.
pub fn ended_has_top<T: Goal>(goal: &T)
    ensures { (workers : ℕ) (events : List Event) (world : WorldData)
        → HasValuesFromZero (T.rules goal.now)
        → Runs (T.rules goal.now) events (start_of (tasks_of (T.rules goal.now).products) workers) world
        → IsEnded world → HasTop (T.rules goal.now) world }
{
    let _ = goal;
}
