//! A search by several workers.
ghost use Rattle.std.specs.Prelude.{◌≡◌, ◌+◌, ◌^◌, ◌<◌, ◌≤◌, true, [], None, IfOk, vec_len, length};
ghost use Rattle.shared_best.specs.Views.{first_view, is_done};
ghost use Rattle.shared_best.specs.Places.{BelongsTo};
ghost use Rattle.tree_search.specs.AnswerRanges.{AnswersInRange};
ghost use Rattle.tree_search.specs.Goals.{IsFeasibleFor, IsTop};
ghost use Rattle.tree_search.specs.Tasks.{tasks_of};
ghost use Rattle.tree_search.specs.Rooms.{best_of};
ghost use Rattle.tree_search.specs.Progress.{IsFeasibleBest};
ghost use Rattle.worker_rounds.specs.Rounds.{IsBacked};
ghost use Rattle.worker_rounds.specs.Crews.{Each, IsCrew, IsMember, IsWorkerAtRest, shares, HasNoClaims};
ghost use Rattle.worker_rounds.specs.Gathering.{SettlesClaims};

use crate::crew::{Worker, is_over};
use crate::gives::run_round;
use crate::merge::merge_best;
use crate::round::tell_best;
use offer_io::Gate;
use offer_model::{Assortment, NoMemory};
use shared_best::{Desk, Place};
use std::alloc::Global;
use std::thread::Threads;
use tree_search::{Goal, Walker, greedy, tasks_of};

/// The feasible assortment of greatest value, and of equals the one that is before the others, found by several workers;
/// `None` exactly where no assortment is feasible. The workers work in rounds; between rounds, those with several nodes give to
/// those without.
pub fn search_together<R: Threads + Sync, T: Goal + Drop + Send, G: Gate + Sync>(
    rt: &R,
    alloc: Global,
    goal: &mut T,
    workers: u64,
    gate: &G,
) -> Result<Option<Assortment>, NoMemory>
    requires workers { (1 ≤ workers) × (workers ≤ 64) }
    requires answers { AnswersInRange (T.rules goal.old) }
    ensures top { IfOk result (λ best. IsTop (T.rules goal.old) best) }
    ensures same { goal.new ≡ goal.old }
{
    match greedy(alloc, goal)? {
        Some(first) => search_from(rt, alloc, goal, workers, gate, first),
        None => Ok(None),
    }
}

/// The same, where an assortment is at hand: each worker's best is at first that one.
fn search_from<R: Threads + Sync, T: Goal + Drop + Send, G: Gate + Sync>(
    rt: &R,
    alloc: Global,
    goal: &mut T,
    workers: u64,
    gate: &G,
    mut best: Assortment,
) -> Result<Option<Assortment>, NoMemory>
    requires workers { (1 ≤ workers) × (workers ≤ 64) }
    requires answers { AnswersInRange (T.rules goal.old) }
    requires feasible { IsFeasibleFor (T.rules goal.old) best }
    ensures top { IfOk result (λ best. IsTop (T.rules goal.old) best) }
    ensures same { goal.new ≡ goal.old }
{
    let (desk, mut place) = Desk::open(alloc, tasks_of(goal.products()))?;
    let mut crew = make_crew(alloc, &desk, &mut place, goal, workers, &best)?;
    while !is_over(crew.as_slice()) {
        run_round(rt, &desk, gate, crew.as_mut_slice());
    }
    let found = gather(&desk, &mut place, goal, crew, &mut best);
    desk.close(place);
    if !found {
        return Ok(None);
    }
    Ok(Some(best))
}

/// So many workers, each with a fork of the goal, a place that is split off, and `first` as its best, whose value it tells.
/// All memory for the rounds is taken here.
fn make_crew<T: Goal + Drop>(
    alloc: Global,
    desk: &Desk,
    place: &mut Place,
    goal: &T,
    workers: u64,
    first: &Assortment,
) -> Result<Vec<Worker<T>>, NoMemory>
    requires workers { (1 ≤ workers) × (workers ≤ 64) }
    requires desk { BelongsTo place.old desk.now }
    requires place { place.old.view ≡ first_view desk.now.tasks }
    requires answers { AnswersInRange (T.rules goal.now) }
    requires first { IsFeasibleFor (T.rules goal.now) first.now }

    // The crew, and the shares that the place gave away.
    ensures crew { IfOk result (λ v. Each (IsMember T.rules goal.now desk.now) v.items × Each HasNoClaims v.items × (vec_len v ≡ workers)) }
    ensures shares { IfOk result (λ v. place.new.view.share + shares v.items ≡ 2 ^ 32) }
    ensures place { BelongsTo place.new desk.now × (place.new.view.claims ≡ []) × (place.new.view.told ≡ 0) }
{
    let mut crew = Vec::with_capacity(alloc, workers as usize)?;
    for number in 0..workers {
        let goal = goal.fork(alloc)?;
        let walker = Walker::reserve_with(alloc, first.copy(alloc)?)?;
        let mut place = desk.split(place);
        tell_best(desk, &mut place, &walker, &goal);
        crew.push_reserved(Worker {
            number,
            place,
            walker,
            goal,
        });
    }
    Ok(crew)
}

/// Joins all places, and tells whether there is a best, which it puts into `best`.
fn gather<T: Goal + Drop>(
    desk: &Desk,
    place: &mut Place,
    goal: &T,
    mut crew: Vec<Worker<T>>,
    best: &mut Assortment,
) -> bool
    requires desk { BelongsTo place.old desk.now }
    requires some { 1 ≤ vec_len crew }
    requires best { length best.old ≡ (T.rules goal.now).products }
    requires crew { IsCrew T.rules goal.now desk.now crew.items }
    requires at_rest { Each IsWorkerAtRest crew.items }
    requires place { (place.old.view.claims ≡ []) × (place.old.view.told ≡ 0) }

    // The place has all claims and shares, and the best does for them.
    ensures place { BelongsTo place.new desk.now × (is_done place.new.view ≡ true) × (place.new.view.share ≡ place.old.view.share + shares crew.items) }
    ensures feasible { IsFeasibleBest (T.rules goal.now) (best_of result best.new) }
    ensures told { IsBacked (T.rules goal.now) place.new.view.told (best_of result best.new) }
    ensures done { SettlesClaims (T.rules goal.now) place.new.view (best_of result best.new) }
{
    let mut found = false;
    while let Some(worker) = crew.pop() {
        let Worker {
            number: _,
            place: theirs,
            walker,
            goal: _,
        } = worker;
        desk.join(place, theirs);
        found = merge_best(goal, found, best, &walker);
    }
    found
}
