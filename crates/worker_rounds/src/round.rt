//! One worker's round.
ghost use Rattle.std.specs.Prelude.{◌≡◌, ◌≢◌, [], pos};
ghost use Rattle.tree_search.specs.AnswerRanges.{AnswersInRange};
ghost use Rattle.tree_search.specs.Tasks.{tasks_of};
ghost use Rattle.tree_search.specs.Turns.{Turn, IsSound};
ghost use Rattle.tree_search.specs.Progress.{IsFeasibleBest};
ghost use Rattle.shared_best.specs.Places.{BelongsTo};
ghost use Rattle.worker_rounds.specs.Rounds.{IsBacked, ClaimsIfIdle, TakesNode, Round};

use offer_io::Gate;
use shared_best::{Desk, Place};
use tree_search::{Goal, Walker};

/// How many nodes a worker takes in a round: often enough that idle workers are given nodes soon, and seldom enough that
/// handing workers over costs little beside the work.
const NODES_A_ROUND: u64 = 1024;

/// Claims a task and starts it, if the stack is empty and the place isn't done.
fn claim_task<T: Goal, G: Gate>(
    desk: &Desk,
    place: &mut Place,
    walker: &mut Walker,
    goal: &T,
    worker: u64,
    gate: &G,
)
    requires desk { BelongsTo place.old desk.now }
    requires tasks { desk.now.tasks ≡ tasks_of (T.rules goal.now).products }
    requires products { walker.old.products ≡ (T.rules goal.now).products }
    ensures desk { BelongsTo place.new desk.now }
    ensures claimed { ClaimsIfIdle (T.rules goal.now) place.old.view place.new.view walker.old walker.new }
{
    if !walker.idle() || place.done() {
        return;
    }
    let task = desk.take(place);
    if place.done() {
        return;
    }
    gate.pass(worker, task);
    walker.start(goal, task);
}

/// Takes one node, and tells the value of the best if that changed.
fn take_node<T: Goal>(desk: &Desk, place: &mut Place, walker: &mut Walker, goal: &mut T)
    requires desk { BelongsTo place.old desk.now }
    requires products { walker.old.products ≡ (T.rules goal.old).products }
    requires answers { AnswersInRange (T.rules goal.old) }
    requires feasible { IsFeasibleBest (T.rules goal.old) walker.old.best }
    requires told { IsBacked (T.rules goal.old) place.old.view.told walker.old.best }
    requires some { walker.old.stack ≢ [] }

    // One turn.
    ensures desk { BelongsTo place.new desk.now }
    ensures turned { TakesNode (T.rules goal.old) place.old.view place.new.view walker.old walker.new }
    ensures same { goal.new ≡ goal.old }
{
    let seen = desk.look(place);
    if walker.work(goal, seen as i128) {
        tell_best(desk, place, walker, goal);
    }
}

/// Tells the value of the walker's best, if it has one.
pub fn tell_best<T: Goal>(desk: &Desk, place: &mut Place, walker: &Walker, goal: &T)
    requires desk { BelongsTo place.old desk.now }
    requires products { walker.now.products ≡ (T.rules goal.now).products }
    requires answers { AnswersInRange (T.rules goal.now) }
    requires feasible { IsFeasibleBest (T.rules goal.now) walker.now.best }
    requires told { IsBacked (T.rules goal.now) place.old.view.told walker.now.best }
    ensures desk { BelongsTo place.new desk.now }

    // Of the place only what it told changes.
    ensures claims { place.new.view.claims ≡ place.old.view.claims }
    ensures seen { place.new.view.seen ≡ place.old.view.seen }
    ensures share { place.new.view.share ≡ place.old.view.share }
    ensures told { IsBacked (T.rules goal.now) place.new.view.told walker.now.best }
{
    let Some(best) = walker.best() else {
        return;
    };
    desk.tell(place, goal.value(best) as u64);
}

/// One worker's round: it takes at most 1,024 nodes off its stack, and claims tasks while its stack is empty and its place
/// isn't done. It passes the gate before each task.
pub fn work_round<T: Goal, G: Gate>(
    desk: &Desk,
    place: &mut Place,
    walker: &mut Walker,
    goal: &mut T,
    worker: u64,
    gate: &G,
)
    requires desk { BelongsTo place.old desk.now }
    requires tasks { desk.now.tasks ≡ tasks_of (T.rules goal.old).products }
    requires products { walker.old.products ≡ (T.rules goal.old).products }
    requires answers { AnswersInRange (T.rules goal.old) }
    requires feasible { IsFeasibleBest (T.rules goal.old) walker.old.best }
    requires told { IsBacked (T.rules goal.old) place.old.view.told walker.old.best }

    // What it hands back.
    ensures round { Round (T.rules goal.old) desk.now place.old place.new walker.old walker.new }
    ensures sound { IsSound walker.new }
    ensures same { goal.new ≡ goal.old }
{
    for _taken in 0..NODES_A_ROUND {
        claim_task(desk, place, walker, goal, worker, gate);
        if walker.idle() {
            return;
        }
        take_node(desk, place, walker, goal);
    }
}
