//! Rounds side by side.
ghost use Rattle.std.specs.Prelude.{◌≡◌, ◌<◌, length};
ghost use Rattle.std.specs.Thread.{IsSync, IsSend};
ghost use Rattle.worker_rounds.specs.Crews.{Each, Pairwise, IsReady, WorkerRound};

use crate::crew::Worker;
use crate::round::work_round;
use offer_io::Gate;
use shared_best::Desk;
use std::thread::{Threads, join_mut};
use tree_search::Goal;

/// The round of one worker.
fn run_one<T: Goal, G: Gate>(desk: &Desk, gate: &G, worker: &mut Worker<T>)
    requires { IsReady T.rules desk.now worker.old }
    ensures { WorkerRound T.rules desk.now worker.old worker.new }
{
    let w = worker;
    work_round(
        desk,
        &mut w.place,
        &mut w.walker,
        &mut w.goal,
        w.number,
        gate,
    );
}

/// Each worker's round, side by side where the machine makes threads.
#[cycle(crew)]
pub fn run_all<R: Threads + Sync, T: Goal + Drop + Send, G: Gate + Sync>(
    rt: &R,
    desk: &Desk,
    gate: &G,
    workers: &mut [Worker<T>],
)
    requires crew { Each (IsReady T.rules desk.now) workers.old }
    ensures { Pairwise (WorkerRound T.rules desk.now) workers.old workers.new }
{
    if workers.len() == 0 {
        return;
    }
    if workers.len() == 1 {
        run_one(desk, gate, &mut workers[0]);
        return;
    }
    let (front, back) = workers.split_at_mut(workers.len() / 2);
    both_halves(rt, desk, gate, front, back);
}

/// The rounds of two halves of the workers, the one beside the other.
#[cycle(crew)]
fn both_halves<R: Threads + Sync, T: Goal + Drop + Send, G: Gate + Sync>(
    rt: &R,
    desk: &Desk,
    gate: &G,
    front: &mut [Worker<T>],
    back: &mut [Worker<T>],
)
    requires some { (0 < length front.old) × (0 < length back.old) }
    requires front { Each (IsReady T.rules desk.now) front.old }
    requires back { Each (IsReady T.rules desk.now) back.old }
    ensures front { Pairwise (WorkerRound T.rules desk.now) front.old front.new }
    ensures back { Pairwise (WorkerRound T.rules desk.now) back.old back.new }
{
    let mut one = ||
        requires { IsSync R.row × IsSync G.row × IsSend T.row × Each (IsReady T.rules desk.now) front.now }
        ensures { Pairwise (WorkerRound T.rules desk.entry.now) front.entry.now front.exit.now }
    { run_all(rt, desk, gate, front) };
    let mut two = ||
        requires { IsSync R.row × IsSync G.row × IsSend T.row × Each (IsReady T.rules desk.now) back.now }
        ensures { Pairwise (WorkerRound T.rules desk.entry.now) back.entry.now back.exit.now }
    { run_all(rt, desk, gate, back) };
    join_mut(rt, &mut one, &mut two);
}
