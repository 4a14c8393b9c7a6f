//! The workers of a search.
ghost use Rattle.std.specs.Prelude.{◌≡◌, true, false};
ghost use Rattle.worker_rounds.specs.Crews.{Each, AnyOf, IsWorkerBusy, IsWorkerAtRest};

use shared_best::Place;
use tree_search::Walker;

/// A worker: its number, its place at the desk, and the walker and the goal that it works with.
#[derive(Drop)]
pub struct Worker<T> {
    pub number: u64,
    pub place: Place,
    pub walker: Walker,
    pub goal: T,
}

/// Whether the worker has nodes to take, or may claim tasks.
fn is_busy<T>(worker: &Worker<T>) -> bool
    ensures busy { result ≡ true → IsWorkerBusy worker.now }
    ensures at_rest { result ≡ false → IsWorkerAtRest worker.now }
{
    !worker.walker.idle() || !worker.place.done()
}

/// Whether no worker has nodes to take, and none may claim tasks.
pub fn is_over<T>(crew: &[Worker<T>]) -> bool
    ensures at_rest { result ≡ true → Each IsWorkerAtRest crew.now }
    ensures busy { result ≡ false → AnyOf IsWorkerBusy crew.now }
{
    for i in 0..crew.len() {
        if is_busy(&crew[i]) {
            return false;
        }
    }
    true
}
