//! What happens between rounds: workers with several nodes give to those without.
ghost use Rattle.std.specs.Prelude.{◌≡◌, ◌⊎◌, ℕ, [], ◌∷◌, ◌++◌};
ghost use Rattle.worker_rounds.specs.Crews.{Each, HasProducts, HasNodes, HasNoTwoNodes, IsEven, SharesNodes, IsReady, CrewRound};

use crate::crew::Worker;
use crate::halves::run_all;
use offer_io::Gate;
use shared_best::Desk;
use std::thread::Threads;
use tree_search::Goal;

/// Gives the donor's bottom node to the other, if the donor has at least two and the other has none.
fn give_node<T>(donor: &mut Worker<T>, other: &mut Worker<T>)
    requires { other.old.walker.products ≡ donor.old.walker.products }
    ensures shared { SharesNodes (donor.old ∷ other.old ∷ []) (donor.new ∷ other.new ∷ []) }
    ensures even { HasNoTwoNodes donor.new ⊎ HasNodes other.new }
{
    if donor.walker.size() >= 2 && other.walker.idle() {
        donor.walker.give(&mut other.walker);
    }
}

/// The donor gives nodes to those that have none, while it has two.
fn give_nodes<T>(donor: &mut Worker<T>, others: &mut [Worker<T>])
    requires { Each (HasProducts donor.old.walker.products) others.old }
    ensures shared { SharesNodes (donor.old ∷ others.old) (donor.new ∷ others.new) }
    ensures even { HasNoTwoNodes donor.new ⊎ Each HasNodes others.new }
{
    for i in 0..others.len() {
        give_node(donor, &mut others[i]);
    }
}

/// One worker of the crew gives nodes to the others.
fn give_from<T>(front: &mut [Worker<T>], donor: &mut Worker<T>, back: &mut [Worker<T>])
    requires front { Each (HasProducts donor.old.walker.products) front.old }
    requires back { Each (HasProducts donor.old.walker.products) back.old }
    ensures shared { SharesNodes (front.old ++ donor.old ∷ back.old) (front.new ++ donor.new ∷ back.new) }
    ensures even { HasNoTwoNodes donor.new ⊎ Each HasNodes (front.new ++ donor.new ∷ back.new) }
{
    give_nodes(donor, front);
    give_nodes(donor, back);
}

/// Those that have at least two nodes give bottom nodes to those that have none, until no worker is idle while another has
/// two.
pub fn share_nodes<T>(crew: &mut [Worker<T>])
    requires { (n : ℕ) × Each (HasProducts n) crew.old }
    ensures shared { SharesNodes crew.old crew.new }
    ensures even { IsEven crew.new }
{
    for i in 0..crew.len() {
        let (front, rest) = crew.split_at_mut(i);
        let (donor, back) = rest.split_at_mut(1);
        give_from(front, &mut donor[0], back);
    }
}

/// A round of all workers, and the nodes given after it.
pub fn run_round<R: Threads + Sync, T: Goal + Drop + Send, G: Gate + Sync>(
    rt: &R,
    desk: &Desk,
    gate: &G,
    crew: &mut [Worker<T>],
)
    requires ready { Each (IsReady T.rules desk.now) crew.old }
    requires products { (n : ℕ) × Each (HasProducts n) crew.old }
    ensures round { CrewRound T.rules desk.now crew.old crew.new }
{
    run_all(rt, desk, gate, crew);
    share_nodes(crew);
}
