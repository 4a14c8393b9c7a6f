//! The filling of a node: candidates from the greatest weight down, where caps have room.
ghost use Rattle.std.specs.Prelude.{◌≡◌, ◌+◌, ◌<◌, ◌≤◌, true, false, length, vec_capacity};
ghost use Rattle.offer_model.specs.Problems.{product_count};
ghost use Rattle.offer_model.specs.Nodes.{fill_of, Clashes};
ghost use Rattle.linear_step.specs.Weights.{AreWeights, weight_at};
ghost use Rattle.rank_step.specs.Caps.{AreCapPlaces};
ghost use Rattle.rank_step.specs.Rooms.{AreRooms, AreTaken};
ghost use Rattle.rank_step.specs.Candidates.{AreCandidates};
ghost use Rattle.rank_step.specs.Greedy.{IsFilling, IsPast, IsFilled};

use crate::candidates::{Candidate, collect};
use crate::places::CapPlaces;
use crate::rooms::Rooms;
use limit_rules::fill_out;
use linear_step::Weights;
use offer_model::{Assortment, Mark, Node, Problem};

/// Takes room for what is In. False where there is none.
fn seat(p: &Problem, node: &Node, at: &CapPlaces, rooms: &mut Rooms) -> bool
    requires places { AreCapPlaces p.now at.now }
    requires node { length node.now ≡ product_count p.now }
    requires rooms { AreRooms p.now rooms.old }
    requires taken { AreTaken p.now (fill_of node.now) 0 rooms.old }
    ensures rooms { AreRooms p.now rooms.new }
    ensures cutoffs { rooms.new.cutoffs ≡ rooms.old.cutoffs }
    ensures taken { result ≡ true → AreTaken p.now (fill_of node.now) (product_count p.now) rooms.new }
    ensures clash { result ≡ false → Clashes p.now node.now }
{
    for i in 0..node.len() {
        if node.mark(i) != Mark::In {
            continue;
        }
        if rooms.full_cap(at, i).is_some() {
            return false;
        }
        rooms.take(at, i);
    }
    true
}

/// Goes through all candidates, from the greatest weight down: offers each where both its caps have room, else notes its
/// weight at one that has none.
fn offer_all(
    p: &Problem,
    weights: &Weights,
    node: &Node,
    at: &CapPlaces,
    list: &[Candidate],
    x: &mut Assortment,
    rooms: &mut Rooms,
)
    requires places { AreCapPlaces p.now at.now }
    requires candidates { AreCandidates p.now node.now (weight_at weights.now) list.now }
    requires filling { IsFilling p.now node.now (weight_at weights.now) at.now x.old rooms.old }
    requires past { IsPast p.now node.now (weight_at weights.now) at.now list.now (length list.now) x.old rooms.old }
    ensures filling { IsFilling p.now node.now (weight_at weights.now) at.now x.new rooms.new }
    ensures past { IsPast p.now node.now (weight_at weights.now) at.now list.now 0 x.new rooms.new }
{
    for k in (0..list.len()).rev() {
        let Candidate { weight, product } = list[k];
        if x.offers(product) {
            continue;
        }
        if let Some(full) = rooms.full_cap(at, product) {
            rooms.refuse(full, weight);
            continue;
        }
        rooms.take(at, product);
        x.set(product, true);
    }
}

/// Fills the assortment by rank. False where the node clashes.
pub fn fill(
    p: &Problem,
    weights: &Weights,
    node: &Node,
    at: &CapPlaces,
    list: &mut Vec<Candidate>,
    x: &mut Assortment,
    rooms: &mut Rooms,
) -> bool
    requires places { AreCapPlaces p.now at.now }
    requires weights { AreWeights p.now weights.now }
    requires node { length node.now ≡ product_count p.now }
    requires assortment { length x.old ≡ product_count p.now }
    requires rooms { AreRooms p.now rooms.old }
    requires space { product_count p.now ≤ vec_capacity list.old }
    ensures filled { result ≡ true → IsFilled p.now node.now (weight_at weights.now) at.now x.new rooms.new }
    ensures clash { result ≡ false → Clashes p.now node.now }
    ensures assortment { length x.new ≡ length x.old }
    ensures rooms { AreRooms p.now rooms.new }
    ensures space { vec_capacity list.new ≡ vec_capacity list.old }
{
    rooms.reset(p);
    if !seat(p, node, at, rooms) {
        return false;
    }
    fill_out(node, x);
    collect(p, weights, node, list);
    offer_all(p, weights, node, at, list, x, rooms);
    true
}
