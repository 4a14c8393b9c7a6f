//! The worked goal of mixed logit on one thread: a whole search as events of a world, and the search alone.
ghost use Rattle.std.specs.Prelude.{◌≡◌};
ghost use Rattle.offer_model.specs.declared.products.ModelName.TheVariants.{Mixed};
ghost use Rattle.tree_search.specs.Worlds.{IsWorldOf};

use crate::worked::{is_first_alone, worked_problem};
use offer_model::{NoMemory, Problem};
use segment_bound::MixedGoal;
use std::alloc::Global;
use std::test::Fail;
use tree_search::{Event, Goal, World, search_alone, tasks_of};

/// Worker 0 takes both products together and tells what they bring; worker 1 looks, takes the first alone, which brings as much, and then
/// each takes one more task, whose node what they have drops.
const EVENTS: [Event; 12] = [
    Event::Take(0),
    Event::Take(1),
    Event::Work(0),
    Event::Tell(0),
    Event::Look(1),
    Event::Work(1),
    Event::Tell(1),
    Event::Look(0),
    Event::Take(0),
    Event::Work(0),
    Event::Take(1),
    Event::Work(1),
];

/// Lets the events come one after another.
fn apply_each<T: Goal>(world: &mut World, goal: &mut T, events: &[Event]) -> Result<(), NoMemory>
    requires { IsWorldOf (T.rules goal.old).products world.old }
    ensures world { IsWorldOf (T.rules goal.old).products world.new }
    ensures same { goal.new ≡ goal.old }
{
    for event in events {
        world.apply(goal, *event)?;
    }
    Ok(())
}

/// Whether the world of two workers ends after the events, and worker 1 has the first product alone.
fn world_finds_the_first<T: Goal>(alloc: Global, goal: &mut T) -> Result<bool, NoMemory> {
    let mut world = World::start(alloc, tasks_of(goal.products()), 2)?;
    apply_each(&mut world, goal, &EVENTS)?;
    Ok(world.ended() && world.best(1).is_some_and(is_first_alone))
}

/// Whether a search alone finds the first product alone.
fn one_finds_the_first<T: Goal>(alloc: Global, goal: &mut T) -> Result<bool, NoMemory> {
    match search_alone(alloc, goal)? {
        Some(best) => Ok(is_first_alone(&best)),
        None => Ok(false),
    }
}

#[test]
fn a_world_and_a_search_alone_find_the_same(rt: HostRuntime) -> Result<(), Fail> {
    let p = worked_problem(&rt, rt.alloc())?;
    assert!(rt; both_find_the_first(rt.alloc(), &p)?);
    Ok(())
}

fn both_find_the_first(alloc: Global, p: &Problem) -> Result<bool, NoMemory>
    requires { p.now.model ≡ Mixed }
{
    let mut goal = MixedGoal::prepare(alloc, p)?;
    Ok(world_finds_the_first(alloc, &mut goal)? && one_finds_the_first(alloc, &mut goal)?)
}
