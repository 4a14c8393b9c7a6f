//! A world of two workers, event by event.
ghost use Rattle.std.specs.Prelude.{◌≡◌};
ghost use Rattle.tree_search.specs.Worlds.{IsWorldOf};

use crate::goals::{Counting, offered_of};
use offer_model::NoMemory;
use std::sync::atomic::{AtomicU64, Ordering};
use std::test::Fail;
use tree_search::{Event, Goal, World, tasks_of};

/// Lets the events come one after another.
fn apply_each<T: Goal>(world: &mut World, goal: &mut T, events: &[Event]) -> Result<(), NoMemory>
    requires { IsWorldOf (T.rules goal.old).products world.old }
    ensures world { IsWorldOf (T.rules goal.old).products world.new }
    ensures same { goal.new ≡ goal.old }
{
    for event in events {
        world.apply(goal, *event)?;
    }
    Ok(())
}

#[test]
fn each_event_comes_once_and_the_ended_world_has_the_top(rt: HostRuntime) -> Result<(), Fail> {
    let calls = AtomicU64::new(0);
    let mut goal = Counting {
        products: 1,
        valued: true,
        calls: &calls,
    };
    let mut world = World::start(rt.alloc(), tasks_of(1), 2)?;
    let events = [
        Event::Take(0),
        Event::Work(0),
        Event::Tell(0),
        Event::Look(1),
        Event::Take(0),
        Event::Give(0, 1),
    ];
    apply_each(&mut world, &mut goal, &events)?;
    assert!(rt; !world.ended(), "a node is left");
    world.apply(&mut goal, Event::Work(1))?;
    assert!(rt; world.ended());
    assert_eq!(rt; offered_of(world.best(0).ok_or("none")?), 1);
    assert!(rt; world.best(1).is_none(), "what worker 1 saw drops its node");
    assert!(rt; world.best(2).is_none(), "no worker has this number");
    Ok(())
}

#[test]
fn events_that_are_not_possible_change_nothing(rt: HostRuntime) -> Result<(), Fail> {
    let calls = AtomicU64::new(0);
    let mut goal = Counting {
        products: 1,
        valued: true,
        calls: &calls,
    };
    let mut world = World::start(rt.alloc(), tasks_of(1), 2)?;
    let events = [
        Event::Work(0),
        Event::Tell(0),
        Event::Give(0, 1),
        Event::Take(2),
        Event::Look(2),
        Event::Work(2),
        Event::Tell(2),
        Event::Give(0, 2),
        Event::Give(2, 0),
    ];
    apply_each(&mut world, &mut goal, &events)?;
    assert_eq!(rt; calls.load(Ordering::SeqCst), 0);
    apply_each(
        &mut world,
        &mut goal,
        &[Event::Take(0), Event::Take(0), Event::Give(0, 0)],
    )?;
    apply_each(&mut world, &mut goal, &[Event::Work(0), Event::Work(0)])?;
    assert!(rt; !world.ended(), "one task is left");
    apply_each(
        &mut world,
        &mut goal,
        &[Event::Take(1), Event::Work(1), Event::Take(1)],
    )?;
    assert!(rt; world.ended());
    Ok(())
}
