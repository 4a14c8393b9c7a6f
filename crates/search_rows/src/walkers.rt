//! Stacks of walkers: how many nodes they hold, and the bottom node given away.
ghost use Rattle.std.specs.Prelude.{◌≡◌, []};

use crate::goals::Counting;
use offer_model::NoMemory;
use std::alloc::Global;
use std::sync::atomic::AtomicU64;
use std::test::Fail;
use tree_search::{Goal, Walker, tasks_of};

/// Takes all nodes, with nothing seen, and answers how many the stack held at most.
fn greatest_stack<T: Goal>(walker: &mut Walker, goal: &mut T) -> usize
    requires goal { walker.old.products ≡ (T.rules goal.old).products }
    ensures empty { walker.new.stack ≡ [] }
    ensures products { walker.new.products ≡ walker.old.products }
    ensures same { goal.new ≡ goal.old }
{
    let mut greatest = walker.size();
    while !walker.idle() {
        walker.work(goal, i128::MIN);
        greatest = greatest.max(walker.size());
    }
    greatest
}

/// Works all tasks, and answers how many nodes the stack held at most.
fn greatest_stack_of<T: Goal>(alloc: Global, goal: &mut T) -> Result<usize, NoMemory> {
    let products = goal.products();
    let mut walker = Walker::reserve(alloc, products)?;
    let mut greatest = 0;
    for task in 0..tasks_of(products) {
        walker.start(goal, task);
        greatest = greatest.max(greatest_stack(&mut walker, goal));
    }
    Ok(greatest)
}

#[test]
fn a_stack_holds_at_most_one_node_more_than_there_are_products(
    rt: HostRuntime,
) -> Result<(), Fail> {
    let calls = AtomicU64::new(0);
    for products in [0, 1, 7, 12] {
        let mut goal = Counting {
            products,
            valued: true,
            calls: &calls,
        };
        let greatest = greatest_stack_of(rt.alloc(), &mut goal)?;
        assert!(rt;
            greatest <= products + 1,
            "{greatest} nodes of {products} products"
        );
    }
    Ok(())
}

#[test]
fn a_walker_gives_its_bottom_node(rt: HostRuntime) -> Result<(), Fail> {
    let calls = AtomicU64::new(0);
    let mut goal = Counting {
        products: 12,
        valued: true,
        calls: &calls,
    };
    let mut one = Walker::reserve(rt.alloc(), 12)?;
    let mut two = Walker::reserve(rt.alloc(), 12)?;
    one.start(&goal, 0);
    one.work(&mut goal, 0);
    assert_eq!(rt; (one.size(), two.size()), (2, 0));
    assert!(rt; !one.idle());
    one.give(&mut two);
    assert_eq!(rt; (one.size(), two.size()), (1, 1));
    Ok(())
}
