//! The step and the closer over the rows of a problem.
ghost use Rattle.std.specs.Prelude.{◌≡◌, ◌≤◌, length, vec_capacity, IfOk};
ghost use Rattle.limit_rules.specs.Kinds.{kind_of};

use crate::adjacency::Adjacency;
use crate::flow::Flow;
use crate::reach::{Reach, Spot};
use crate::rows::{Row, rows_of};
use crate::solve::{greatest, multipliers};
use limit_rules::{Kind, clashes};
use linear_step::{Closer, Closing, Step, Steps, Weights};
use offer_model::{Assortment, NoMemory, Node, Problem};
use std::alloc::Global;
use std::sync::ledger::Ledger;

/// The step and the closer for problems whose limits are all requirements. It has made the problem's rows and the
/// network of them, and keeps the lists that each call works in.
#[derive(Drop)]
pub struct ClosureStep {
    alloc: Global,
    rows: Vec<Row>,
    adjacency: Adjacency,
    flow: Flow,
    reach: Reach,
}

fn flow_of(alloc: Global, rows: usize, products: usize) -> Result<Flow, NoMemory>
    ensures { IfOk result (λ f. (length f.amounts.items ≡ rows) × (length f.excess.items ≡ products)) }
{
    let amounts = vec![in alloc; 0u128; rows]?;
    let excess = vec![in alloc; 0i128; products]?;
    Ok(Flow { amounts, excess })
}

fn reach_of(alloc: Global, products: usize) -> Result<Reach, NoMemory>
    ensures { IfOk result (λ r. (length r.spots.items ≡ products) × (products ≤ vec_capacity r.tree)) }
{
    let spots = vec![in alloc; Spot::Free; products]?;
    let mut tree = Vec::new(alloc);
    tree.reserve(products)?;
    Ok(Reach { tree, spots })
}

impl ClosureStep {
    ghost use Rattle.cut_step.specs.Ready.{IsReady};

    /// A step for the problem. It keeps the allocator.
    pub fn prepare(alloc: Global, p: &Problem) -> Result<Self, NoMemory>
        requires { kind_of p.now.limits ≡ Kind.Closure }
        ensures { IfOk result (λ s. IsReady s p.now) }
    {
        let rows = rows_of(alloc, p.limits())?;
        let products = p.products().len();
        let adjacency = Adjacency::of(alloc, &rows, products)?;
        let flow = flow_of(alloc, rows.len(), products)?;
        let reach = reach_of(alloc, products)?;
        Ok(ClosureStep {
            alloc,
            rows,
            adjacency,
            flow,
            reach,
        })
    }
}

impl<L: Ledger> Step<L> for ClosureStep {
    ghost use Rattle.cut_step.specs.Ready.{IsReady};

    ghost fits = { IsReady };

    fn best(
        &mut self,
        _p: &Problem,
        weights: &Weights,
        node: &Node,
        steps: &mut Steps<L>,
    ) -> Result<Option<Assortment>, NoMemory> {
        steps.tick();
        greatest(
            self.alloc,
            &self.rows,
            &self.adjacency,
            weights,
            node,
            &mut self.flow,
            &mut self.reach,
        )
    }
}

impl Closer for ClosureStep {
    ghost use Rattle.cut_step.specs.Ready.{IsReady};

    ghost fits = { IsReady };

    fn close(&mut self, p: &Problem, weights: &Weights, node: &Node) -> Result<Closing, NoMemory> {
        if clashes(p, node) {
            return Ok(Closing::Clash);
        }
        let numbers = multipliers(
            self.alloc,
            &self.rows,
            &self.adjacency,
            weights,
            node,
            &mut self.flow,
            &mut self.reach,
        )?;
        Ok(Closing::Multipliers(numbers))
    }
}
