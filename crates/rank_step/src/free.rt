//! The step and the closer without limits.
ghost use Rattle.std.specs.Prelude.{◌≡◌, [], length, IfOk};
ghost use Rattle.offer_model.specs.Problems.{product_count};
ghost use Rattle.limit_rules.specs.Kinds.{kind_of};
ghost use Rattle.limit_rules.specs.declared.kind.Kind.TheVariants.{Free};
ghost use Rattle.linear_step.specs.Weights.{AreWeights, weight_at};
ghost use Rattle.rank_step.specs.Free.{takes, TakesAll};

use linear_step::{Closer, Closing, Step, Steps, Weights};
use offer_model::{Assortment, Mark, NoMemory, Node, Problem, Wide};
use std::alloc::Global;
use std::marker::Brand;
use std::sync::ledger::Ledger;

/// The step of problems without limits: it offers what is In, and what is Open with a weight above 0.
#[derive(Drop)]
pub struct FreeStep {
    alloc: Global,
}

impl FreeStep {
    /// A step that fits the problem, whatever the ledger.
    pub fn prepare(alloc: Global, _p: &Problem) -> Result<FreeStep, NoMemory>
        requires kind { kind_of _p.now.limits ≡ Free }
        ensures step { IfOk result (λ s. ⟦<FreeStep as Step<Brand>>⟧.fits s _p.now) }
        ensures closer { IfOk result (λ s. ⟦<FreeStep as Closer>⟧.fits s _p.now) }
    {
        Ok(FreeStep { alloc })
    }
}

fn takes(mark: Mark, weight: i128) -> bool
    ensures { result ≡ takes mark weight }
{
    match mark {
        Mark::In => true,
        Mark::Out => false,
        Mark::Open => weight > 0,
    }
}

/// Offers what is In, and what is Open with a weight above 0.
fn take_all(p: &Problem, weights: &Weights, node: &Node, x: &mut Assortment)
    requires weights { AreWeights p.now weights.now }
    requires node { length node.now ≡ product_count p.now }
    requires assortment { length x.old ≡ product_count p.now }
    ensures { TakesAll p.now node.now (weight_at weights.now) x.new }
{
    for i in 0..node.len() {
        x.set(i, takes(node.mark(i), weights.get(i)));
    }
}

impl<L: Ledger> Step<L> for FreeStep {
    ghost use Rattle.std.specs.Prelude.{[]};

    ghost fits = { λ s p. p.limits ≡ [] };

    fn best(
        &mut self,
        p: &Problem,
        weights: &Weights,
        node: &Node,
        steps: &mut Steps<L>,
    ) -> Result<Option<Assortment>, NoMemory> {
        steps.tick();
        let mut x = Assortment::empty(self.alloc, node.len())?;
        take_all(p, weights, node, &mut x);
        Ok(Some(x))
    }
}

impl Closer for FreeStep {
    ghost fits = { λ s p. p.limits ≡ [] };

    fn close(
        &mut self,
        _p: &Problem,
        _weights: &Weights,
        _node: &Node,
    ) -> Result<Closing, NoMemory> {
        Ok(Closing::Multipliers(Wide::new(self.alloc)))
    }
}
