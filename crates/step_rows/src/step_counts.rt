//! How often the step of caps is called for one best assortment: at most 80 times, and once more for each product.
ghost use Rattle.std.specs.Prelude.{◌≡◌, ◌<◌};
ghost use Rattle.offer_model.specs.Validity.{IsRatioModel};
ghost use Rattle.limit_rules.specs.Kinds.{kind_of};
ghost use Rattle.limit_rules.specs.declared.kind.Kind.TheVariants as kind;

use crate::problems::problem_in;
use limit_rules::{Kind, kind_of};
use linear_step::{Step, Steps, Weights};
use offer_model::{Assortment, NoMemory, Node, Problem};
use rank_step::CapsStep;
use ratio_loop::best_ratio;
use std::alloc::Global;
use std::marker::Brand;
use std::sync::ledger::{Blank, Ledger};
use std::test::Fail;

/// The step of caps, and how often it was called.
#[derive(Drop)]
struct Counting {
    step: CapsStep,
    calls: usize,
}

impl<L: Ledger> Step<L> for Counting {
    ghost fits = { λ s p. ⟦<CapsStep as Step<L>>⟧.fits s.step p };

    fn best(
        &mut self,
        p: &Problem,
        weights: &Weights,
        node: &Node,
        steps: &mut Steps<L>,
    ) -> Result<Option<Assortment>, NoMemory> {
        self.calls = self.calls.saturating_add(1);
        self.step.best(p, weights, node, steps)
    }
}

/// How often the step is called for the best assortment.
fn calls_for_best<L: Ledger>(alloc: Global, p: &Problem, blank: Blank) -> Result<usize, NoMemory>
    requires model { IsRatioModel p.now.model }
    requires kind { kind_of p.now.limits ≡ kind.Caps }
    requires name { blank.name ≡ L.name }
    requires parts { blank.parts ≡ L.parts }
    requires some { 0 < blank.parts }
{
    let mut steps = Steps::<L>::start(blank);
    let mut step = Counting {
        step: CapsStep::prepare(alloc, p)?,
        calls: 0,
    };
    best_ratio(alloc, &mut step, p, &mut steps)?;
    Ok(step.calls)
}

/// 256 products whose margins fall to a half and whose attractions rise fourfold with each eighth one, so that many trials
/// each raise the revenue by little.
fn steep_products(alloc: Global) -> Result<String, NoMemory> {
    let mut products = String::from_str(alloc, "name,margin,attraction\n")?;
    for i in 0..256u32 {
        let step = i / 8;
        let margin = 1_000_000_000u64 >> step;
        let attraction = (1u64 << (2 * step)).min(1_000_000_000);
        let line = format!(in alloc; "p{i},{margin},{attraction}\n")?;
        products.push_str(line.as_str())?;
    }
    Ok(products)
}

#[test]
fn a_step_is_called_at_most_80_times_and_once_for_each_product(
    rt: HostRuntime,
) -> Result<(), Fail> {
    let alloc = rt.alloc();
    let steep = steep_products(alloc)?;
    let cases: [(&str, u64, &[u8], &[u8], usize); 3] = [
        (
            "two that are alike, of which one may be offered",
            2,
            b"name,margin,attraction\nA,10,2\nB,10,2\n",
            b"kind,first,second,number\ntotal,,,1\n",
            2,
        ),
        (
            "steep ratios, of which one may be offered",
            1,
            steep.as_bytes(),
            b"kind,first,second,number\ntotal,,,1\n",
            256,
        ),
        (
            "steep ratios, of which all may be offered",
            1,
            steep.as_bytes(),
            b"kind,first,second,number\ntotal,,,256\n",
            256,
        ),
    ];
    for (name, none, products, limits, n) in cases {
        let problem = problem_in(&rt, alloc, none, products, limits)?;
        if kind_of(problem.limits()) != Kind::Caps {
            panic!(&rt; "{name}: not caps");
        }
        let calls = calls_for_best::<Brand>(alloc, &problem, Blank::new(1))?;
        assert!(&rt; calls <= 80 + n, "{name}: {calls} calls");
    }
    Ok(())
}
