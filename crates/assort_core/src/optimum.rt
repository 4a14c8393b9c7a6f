//! The best assortment and its certificate, by the step of the limits' kind.
ghost use Rattle.std.specs.Prelude.{◌≡◌, ◌<◌, ◌≤◌, IfOk, OnOk, IsErrOf, IsTrue};
ghost use Rattle.offer_model.specs.Best.{IsBest};
ghost use Rattle.offer_model.specs.declared.products.ModelName.TheVariants.{Mixed};
ghost use Rattle.offer_model.specs.Problems.{ProblemData};
ghost use Rattle.offer_model.specs.Validity.{IsRatioModel};
ghost use Rattle.offer_io.specs.Causes.{Rose};
ghost use Rattle.proof_write.specs.Outputs.{HasWritten, HasWrittenPart};
ghost use Rattle.proof_write.specs.declared.faults.ProofFault.TheVariants as ProofFault;

use crate::means::Means;
use cut_step::ClosureStep;
use limit_rules::{Kind, kind_of};
use linear_step::{Closer, Step, Steps};
use offer_io::{Gate, Store};
use offer_model::{Assortment, ModelName, NoMemory, Problem};
use proof_write::{ProofFault, write_mixed_proof, write_ratio_proof, write_search_proof};
use rank_step::{CapsStep, FreeStep};
use ratio_loop::best_ratio;
use segment_bound::TangentGoal;
use several_step::SearchStep;
use std::alloc::Global;
use std::marker::Brand;
use std::sync::ledger::{Blank, Ledger};
use std::thread::Threads;
use table_steps::{LadderStep, ShelfStep};
use worker_rounds::search_together;

/// How the best assortment of a problem is found: the step of its limits' kind, which also closes the leaves of the
/// certificate.
#[derive(Drop)]
pub(crate) enum Method {
    Free(FreeStep),
    Caps(CapsStep),
    Closure(ClosureStep),
    Shelf(ShelfStep),
    Ladder(LadderStep),
    General(SearchStep),
    /// Mixed logit under limits of any kinds: a search over bounds of its segments.
    Mixed,
}

/// What is known of a method and the problem that it was made for.
pub(crate) trait Fit {
    ghost fits: { Self → ProblemData → Type 0 };
}

impl Fit for Method {
    ghost use Rattle.std.specs.Prelude.{◌≡◌};
    ghost use Rattle.limit_rules.specs.Kinds.{kind_of};
    ghost use Rattle.limit_rules.specs.declared.kind.Kind.TheVariants as kind;
    ghost use Rattle.assort_core.specs.declared.optimum.Method.TheVariants.{Free, Caps, Closure, Shelf, Ladder, General, Mixed};
    ghost use Rattle.offer_model.specs.Validity.{IsRatioModel};
    ghost use Rattle.offer_model.specs.declared.products.ModelName.TheVariants as name;

    ghost fits = { elim [
      | Free s ↦ (λ p. IsRatioModel p.model × (kind_of p.limits ≡ kind.Free) × ⟦<FreeStep as Step<Brand>>⟧.fits s p × ⟦<FreeStep as Closer>⟧.fits s p)
      | Caps s ↦ (λ p. IsRatioModel p.model × (kind_of p.limits ≡ kind.Caps) × ⟦<CapsStep as Step<Brand>>⟧.fits s p × ⟦<CapsStep as Closer>⟧.fits s p)
      | Closure s ↦ (λ p. IsRatioModel p.model × (kind_of p.limits ≡ kind.Closure) × ⟦<ClosureStep as Step<Brand>>⟧.fits s p × ⟦<ClosureStep as Closer>⟧.fits s p)
      | Shelf s ↦ (λ p. IsRatioModel p.model × (kind_of p.limits ≡ kind.Shelf) × ⟦<ShelfStep as Step<Brand>>⟧.fits s p × ⟦<ShelfStep as Closer>⟧.fits s p)
      | Ladder s ↦ (λ p. IsRatioModel p.model × (kind_of p.limits ≡ kind.Ladder) × ⟦<LadderStep as Step<Brand>>⟧.fits s p × ⟦<LadderStep as Closer>⟧.fits s p)
      | General s ↦ (λ p. IsRatioModel p.model × (kind_of p.limits ≡ kind.General) × ⟦<SearchStep as Step<Brand>>⟧.fits s p)
      | Mixed ↦ (λ p. p.model ≡ name.Mixed)
    ] };
}

/// The best assortment under mixed logit, found by so many workers.
#[tactic(auto, using(crate::proofs::MixedLemmas::best_from_top))]
fn best_mixed<R: Threads + Sync, G: Gate + Sync>(
    means: &Means<'_, R, G>,
    workers: u64,
    p: &Problem,
) -> Result<Assortment, NoMemory>
    requires model { p.now.model ≡ Mixed }
    requires workers { (1 ≤ workers) × (workers ≤ 64) }
    ensures { IfOk result (IsBest p.now) }
{
    let mut goal = TangentGoal::prepare(means.alloc, p)?;
    match search_together(means.rt, means.alloc, &mut goal, workers, means.gate)? {
        Some(best) => Ok(best),
        None => unreachable!(),
    }
}

impl Method {
    /// The method of a problem.
    pub(crate) fn prepare(alloc: Global, p: &Problem) -> Result<Method, NoMemory>
        ensures { IfOk result (λ m. ⟦<Method as Fit>⟧.fits m p.now) }
    {
        match p.model() {
            ModelName::Mixed => Ok(Method::Mixed),
            ModelName::Logit | ModelName::Attract => Method::by_steps(alloc, p),
            ModelName::Chain => unreachable!(),
        }
    }

    /// The step of the limits' kind, under logit and generalised attraction.
    fn by_steps(alloc: Global, p: &Problem) -> Result<Method, NoMemory>
        requires { IsRatioModel p.now.model }
        ensures { IfOk result (λ m. ⟦<Method as Fit>⟧.fits m p.now) }
    {
        Ok(match kind_of(p.limits()) {
            Kind::Free => Method::Free(FreeStep::prepare(alloc, p)?),
            Kind::Caps => Method::Caps(CapsStep::prepare(alloc, p)?),
            Kind::Closure => Method::Closure(ClosureStep::prepare(alloc, p)?),
            Kind::Shelf => Method::Shelf(ShelfStep::prepare(alloc, p)?),
            Kind::Ladder => Method::Ladder(LadderStep::prepare(alloc, p)?),
            Kind::General => Method::General(SearchStep::prepare(alloc, p)?),
        })
    }

    /// The best assortment, with its steps counted in a ledger.
    fn best_counted<L: Ledger, R: Threads + Sync, G: Gate + Sync>(
        &mut self,
        means: &Means<'_, R, G>,
        workers: u64,
        p: &Problem,
        blank: Blank,
    ) -> Result<Assortment, NoMemory>
        requires fits { ⟦<Method as Fit>⟧.fits self.old p.now }
        requires workers { (1 ≤ workers) × (workers ≤ 64) }
        requires name { blank.name ≡ L.name }
        requires parts { blank.parts ≡ L.parts }
        requires some { 0 < blank.parts }
        ensures best { IfOk result (IsBest p.now) }
        ensures fits { ⟦<Method as Fit>⟧.fits self.new p.now }
    {
        let alloc = means.alloc;
        let mut steps = Steps::<L>::start(blank);
        match self {
            Method::Free(step) => best_ratio(alloc, step, p, &mut steps),
            Method::Caps(step) => best_ratio(alloc, step, p, &mut steps),
            Method::Closure(step) => best_ratio(alloc, step, p, &mut steps),
            Method::Shelf(step) => best_ratio(alloc, step, p, &mut steps),
            Method::Ladder(step) => best_ratio(alloc, step, p, &mut steps),
            Method::General(step) => best_ratio(alloc, step, p, &mut steps),
            Method::Mixed => best_mixed(means, workers, p),
        }
    }

    /// The best assortment. Under mixed logit so many workers search for it.
    pub(crate) fn best<R: Threads + Sync, G: Gate + Sync>(
        &mut self,
        means: &Means<'_, R, G>,
        workers: u64,
        p: &Problem,
    ) -> Result<Assortment, NoMemory>
        requires fits { ⟦<Method as Fit>⟧.fits self.old p.now }
        requires workers { (1 ≤ workers) × (workers ≤ 64) }
        ensures best { IfOk result (IsBest p.now) }
        ensures fits { ⟦<Method as Fit>⟧.fits self.new p.now }
    {
        self.best_counted::<Brand, R, G>(means, workers, p, Blank::new(1))
    }

    /// Appends the certificate of the best assortment to the open output.
    pub(crate) fn write<S: Store>(
        &mut self,
        alloc: Global,
        p: &Problem,
        best: &Assortment,
        store: &mut S,
    ) -> Result<(), ProofFault>
        requires fits { ⟦<Method as Fit>⟧.fits self.old p.now }
        requires best { IsBest p.now best.now }
        requires output { IsTrue (S.view store.old).writing }

        ensures written { OnOk result (HasWritten p.now (S.view store.old) (S.view store.new)) }
        ensures part { IsErrOf result ProofFault.WriteFault
            → HasWrittenPart p.now (S.view store.old) (S.view store.new) }
        ensures unchanged { IsErrOf result ProofFault.NoMemory → S.view store.new ≡ S.view store.old }

        // On a steady store nothing fails.
        ensures cause { IsErrOf result ProofFault.WriteFault
            → Rose (S.view store.old).faults (S.view store.new).faults }
        ensures ready { IsTrue (S.view store.old).steady → ¬ IsErrOf result ProofFault.WriteFault }
    {
        match self {
            Method::Free(step) => write_ratio_proof(alloc, p, best, step, store),
            Method::Caps(step) => write_ratio_proof(alloc, p, best, step, store),
            Method::Closure(step) => write_ratio_proof(alloc, p, best, step, store),
            Method::Shelf(step) => write_ratio_proof(alloc, p, best, step, store),
            Method::Ladder(step) => write_ratio_proof(alloc, p, best, step, store),
            Method::General(_) => write_search_proof(alloc, p, best, store),
            Method::Mixed => write_mixed_proof(alloc, p, best, store),
        }
    }
}
