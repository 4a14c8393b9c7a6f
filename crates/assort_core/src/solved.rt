//! What is found for a subject, its report, and its certificate.
ghost use Rattle.std.specs.Prelude.{◌≡◌, ◌≤◌, IfOk, OnOk, IsErrOf, IsTrue};
ghost use Rattle.offer_io.specs.Causes.{Rose};
ghost use Rattle.proof_write.specs.declared.faults.ProofFault.TheVariants as ProofFault;
ghost use Rattle.assort_core.specs.declared.subject.Subject.TheVariants as subject;
ghost use Rattle.assort_core.specs.Certificates.{certificate_for};
ghost use Rattle.assort_core.specs.OutputFiles.{Appends, AppendsPart};
ghost use Rattle.assort_core.specs.Solutions.{HasRows, subject_of, rows_of};
ghost use Rattle.assort_core.specs.SolveOutcomes.{IsReport};

use crate::means::Means;
use crate::optimum::{Fit, Method};
use crate::subject::Subject;
use assort_reports::{report_chain, report_problem};
use catalogue::Catalogue;
use chain_values::{ChainAnswer, solve_chain};
use chain_write::write_chain_proof;
use offer_io::{Gate, Store};
use offer_model::{Assortment, Bytes, Chain, NoMemory, Problem};
use proof_write::ProofFault;
use std::alloc::Global;
use std::thread::Threads;

/// The best assortment of a problem and the method that found it, or what is known of a chain, after the catalogue.
#[derive(Drop)]
pub(crate) enum Solved {
    Best(Catalogue, Problem, Assortment, Method),
    Bounds(Catalogue, Chain, ChainAnswer),
}

/// What is known of what was found.
pub(crate) trait Found {
    ghost holds: { Self → Type 0 };
}

impl Found for Solved {
    ghost use Rattle.assort_core.specs.Solutions.{HoldsBy};

    ghost holds = { λ s. HoldsBy ⟦<Method as Fit>⟧.fits s };
}

/// The best assortment of a problem, by so many workers under mixed logit.
fn solve_problem<R: Threads + Sync, G: Gate + Sync>(
    means: &Means<'_, R, G>,
    workers: u64,
    catalogue: Catalogue,
    problem: Problem,
) -> Result<Solved, NoMemory>
    requires { (1 ≤ workers) × (workers ≤ 64) }
    ensures subject { IfOk result (λ s. subject_of s ≡ subject.Problem catalogue problem) }
    ensures holds { IfOk result ⟦<Solved as Found>⟧.holds }
{
    let mut method = Method::prepare(means.alloc, &problem)?;
    let best = method.best(means, workers, &problem)?;
    Ok(Solved::Best(catalogue, problem, best, method))
}

/// The stopping set of a chain and its bounds.
fn solve_bounds(alloc: Global, catalogue: Catalogue, chain: Chain) -> Result<Solved, NoMemory>
    ensures subject { IfOk result (λ s. subject_of s ≡ subject.Chain catalogue chain) }
    ensures holds { IfOk result ⟦<Solved as Found>⟧.holds }
{
    let answer = solve_chain(alloc, &chain)?;
    Ok(Solved::Bounds(catalogue, chain, answer))
}

impl Solved {
    /// What is found for a subject.
    pub(crate) fn of<R: Threads + Sync, G: Gate + Sync>(
        means: &Means<'_, R, G>,
        workers: u64,
        subject: Subject,
    ) -> Result<Solved, NoMemory>
        requires { (1 ≤ workers) × (workers ≤ 64) }
        ensures subject { IfOk result (λ s. subject_of s ≡ subject) }
        ensures holds { IfOk result ⟦<Solved as Found>⟧.holds }
    {
        match subject {
            Subject::Problem(catalogue, problem) => {
                solve_problem(means, workers, catalogue, problem)
            }
            Subject::Chain(catalogue, chain) => solve_bounds(means.alloc, catalogue, chain),
        }
    }

    /// The catalogue.
    pub(crate) fn catalogue(&self) -> &Catalogue
        ensures { result.now ≡ rows_of self.now }
    {
        match self {
            Solved::Best(catalogue, _, _, _) | Solved::Bounds(catalogue, _, _) => catalogue,
        }
    }

    /// Its report.
    pub(crate) fn report(&self, alloc: Global) -> Result<Bytes, NoMemory>
        requires rows { HasRows (subject_of self.now) }
        requires holds { ⟦<Solved as Found>⟧.holds self.now }
        ensures { IfOk result (λ report. IsReport (subject_of self.now) report.items) }
    {
        match self {
            Solved::Best(catalogue, problem, best, _) => {
                report_problem(alloc, catalogue, problem, best)
            }
            Solved::Bounds(catalogue, _, answer) => report_chain(alloc, catalogue, answer),
        }
    }

    /// Appends its certificate to the open output.
    pub(crate) fn write<S: Store>(&mut self, alloc: Global, store: &mut S) -> Result<(), ProofFault>
        requires holds { ⟦<Solved as Found>⟧.holds self.old }
        requires output { IsTrue (S.view store.old).writing }

        ensures written { OnOk result (Appends (certificate_for (subject_of self.old)).Written (S.view store.old) (S.view store.new)) }
        ensures part { IsErrOf result ProofFault.WriteFault
            → AppendsPart (certificate_for (subject_of self.old)).Written (S.view store.old) (S.view store.new) }
        ensures unchanged { IsErrOf result ProofFault.NoMemory → S.view store.new ≡ S.view store.old }

        // On a steady store nothing fails.
        ensures cause { IsErrOf result ProofFault.WriteFault
            → Rose (S.view store.old).faults (S.view store.new).faults }
        ensures ready { IsTrue (S.view store.old).steady → ¬ IsErrOf result ProofFault.WriteFault }
    {
        match self {
            Solved::Best(_, problem, best, method) => method.write(alloc, problem, best, store),
            Solved::Bounds(_, chain, answer) => write_chain_proof(alloc, chain, answer, store),
        }
    }
}
