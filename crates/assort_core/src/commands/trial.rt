//! The command `trial`: the best assortment of inputs that anybody can make again.
ghost use Rattle.std.specs.Prelude.{◌≡◌, ◌≤◌, IfOk, IfErr, OnOk, IsTrue};
ghost use Rattle.assort_words.specs.declared.usage.Command.TheVariants as command;
ghost use Rattle.catalogue_rows.specs.Plain.{plain_rows};
ghost use Rattle.trial_inputs.specs.TrialInputs.{trial_margins, trial_problem};
ghost use Rattle.assort_core.specs.declared.subject.Subject.TheVariants as subject;
ghost use Rattle.assort_core.specs.Deeds.{answer};
ghost use Rattle.assort_core.specs.Outcomes.{IsAnswerTo};
ghost use Rattle.assort_core.specs.Solutions.{HasRows, subject_of};
ghost use Rattle.assort_core.specs.Stages.{NamesNoTable};
ghost use Rattle.assort_core.specs.Stops.{WhyStopped, LeavesWhole, LeavesPart};
ghost use Rattle.assort_core.specs.TrialOutcomes.{trial_rows, asked_trial, IsTried};
ghost use Rattle.catalogue_rows.specs.PrintedProducts.{products_text};

use crate::answer::Answer;
use crate::means::Means;
use crate::output_file::{Output, write_output};
use crate::solved::{Found, Solved};
use crate::stop::Stop;
use crate::subject::Subject;
use crate::task::Task;
use assort_reports::report_trial;
use catalogue::{plain_catalogue, print_products};
use offer_io::{Gate, Store};
use offer_model::{Bytes, NoMemory};
use std::alloc::Global;
use std::thread::Threads;
use trial_inputs::{trial_margins, trial_problem};

/// The problem of a seed and so many products, after its catalogue.
fn trial_subject(alloc: Global, seed: u64, count: usize) -> Result<Subject, NoMemory>
    requires { count ≤ 256 }
    ensures subject { IfOk result (λ s. s ≡ subject.Problem (plain_rows (trial_margins seed count)) (trial_problem seed count)) }
    ensures rows { IfOk result HasRows }
{
    let margins = trial_margins(alloc, seed, count)?;
    let catalogue = plain_catalogue(alloc, &margins)?;
    let problem = trial_problem(alloc, seed, count)?;
    Ok(Subject::Problem(catalogue, problem))
}

/// What was found for trial inputs: the report, and the catalogue's text.
#[derive(Drop)]
struct Tried {
    report: Bytes,
    catalogue: Bytes,
}

/// The report and the catalogue's text of what was found for a task's inputs.
fn tell_trial(alloc: Global, task: &Task<'_>, solved: &Solved) -> Result<Tried, NoMemory>
    requires trial { task.now.command ≡ command.Trial }
    requires subject { subject_of solved.now ≡ subject.Problem (trial_rows task.now) (asked_trial task.now) }
    requires rows { HasRows (subject_of solved.now) }
    requires holds { ⟦<Solved as Found>⟧.holds solved.now }
    ensures report { IfOk result (λ t. IsTried task.now (answer 0 t.report.items)) }
    ensures catalogue { IfOk result (λ t. t.catalogue.items ≡ products_text (trial_rows task.now)) }
{
    let report = solved.report(alloc)?;
    Ok(Tried {
        report: report_trial(alloc, task.seed(), task.count(), &report)?,
        catalogue: print_products(alloc, solved.catalogue())?,
    })
}

/// Makes the inputs, and finds the answer.
fn find_trial<R: Threads + Sync, G: Gate + Sync>(
    means: &Means<'_, R, G>,
    task: &Task<'_>,
) -> Result<Tried, NoMemory>
    requires { task.now.command ≡ command.Trial }
    ensures report { IfOk result (λ t. IsTried task.now (answer 0 t.report.items)) }
    ensures catalogue { IfOk result (λ t. t.catalogue.items ≡ products_text (trial_rows task.now)) }
    ensures alone { NamesNoTable task.now }
{
    let seed = task.seed();
    let count = task.count();
    let subject = trial_subject(means.alloc, seed, count as usize)?;
    let solved = Solved::of(means, task.workers(), subject)?;
    tell_trial(means.alloc, task, &solved)
}

/// What `trial` prints, after the catalogue that is asked for was written.
pub(crate) fn trial<R: Threads + Sync, S: Store, G: Gate + Sync>(
    means: &Means<'_, R, G>,
    task: &Task<'_>,
    store: &mut S,
) -> Result<Answer, Stop>
    requires { task.now.command ≡ command.Trial }
    ensures answer { IfOk result (λ a. IsTrue (S.view store.old).tells
        → IsAnswerTo task.now (S.view store.old).file (answer a.status a.report.items)) }
    ensures status { IfOk result (λ a. a.status ≡ 0) }
    ensures stopped { IfErr result (WhyStopped task.now (S.view store.old) (S.view store.new)) }

    // What stands of the files afterwards.
    ensures whole { OnOk result (LeavesWhole task.now (S.view store.old) (S.view store.new)) }
    ensures part { IfErr result (LeavesPart task.now (S.view store.old) (S.view store.new)) }
{
    let Tried { report, catalogue } = find_trial(means, task)?;
    let catalogue = Output::Catalogue(catalogue);
    match write_output(means.alloc, task, task.save(), catalogue, store) {
        Err(stop) => Err(stop),
        Ok(()) => Ok(Answer { status: 0, report }),
    }
}
