//! The command `solve`: what is found, its report, and its certificate where one is asked for.
ghost use Rattle.std.specs.Prelude.{◌≡◌, IfOk, IfErr, OnOk, IsTrue};
ghost use Rattle.offer_io.specs.Stores.{Passes};
ghost use Rattle.assort_words.specs.declared.usage.Command.TheVariants as command;
ghost use Rattle.assort_core.specs.Deeds.{answer};
ghost use Rattle.assort_core.specs.Outcomes.{IsAnswerTo};
ghost use Rattle.assort_core.specs.Solutions.{subject_of};
ghost use Rattle.assort_core.specs.SolveOutcomes.{IsSolution};
ghost use Rattle.assort_core.specs.Stops.{WhyStopped, LeavesWhole, LeavesPart};

use crate::answer::Answer;
use crate::inputs::read_subject;
use crate::means::Means;
use crate::output_file::{Output, write_output};
use crate::solved::{Found, Solved};
use crate::stop::Stop;
use crate::task::Task;
use offer_io::{Gate, Store};
use offer_model::Bytes;
use std::alloc::Global;
use std::thread::Threads;

/// What is found, and its report.
#[derive(Drop)]
struct Solution {
    solved: Solved,
    report: Bytes,
}

/// Reads the files, and finds the answer.
fn find_solution<R: Threads + Sync, S: Store, G: Gate + Sync>(
    means: &Means<'_, R, G>,
    task: &Task<'_>,
    store: &mut S,
) -> Result<Solution, Stop>
    requires { task.now.command ≡ command.Solve }
    ensures passes { Passes (S.view store.old) (S.view store.new) }
    ensures solution { IfOk result (λ s. IsSolution task.now (S.view store.new) (subject_of s.solved) s.report.items) }
    ensures holds { IfOk result (λ s. ⟦<Solved as Found>⟧.holds s.solved) }
    ensures stopped { IfErr result (WhyStopped task.now (S.view store.old) (S.view store.new)) }
{
    let subject = match read_subject(means.alloc, task, store) {
        Err(stop) => return Err(stop),
        Ok(subject) => subject,
    };
    let solved = Solved::of(means, task.workers(), subject)?;
    let report = solved.report(means.alloc)?;
    Ok(Solution { solved, report })
}

/// What `solve` prints, after the proof that is asked for was written.
pub(crate) fn solve<R: Threads + Sync, S: Store, G: Gate + Sync>(
    means: &Means<'_, R, G>,
    task: &Task<'_>,
    store: &mut S,
) -> Result<Answer, Stop>
    requires { task.now.command ≡ command.Solve }
    ensures answer { IfOk result (λ a. IsTrue (S.view store.old).tells
        → IsAnswerTo task.now (S.view store.old).file (answer a.status a.report.items)) }
    ensures status { IfOk result (λ a. a.status ≡ 0) }
    ensures stopped { IfErr result (WhyStopped task.now (S.view store.old) (S.view store.new)) }

    // What stands of the files afterwards.
    ensures whole { OnOk result (LeavesWhole task.now (S.view store.old) (S.view store.new)) }
    ensures part { IfErr result (LeavesPart task.now (S.view store.old) (S.view store.new)) }
{
    let Solution { solved, report } = match find_solution(means, task, store) {
        Err(stop) => return Err(stop),
        Ok(solution) => solution,
    };
    let proof = Output::Proof(solved);
    match write_output(means.alloc, task, task.proof(), proof, store) {
        Err(stop) => Err(stop),
        Ok(()) => Ok(Answer { status: 0, report }),
    }
}
