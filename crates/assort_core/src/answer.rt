//! What a task prints, by its command.
ghost use Rattle.std.specs.Prelude.{◌≡◌, ◌<◌, IfOk, IfErr, OnOk, IsTrue};
ghost use Rattle.assort_core.specs.Deeds.{answer};
ghost use Rattle.assort_core.specs.Outcomes.{IsAnswerTo};
ghost use Rattle.assort_core.specs.Runs.{FilesStand};
ghost use Rattle.assort_core.specs.Stops.{WhyStopped, LeavesWhole, LeavesPart};

use crate::commands::check::check;
use crate::commands::eval::eval;
use crate::commands::solve::solve;
use crate::commands::trial::trial;
use crate::means::Means;
use crate::stop::Stop;
use crate::task::Task;
use assort_words::Command;
use offer_io::{Gate, Store};
use offer_model::Bytes;
use std::thread::Threads;

/// A status and what is printed with it.
#[derive(Drop)]
pub(crate) struct Answer {
    pub(crate) status: u8,
    pub(crate) report: Bytes,
}

/// What a task prints, or why there is nothing to print.
#[tactic(auto, using(crate::proofs::InputLemmas::files_stand, crate::proofs::LeavingLemmas::check_whole, crate::proofs::LeavingLemmas::eval_whole, crate::proofs::LeavingLemmas::passes_part))]
pub(crate) fn answer_to<R: Threads + Sync, S: Store, G: Gate + Sync>(
    means: &Means<'_, R, G>,
    task: &Task<'_>,
    store: &mut S,
) -> Result<Answer, Stop>
    ensures answer { IfOk result (λ a. IsTrue (S.view store.old).tells
        → IsAnswerTo task.now (S.view store.old).file (answer a.status a.report.items)) }
    ensures status { IfOk result (λ a. a.status < 2) }
    ensures stopped { IfErr result (WhyStopped task.now (S.view store.old) (S.view store.new)) }

    // What stands of the files afterwards.
    ensures whole { OnOk result (LeavesWhole task.now (S.view store.old) (S.view store.new)) }
    ensures part { IfErr result (LeavesPart task.now (S.view store.old) (S.view store.new)) }
    ensures rejected { IfOk result (λ a. a.status ≡ 1 → FilesStand (S.view store.old) (S.view store.new)) }
{
    match task.command() {
        Command::Solve => solve(means, task, store),
        Command::Check => check(means, task, store),
        Command::Eval => eval(means, task, store),
        Command::Trial => trial(means, task, store),
    }
}
