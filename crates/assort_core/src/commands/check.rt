//! The command `check`: whether a text is a certificate for the problem of its files.
ghost use Rattle.std.specs.Prelude.{◌≡◌, ◌<◌, IfOk, IfErr, IsTrue, if◌then◌else◌};
ghost use Rattle.offer_io.specs.Stores.{Passes};
ghost use Rattle.assort_words.specs.declared.usage.Command.TheVariants as command;
ghost use Rattle.assort_core.specs.CheckOutcomes.{accepted_report, rejected_report};
ghost use Rattle.assort_core.specs.Deeds.{answer};
ghost use Rattle.assort_core.specs.Outcomes.{IsAnswerTo};
ghost use Rattle.assort_core.specs.Stops.{WhyStopped};

use crate::answer::Answer;
use crate::inputs::read_subject;
use crate::means::Means;
use crate::pieces::read_verdict;
use crate::stop::Stop;
use crate::task::Task;
use offer_io::Store;
use offer_model::{Bytes, NoMemory};
use std::alloc::Global;

/// The most bytes of a proof that is checked.
pub const MOST_PROOF: usize = 268_435_456;

/// What `check` prints of a text that is accepted or not.
fn verdict(alloc: Global, accepted: bool) -> Result<Answer, NoMemory>
    ensures status { IfOk result (λ a. a.status ≡ (if accepted then 0 else 1)) }
    ensures report { IfOk result (λ a. a.report.items ≡ (if accepted then accepted_report else rejected_report)) }
{
    let text = if accepted {
        b"accepted\n"
    } else {
        b"rejected\n"
    };
    let mut report = Bytes::new(alloc);
    report.reserve(text.len())?;
    report.push_slice(text);
    Ok(Answer {
        status: u8::from(!accepted),
        report,
    })
}

/// What `check` prints.
pub(crate) fn check<R, S: Store, G>(
    means: &Means<'_, R, G>,
    task: &Task<'_>,
    store: &mut S,
) -> Result<Answer, Stop>
    requires { task.now.command ≡ command.Check }
    ensures answer { IfOk result (λ a. IsTrue (S.view store.old).tells
        → IsAnswerTo task.now (S.view store.old).file (answer a.status a.report.items)) }
    ensures status { IfOk result (λ a. a.status < 2) }
    ensures stopped { IfErr result (WhyStopped task.now (S.view store.old) (S.view store.new)) }
    ensures passes { Passes (S.view store.old) (S.view store.new) }
{
    let alloc = means.alloc;
    let subject = match read_subject(alloc, task, store) {
        Err(stop) => return Err(stop),
        Ok(subject) => subject,
    };
    let checker = subject.checker(alloc)?;
    match read_verdict(store, task.checked_proof(), MOST_PROOF, checker) {
        Err(stop) => Err(stop),
        Ok(accepted) => Ok(verdict(alloc, accepted)?),
    }
}
