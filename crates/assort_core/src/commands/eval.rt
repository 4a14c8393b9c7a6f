//! The command `eval`: what an assortment that is offered brings.
ghost use Rattle.std.specs.Prelude.{◌≡◌, ◌≢◌, ◌<◌, IfOk, IfErr, IsTrue, length};
ghost use Rattle.offer_io.specs.Stores.{Passes};
ghost use Rattle.assort_words.specs.Offers.{offered_of};
ghost use Rattle.assort_words.specs.declared.usage.Command.TheVariants as command;
ghost use Rattle.assort_core.specs.Deeds.{answer};
ghost use Rattle.assort_core.specs.EvalOutcomes.{status_for, IsEvaluated};
ghost use Rattle.assort_core.specs.Outcomes.{IsAnswerTo};
ghost use Rattle.assort_core.specs.Stages.{FitTogether, offered, model_asked};
ghost use Rattle.assort_core.specs.Stops.{WhyStopped};
ghost use Rattle.offer_model.specs.declared.products.ModelName.TheVariants as model;

use crate::answer::Answer;
use crate::inputs::{Tables, problem_asked, read_tables};
use crate::means::Means;
use crate::stop::Stop;
use crate::task::Task;
use catalogue::{Code, FileName};
use eval_reports::report_eval;
use limit_rules::first_broken;
use offer_io::Store;
use offer_model::{Assortment, NoMemory};
use std::alloc::Global;

/// The assortment of a word: a digit for each product, `-` for none.
fn read_offer(alloc: Global, word: &str) -> Result<Assortment, NoMemory>
    ensures { IfOk result (λ x. x ≡ offered_of word.now) }
{
    if word == "-" {
        return Assortment::empty(alloc, 0);
    }
    let digits = word.as_bytes();
    let mut offered = Assortment::empty(alloc, digits.len())?;
    for i in 0..digits.len() {
        offered.set(i, digits[i] == b'1');
    }
    Ok(offered)
}

/// The status where this limit is the first that is broken.
fn status_for(broken: Option<usize>) -> u8
    ensures { result ≡ status_for broken }
{
    u8::from(broken.is_some())
}

/// The report of an assortment over what the tables give.
fn evaluate(
    alloc: Global,
    task: &Task<'_>,
    tables: &Tables,
    x: &Assortment,
) -> Result<Answer, NoMemory>
    requires model { model_asked task.now ≢ model.Chain }
    requires fit { FitTogether task.now tables.now }
    requires length { length x.now ≡ length tables.now.rows }
    requires offer { x.now ≡ offered task.now }
    ensures answer { IfOk result (λ a. IsEvaluated task.now tables.now (answer a.status a.report.items)) }
    ensures status { IfOk result (λ a. a.status < 2) }
{
    let problem = problem_asked(alloc, task, tables)?;
    let report = report_eval(alloc, &tables.catalogue, &tables.segments, &problem, x)?;
    Ok(Answer {
        status: status_for(first_broken(&problem, x)),
        report,
    })
}

/// What `eval` prints.
pub(crate) fn eval<R, S: Store, G>(
    means: &Means<'_, R, G>,
    task: &Task<'_>,
    store: &mut S,
) -> Result<Answer, Stop>
    requires { task.now.command ≡ command.Eval }
    ensures answer { IfOk result (λ a. IsTrue (S.view store.old).tells
        → IsAnswerTo task.now (S.view store.old).file (answer a.status a.report.items)) }
    ensures status { IfOk result (λ a. a.status < 2) }
    ensures stopped { IfErr result (WhyStopped task.now (S.view store.old) (S.view store.new)) }
    ensures passes { Passes (S.view store.old) (S.view store.new) }
{
    let alloc = means.alloc;
    let tables = match read_tables(alloc, task, store) {
        Err(stop) => return Err(stop),
        Ok(tables) => tables,
    };
    let offered = read_offer(alloc, task.offer())?;
    if offered.len() != tables.catalogue.len() {
        return Err(Stop::Faulty(FileName::Offer, 0, Code::WrongLength));
    }
    Ok(evaluate(alloc, task, &tables, &offered)?)
}
