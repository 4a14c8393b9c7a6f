//! One run: words, request, answer, and what is printed.
ghost use Rattle.std.specs.Prelude.{◌≡◌, ◌≢◌, ◌≤◌, ◌<◌, ◌⊎◌, IsTrue, IfOk, IsOkAnd, MatchResult};
ghost use Rattle.offer_io.specs.Causes.{Rose};
ghost use Rattle.assort_words.specs.Asked.{asked_of};
ghost use Rattle.assort_core.specs.Lines.{usage_line, memory_line, unwritten_line};
ghost use Rattle.assort_core.specs.Runs.{Performs, Prints, FailsToPrint, Says, StoreFails, OutFails, IsAnswerable, HoldsInputs, ClaimHolds, OthersStand, OutputStands, OutputMayStand, OutputIsSealed, FilesStand, Endures};
ghost use Rattle.assort_core.specs.Stops.{status_of, stop_line};

use crate::answer::{Answer, answer_to};
use crate::lines::fault_line::{fault_line, unread_line};
use crate::lines::usage_line::usage_line;
use crate::means::Means;
use crate::stop::{OutputName, Stop};
use crate::task::read_task;
use offer_io::{Gate, Sink, Store};
use offer_model::Texts;
use std::alloc::Global;
use std::thread::Threads;

/// Writes a line to standard error. A failure changes nothing else.
#[tactic(auto, using(crate::proofs::RunLemmas::said))]
fn say<E: Sink>(err: &mut E, line: &[u8])
    ensures { Says (E.view err.old) line.now (E.view err.new) }
{
    let _ = err.write(line);
}

/// Says why there is no report, and answers the status.
fn refuse<E: Sink>(err: &mut E, stop: Stop) -> u8
    ensures status { result ≡ status_of stop }
    ensures line { Says (E.view err.old) (stop_line stop) (E.view err.new) }
{
    match stop {
        Stop::Unread(file) => {
            say(err, unread_line(file).as_str().as_bytes());
            4
        }
        Stop::Faulty(file, row, code) => {
            say(err, fault_line(file, row, code).as_str().as_bytes());
            3
        }
        Stop::Unwritten(OutputName::Proof) => {
            say(err, b"assort: cannot write proof\n");
            4
        }
        Stop::Unwritten(OutputName::Catalogue) => {
            say(err, b"assort: cannot write catalogue\n");
            4
        }
        Stop::NoMemory => {
            say(err, b"assort: out of memory\n");
            5
        }
    }
}

/// Prints a report, and answers the status.
fn print<O: Sink, E: Sink>(out: &mut O, err: &mut E, answer: &Answer) -> u8
    requires { answer.now.status < 2 }
    ensures status { (result ≡ answer.now.status) ⊎ (result ≡ 4) }
    ensures prints { result ≢ 4 → Prints (O.view out.old) answer.now.report.items (O.view out.new) }
    ensures quiet { result ≢ 4 → E.view err.new ≡ E.view err.old }
    ensures fails { result ≡ 4 → FailsToPrint (O.view out.old) answer.now.report.items (O.view out.new) }
    ensures says { result ≡ 4 → Says (E.view err.old) unwritten_line (E.view err.new) }
{
    if out.write(answer.report.as_slice()).is_err() {
        say(err, b"assort: cannot write output\n");
        return 4;
    }
    answer.status
}

/// All that the program does. It answers the status; every call returns.
///
/// The words are those after the program's name. A report is made in memory and written to `out` at once, a line on
/// what went wrong to `err`. Workers run on the threads of `rt`, and pass the gate before each task.
pub fn run<R: Threads + Sync, S: Store, O: Sink, E: Sink, G: Gate + Sync>(
    rt: &R,
    alloc: Global,
    words: &Texts,
    store: &mut S,
    out: &mut O,
    err: &mut E,
    gate: &G,
) -> u8
    ensures statuses { result ≤ 5 }

    // 0 to 3, where the store tells its files: status, report and line are those of the words and the files.
    ensures outcome { result < 4 → IsTrue (S.view store.old).tells
        → Performs words.now (S.view store.old) result (O.view out.old) (O.view out.new) (E.view err.old) (E.view err.new) }

    // 2 comes exactly where the words are refused, and names their first refusal.
    ensures usage { MatchResult (asked_of words.now) (λ _. result ≢ 2)
        (λ fault. (result ≡ 2) × Says (E.view err.old) (usage_line fault) (E.view err.new)) }

    // 4 comes only where a call of the store or of standard output failed. A failed read changes no file, and a failed write
    // of the report leaves the proof whole.
    ensures failed { result ≡ 4 → IfOk (asked_of words.now) (λ r.
        StoreFails r (S.view store.old) (S.view store.new) (O.view out.old) (O.view out.new) (E.view err.old) (E.view err.new)
        ⊎ OutFails words.now r (S.view store.old) (S.view store.new) (O.view out.old) (O.view out.new) (E.view err.old) (E.view err.new)) }
    ensures steady { result ≡ 4 → IsTrue (S.view store.old).steady
        → IfOk (asked_of words.now) (λ r. HoldsInputs r (S.view store.old))
        → Rose (O.view out.old).faults (O.view out.new).faults }

    // 5 is want of memory. The proof is as it was, or a part from its front where the files have no fault.
    ensures memory { result ≡ 5 → Says (E.view err.old) memory_line (E.view err.new) }
    ensures part { result ≡ 5 → IfOk (asked_of words.now) (λ r. OutputMayStand r (S.view store.old) (S.view store.new)) }

    // Where the request can be answered and no count of faults rose, its report is printed, or memory ran out.
    ensures complete { IsOkAnd (asked_of words.now) (λ r. IsAnswerable r (S.view store.old))
        → (Rose (S.view store.old).faults (S.view store.new).faults → ⊥)
        → (Rose (O.view out.old).faults (O.view out.new).faults → ⊥) → (result < 2) ⊎ (result ≡ 5) }

    // 0: what it claims is so; of `check`, that the proof's assortment is the best one, of `eval`, that what
    // is offered keeps to the limits.
    ensures checked { result ≡ 0 → IsTrue (S.view store.old).tells
        → IfOk (asked_of words.now) (λ r. ClaimHolds r (S.view store.old)) }

    // What was printed, and what stands afterwards.
    ensures silent { result ≢ 0 → result ≢ 1 → result ≢ 4 → O.view out.new ≡ O.view out.old }
    ensures quiet { result < 2 → E.view err.new ≡ E.view err.old }
    ensures others { IfOk (asked_of words.now) (λ r. OthersStand r (S.view store.old) (S.view store.new)) }
    ensures proof { result ≡ 0 → IfOk (asked_of words.now) (λ r. OutputStands r (S.view store.old) (S.view store.new)) }
    ensures sealed { result ≡ 0 → IfOk (asked_of words.now) (λ r. OutputIsSealed r (S.view store.new)) }
    ensures kept { 0 < result → result < 4 → FilesStand (S.view store.old) (S.view store.new) }
    ensures endures { Endures (S.view store.old) (S.view store.new) }
{
    let task = match read_task(words) {
        Err(fault) => {
            say(err, usage_line(&fault).as_str().as_bytes());
            return 2;
        }
        Ok(task) => task,
    };
    match answer_to(&Means { rt, alloc, gate }, &task, store) {
        Err(stop) => refuse(err, stop),
        Ok(answer) => print(out, err, &answer),
    }
}
