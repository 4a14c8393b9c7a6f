//! The output files of the commands: made, written, sealed.
ghost use Rattle.std.specs.Prelude.{◌≡◌, ◌⊎◌, Some, OnOk, OnErr, IfErr, IsErrOf, IsTrue};
ghost use Rattle.std.specs.Option.{option_copied};
ghost use Rattle.offer_io.specs.Causes.{Rose};
ghost use Rattle.offer_io.specs.Stores.{OthersStay};
ghost use Rattle.proof_write.specs.declared.faults.ProofFault.TheVariants as ProofFault;
ghost use Rattle.assort_core.specs.declared.stop.Stop.TheVariants as stop;
ghost use Rattle.assort_core.specs.Outcomes.{output_of};
ghost use Rattle.assort_core.specs.OutputFiles.{Appends, AppendsPart, HoldsText, HoldsPart};
ghost use Rattle.assort_core.specs.Outputs.{file_of, texts_of};
ghost use Rattle.assort_core.specs.Runs.{Endures};
ghost use Rattle.assort_core.specs.Stops.{WhyStopped, LeavesWhole, LeavesPart, MayWrite};

use crate::solved::{Found, Solved};
use crate::stop::{OutputName, Stop};
use crate::task::Task;
use offer_io::Store;
use offer_model::Bytes;
use proof_write::ProofFault;
use std::alloc::Global;

/// What is written: a certificate of what was found, or a catalogue's text.
#[derive(Drop)]
pub(crate) enum Output {
    Proof(Solved),
    Catalogue(Bytes),
}

impl Found for Output {
    ghost use Rattle.assort_core.specs.Outputs.{HoldsOutput};

    ghost holds = { λ o. HoldsOutput ⟦<Solved as Found>⟧.holds o };
}

impl Output {
    fn file(&self) -> OutputName
        ensures { result ≡ file_of self.now }
    {
        match self {
            Output::Proof(_) => OutputName::Proof,
            Output::Catalogue(_) => OutputName::Catalogue,
        }
    }

    /// Appends its text to the open output.
    fn write<S: Store>(&mut self, alloc: Global, store: &mut S) -> Result<(), ProofFault>
        requires holds { ⟦<Output as Found>⟧.holds self.old }
        requires output { IsTrue (S.view store.old).writing }

        ensures written { OnOk result (Appends (texts_of self.old) (S.view store.old) (S.view store.new)) }
        ensures part { IsErrOf result ProofFault.WriteFault → AppendsPart (texts_of self.old) (S.view store.old) (S.view store.new) }
        ensures unchanged { IsErrOf result ProofFault.NoMemory → S.view store.new ≡ S.view store.old }

        // On a steady store nothing fails.
        ensures cause { IsErrOf result ProofFault.WriteFault → Rose (S.view store.old).faults (S.view store.new).faults }
        ensures ready { IsTrue (S.view store.old).steady → ¬ IsErrOf result ProofFault.WriteFault }
    {
        match self {
            Output::Proof(solved) => solved.write(alloc, store),
            Output::Catalogue(text) => match store.append(text.as_slice()) {
                Err(_) => Err(ProofFault::WriteFault),
                Ok(()) => Ok(()),
            },
        }
    }
}

/// Writes an output to a file of this name.
fn write_file<S: Store>(
    alloc: Global,
    output: &mut Output,
    store: &mut S,
    name: &str,
) -> Result<(), Stop>
    requires holds { ⟦<Output as Found>⟧.holds output.old }

    // What the file holds afterwards.
    ensures written { OnOk result (HoldsText (texts_of output.old) name.now (S.view store.new)) }
    ensures sealed { OnOk result (IsTrue (S.view store.new).sealed) }
    ensures part { OnErr result (HoldsPart (texts_of output.old) name.now (S.view store.old) (S.view store.new)) }
    ensures others { IsTrue (S.view store.old).tells → OthersStay name.now (S.view store.old) (S.view store.new) }

    // Why it isn't written.
    ensures stops { IfErr result (λ s. (s ≡ stop.Unwritten (file_of output.old)) ⊎ (s ≡ stop.NoMemory)) }
    ensures cause { IsErrOf result (stop.Unwritten (file_of output.old)) → Rose (S.view store.old).faults (S.view store.new).faults }
    ensures ready { IsTrue (S.view store.old).steady → ¬ IsErrOf result (stop.Unwritten (file_of output.old)) }
    ensures endures { Endures (S.view store.old) (S.view store.new) }
{
    let unwritten = Stop::Unwritten(output.file());
    if store.create(name).is_err() {
        return Err(unwritten);
    }
    match output.write(alloc, store) {
        Err(ProofFault::WriteFault) => return Err(unwritten),
        Err(ProofFault::NoMemory) => return Err(Stop::NoMemory),
        Ok(()) => {}
    }
    if store.seal().is_err() {
        return Err(unwritten);
    }
    Ok(())
}

/// Writes the output of a task to the file of this name.
fn write_named<S: Store>(
    alloc: Global,
    task: &Task<'_>,
    name: &str,
    output: &mut Output,
    store: &mut S,
) -> Result<(), Stop>
    requires name { Some name.now ≡ (output_of task.now).name }
    requires may { MayWrite task.now (S.view store.old) (file_of output.old) (texts_of output.old) }
    requires holds { ⟦<Output as Found>⟧.holds output.old }

    ensures whole { OnOk result (LeavesWhole task.now (S.view store.old) (S.view store.new)) }
    ensures part { IfErr result (LeavesPart task.now (S.view store.old) (S.view store.new)) }
    ensures stopped { IfErr result (WhyStopped task.now (S.view store.old) (S.view store.new)) }
{
    match write_file(alloc, output, store, name) {
        Err(stop) => Err(stop),
        Ok(()) => Ok(()),
    }
}

/// Writes the output that a task asks for, if it has a name.
pub(crate) fn write_output<S: Store>(
    alloc: Global,
    task: &Task<'_>,
    name: Option<&str>,
    mut output: Output,
    store: &mut S,
) -> Result<(), Stop>
    requires name { option_copied name ≡ (output_of task.now).name }
    requires may { MayWrite task.now (S.view store.old) (file_of output) (texts_of output) }
    requires holds { ⟦<Output as Found>⟧.holds output }

    ensures whole { OnOk result (LeavesWhole task.now (S.view store.old) (S.view store.new)) }
    ensures part { IfErr result (LeavesPart task.now (S.view store.old) (S.view store.new)) }
    ensures stopped { IfErr result (WhyStopped task.now (S.view store.old) (S.view store.new)) }
{
    let Some(name) = name else {
        return Ok(());
    };
    write_named(alloc, task, name, &mut output, store)
}
