//! Certificates of Markov chains.
ghost use Rattle.std.specs.Prelude.{◌≡◌, All, IsTrue, OnOk, IsErrOf};
ghost use Rattle.offer_io.specs.Causes.{Rose};
ghost use Rattle.offer_model.specs.Stopping.{IsStopping};
ghost use Rattle.proof_lines.specs.Lines.{text_of};
ghost use Rattle.proof_tree.specs.Pens.{IsWritable, lines_data};
ghost use Rattle.proof_tree.specs.Puts.{Puts};
ghost use Rattle.chain_write.specs.Outputs.{HasWrittenChain, HasWrittenChainPart};

use crate::lines::lines_of;
use chain_values::ChainAnswer;
use offer_io::{Failed, Store};
use offer_model::Chain;
use proof_lines::Line;
use proof_tree::Pen;
use proof_write::ProofFault;
use std::alloc::Global;

/// Writes these lines. Memory is taken only before anything is written: for one line.
fn put_lines<S: Store>(alloc: Global, lines: &[Line], store: &mut S) -> Result<(), ProofFault>
    requires lines { All IsWritable lines.now }
    requires output { IsTrue (S.view store.old).writing }
    ensures unchanged { IsErrOf result ProofFault.NoMemory → S.view store.new ≡ S.view store.old }

    // All bytes are written, or a part from their front.
    ensures puts { ¬ IsErrOf result ProofFault.NoMemory
        → Puts (S.view store.old) (text_of (lines_data lines.now)) result (S.view store.new) }
{
    let mut pen = Pen::new(alloc)?;
    match pen.write_lines(lines, store) {
        Ok(()) => Ok(()),
        Err(Failed) => Err(ProofFault::WriteFault),
    }
}

/// Writes the certificate of a chain to the open output: the one text that is fixed. It says the answer's assortment, its two
/// bounds and its two vectors, in millionths of a margin unit. Memory is taken only before anything is written: for the lines,
/// and room for the longest that there can be.
pub fn write_chain_proof<S: Store>(
    alloc: Global,
    chain: &Chain,
    answer: &ChainAnswer,
    store: &mut S,
) -> Result<(), ProofFault>
    requires answer { IsStopping chain.now answer.now }
    requires output { IsTrue (S.view store.old).writing }

    ensures written { OnOk result (HasWrittenChain chain.now (S.view store.old) (S.view store.new)) }
    ensures part { IsErrOf result ProofFault.WriteFault
        → HasWrittenChainPart chain.now (S.view store.old) (S.view store.new) }
    ensures unchanged { IsErrOf result ProofFault.NoMemory → S.view store.new ≡ S.view store.old }

    // On a steady store nothing fails.
    ensures cause { IsErrOf result ProofFault.WriteFault
        → Rose (S.view store.old).faults (S.view store.new).faults }
    ensures ready { IsTrue (S.view store.old).steady → ¬ IsErrOf result ProofFault.WriteFault }
{
    let lines = lines_of(alloc, chain, answer)?;
    put_lines(alloc, &lines, store)
}
