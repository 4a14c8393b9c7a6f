//! Certificates of mixed logit.
ghost use Rattle.std.specs.Prelude.{◌≡◌, IsTrue, OnOk, IsErrOf};
ghost use Rattle.offer_model.specs.declared.products.ModelName.TheVariants.{Mixed};
ghost use Rattle.offer_model.specs.Best.{IsBest};
ghost use Rattle.offer_io.specs.Causes.{Rose};
ghost use Rattle.proof_write.specs.Outputs.{HasWritten, HasWrittenPart};

use crate::faults::ProofFault;
use crate::header::units_header;
use crate::mixed_rule::MixedRule;
use crate::output::put_proof;
use offer_io::Store;
use offer_model::{Assortment, Problem};
use std::alloc::Global;

/// Writes the certificate of the best assortment of a problem under mixed logit to the open output: the one text that is fixed.
/// At each node a clash, else each segment's greatest value over all completions where these close it, else a branch on the
/// first Open product by falling margin, then by position. Memory is taken only before anything is written, and none of it
/// grows with the tree: for the header, the path, bounds, a number for each segment, and one line.
pub fn write_mixed_proof<S: Store>(
    alloc: Global,
    p: &Problem,
    x: &Assortment,
    store: &mut S,
) -> Result<(), ProofFault>
    requires model { p.now.model ≡ Mixed }
    requires best { IsBest p.now x.now }
    requires output { IsTrue (S.view store.old).writing }

    ensures written { OnOk result (HasWritten p.now (S.view store.old) (S.view store.new)) }
    ensures part { IsErrOf result ProofFault.WriteFault
        → HasWrittenPart p.now (S.view store.old) (S.view store.new) }
    ensures unchanged { IsErrOf result ProofFault.NoMemory → S.view store.new ≡ S.view store.old }

    // On a steady store nothing fails.
    ensures cause { IsErrOf result ProofFault.WriteFault
        → Rose (S.view store.old).faults (S.view store.new).faults }
    ensures ready { IsTrue (S.view store.old).steady → ¬ IsErrOf result ProofFault.WriteFault }
{
    let header = units_header(alloc, p, x)?;
    let mut rule = MixedRule::new(alloc, p, x)?;
    put_proof(alloc, &header, &mut rule, p.products().len(), store)
}
