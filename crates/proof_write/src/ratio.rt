//! Certificates under limits of one kind.
ghost use Rattle.std.specs.Prelude.{◌≡◌, ◌≢◌, ◌↔◌, IsTrue, OnOk, IsErrOf};
ghost use Rattle.offer_model.specs.Problems.{ProblemData};
ghost use Rattle.offer_model.specs.Validity.{IsRatioModel};
ghost use Rattle.offer_model.specs.Best.{IsBest};
ghost use Rattle.offer_io.specs.Causes.{Rose};
ghost use Rattle.limit_rules.specs.Kinds.{kind_of};
ghost use Rattle.limit_rules.specs.declared.kind.Kind.TheVariants.{General};
ghost use Rattle.proof_write.specs.Outputs.{HasWritten, HasWrittenPart};

use crate::faults::ProofFault;
use crate::header::{earned_by, ratio_header};
use crate::leaves::{end_of_offered, leaves_of};
use crate::output::put_proof;
use crate::path_rule::PathRule;
use linear_step::Closer;
use offer_io::Store;
use offer_model::{Assortment, Problem};
use std::alloc::Global;

/// Writes the certificate of the best assortment of a problem under logit or generalised attraction, with limits of one
/// kind, to the open output. The step closes the nodes beside the best assortment. Memory is taken only before anything is
/// written: for the header, a leaf for each product up to the last that is offered and one more, the path, and one line.
pub fn write_ratio_proof<C: Closer, S: Store>(
    alloc: Global,
    p: &Problem,
    x: &Assortment,
    step: &mut C,
    store: &mut S,
) -> Result<(), ProofFault>
    requires model { IsRatioModel p.now.model }
    requires fits { C.fits step.old p.now }
    requires kind { kind_of p.now.limits ≢ General }
    requires best { IsBest p.now x.now }
    requires output { IsTrue (S.view store.old).writing }

    ensures written { OnOk result (HasWritten p.now (S.view store.old) (S.view store.new)) }
    ensures part { IsErrOf result ProofFault.WriteFault
        → HasWrittenPart p.now (S.view store.old) (S.view store.new) }
    ensures unchanged { IsErrOf result ProofFault.NoMemory → S.view store.new ≡ S.view store.old }

    // On a steady store nothing fails.
    ensures cause { IsErrOf result ProofFault.WriteFault
        → Rose (S.view store.old).faults (S.view store.new).faults }
    ensures ready { IsTrue (S.view store.old).steady → ¬ IsErrOf result ProofFault.WriteFault }

    ensures fits { (q : ProblemData) → C.fits step.old q ↔ C.fits step.new q }
{
    let earned = earned_by(p, x);
    let header = ratio_header(alloc, p, x)?;
    let leaves = leaves_of(alloc, p, x, &earned, step)?;
    let mut rule = PathRule {
        best: x,
        leaves,
        end: end_of_offered(x),
    };
    put_proof(alloc, &header, &mut rule, x.len(), store)
}
