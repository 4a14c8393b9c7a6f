//! Certificates under limits of several kinds.
ghost use Rattle.std.specs.Prelude.{◌≡◌, IsTrue, OnOk, IsErrOf};
ghost use Rattle.offer_model.specs.Validity.{IsRatioModel};
ghost use Rattle.offer_model.specs.Best.{IsBest};
ghost use Rattle.offer_io.specs.Causes.{Rose};
ghost use Rattle.limit_rules.specs.Kinds.{kind_of};
ghost use Rattle.limit_rules.specs.declared.kind.Kind.TheVariants.{General};
ghost use Rattle.proof_write.specs.Outputs.{HasWritten, HasWrittenPart};

use crate::faults::ProofFault;
use crate::header::{earned_by, ratio_header};
use crate::output::put_proof;
use crate::zero_rule::ZeroRule;
use offer_io::Store;
use offer_model::{Assortment, Problem};
use std::alloc::Global;

/// Writes the certificate of the best assortment of a problem under logit or generalised attraction, with limits of several
/// kinds, to the open output: at each node a clash, else multipliers that are all 0 where they close it, else a branch on the
/// first Open product. Memory is taken only before anything is written: for the header, the path,
/// prices of the products, multipliers of the limits, and one line.
pub fn write_search_proof<S: Store>(
    alloc: Global,
    p: &Problem,
    x: &Assortment,
    store: &mut S,
) -> Result<(), ProofFault>
    requires model { IsRatioModel p.now.model }
    requires kind { kind_of p.now.limits ≡ General }
    requires best { IsBest p.now x.now }
    requires output { IsTrue (S.view store.old).writing }

    ensures written { OnOk result (HasWritten p.now (S.view store.old) (S.view store.new)) }
    ensures part { IsErrOf result ProofFault.WriteFault
        → HasWrittenPart p.now (S.view store.old) (S.view store.new) }
    ensures unchanged { IsErrOf result ProofFault.NoMemory → S.view store.new ≡ S.view store.old }

    // On a steady store nothing fails.
    ensures cause { IsErrOf result ProofFault.WriteFault
        → Rose (S.view store.old).faults (S.view store.new).faults }
    ensures ready { IsTrue (S.view store.old).steady → ¬ IsErrOf result ProofFault.WriteFault }
{
    let earned = earned_by(p, x);
    let header = ratio_header(alloc, p, x)?;
    let mut rule = ZeroRule::new(alloc, p, x, &earned)?;
    put_proof(alloc, &header, &mut rule, p.products().len(), store)
}
