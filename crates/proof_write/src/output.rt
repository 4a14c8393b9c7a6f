//! A certificate to the open output, by any rule.
ghost use Rattle.std.specs.Prelude.{◌≡◌, [], ◌∷◌, ◌++◌, All, IsTrue, IsErrOf};
ghost use Rattle.offer_model.specs.Nodes.{open_node};
ghost use Rattle.proof_lines.specs.Lines.{text_of};
ghost use Rattle.proof_tree.specs.Feeding.{joined};
ghost use Rattle.proof_tree.specs.Pens.{IsWritable, lines_data};
ghost use Rattle.proof_tree.specs.Puts.{Puts};
ghost use Rattle.proof_tree.specs.Rules.{IsRuleTree};
ghost use Rattle.proof_tree.specs.Trees.{TextTree, tree_texts, end_text};

use crate::faults::ProofFault;
use offer_io::{Failed, Store};
use proof_lines::Line;
use proof_tree::{Path, Pen, TreeRule, write_proof};
use std::alloc::Global;

/// Writes these lines of a header, the tree that the rule fixes, and the end. Memory is taken only before anything is written:
/// for the path and one line.
pub(crate) fn put_proof<R: TreeRule, S: Store>(
    alloc: Global,
    header: &[Line],
    rule: &mut R,
    products: usize,
    store: &mut S,
) -> Result<(), ProofFault>
    requires header { All IsWritable header.now }
    requires each { products ≡ R.products rule.old }
    requires output { IsTrue (S.view store.old).writing }
    ensures unchanged { IsErrOf result ProofFault.NoMemory → S.view store.new ≡ S.view store.old }

    // All bytes are written, or a part from their front.
    ensures puts { ¬ IsErrOf result ProofFault.NoMemory
        → (tree : TextTree) → IsRuleTree (R.LeafOf rule.old) (R.BranchesOn rule.old) (open_node products) tree
        → Puts (S.view store.old) (text_of (lines_data header.now) ++ joined (tree_texts tree (end_text ∷ []))) result (S.view store.new) }
{
    let mut path = Path::new(alloc, products)?;
    let mut pen = Pen::new(alloc)?;
    match write_proof(header, rule, &mut path, &mut pen, store) {
        Ok(()) => Ok(()),
        Err(Failed) => Err(ProofFault::WriteFault),
    }
}
