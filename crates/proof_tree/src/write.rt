//! Writers of trees, and of whole certificates.
ghost use Rattle.std.specs.Prelude.{◌≡◌, ℕ, ◌<◌, List, [], ◌∷◌, ◌++◌, length, All, IsTrue};
ghost use Rattle.offer_model.specs.Nodes.{open_node};
ghost use Rattle.proof_lines.specs.Lines.{text_of};
ghost use Rattle.proof_tree.specs.Feeding.{joined};
ghost use Rattle.proof_tree.specs.Pens.{IsWritable, lines_data};
ghost use Rattle.proof_tree.specs.Puts.{Puts};
ghost use Rattle.proof_tree.specs.Rules.{AreRuleLines, AreOfTree, IsRuleTree, GoesOn};
ghost use Rattle.proof_tree.specs.Trees.{TextTree, tree_texts, end_text};

use crate::path::Path;
use crate::pen::Pen;
use crate::rule::TreeRule;
use offer_io::{Failed, Store};
use proof_lines::Line;

/// Puts down the line of the first node, and goes on to the next.
fn put_node<R: TreeRule>(rule: &mut R, path: &mut Path, pen: &mut Pen)
    requires node { 0 < length path.old.nodes }
    requires each { path.old.products ≡ R.products rule.old }
    requires own { AreOfTree (R.LeafOf rule.old) (R.BranchesOn rule.old) (R.products rule.old) path.old.nodes }
    ensures on { GoesOn (R.LeafOf rule.old) (R.BranchesOn rule.old) path.old.nodes path.new.nodes pen.new }
    ensures own { AreOfTree (R.LeafOf rule.old) (R.BranchesOn rule.old) (R.products rule.old) path.new.nodes }
    ensures each { path.new.products ≡ path.old.products }
    ensures same { rule.new ≡ rule.old }
{
    let depth = path.frames();
    if pen.put_leaf(rule, path.node(), depth) {
        path.close();
    } else {
        let i = rule.branch(path.node(), depth);
        pen.put_branch(i);
        path.branch(i);
    }
}

/// Writes the trees that the rule fixes for the nodes of the path.
fn write_trees<R: TreeRule, S: Store>(
    rule: &mut R,
    path: &mut Path,
    pen: &mut Pen,
    store: &mut S,
) -> Result<(), Failed>
    requires each { path.old.products ≡ R.products rule.old }
    requires own { AreOfTree (R.LeafOf rule.old) (R.BranchesOn rule.old) (R.products rule.old) path.old.nodes }
    requires output { IsTrue (S.view store.old).writing }
    ensures lines { (ls : List (List ℕ)) → AreRuleLines (R.LeafOf rule.old) (R.BranchesOn rule.old) path.old.nodes ls
        → Puts (S.view store.old) (joined ls) result (S.view store.new) }
    ensures writing { IsTrue (S.view store.new).writing }
    ensures same { rule.new ≡ rule.old }
{
    'nodes: while !path.is_done() {
        put_node(rule, path, pen);
        pen.send(store)?;
    }
    Ok(())
}

/// Writes the tree that the rule fixes, line by line, without taking memory. The path is at the node of open products.
pub fn write_tree<R: TreeRule, S: Store>(
    rule: &mut R,
    path: &mut Path,
    pen: &mut Pen,
    store: &mut S,
) -> Result<(), Failed>
    requires each { path.old.products ≡ R.products rule.old }
    requires nodes { path.old.nodes ≡ open_node path.old.products ∷ [] }
    requires output { IsTrue (S.view store.old).writing }

    // The bytes of the tree are written, or a part from their front.
    ensures lines { (tree : TextTree) → IsRuleTree (R.LeafOf rule.old) (R.BranchesOn rule.old) (open_node path.old.products) tree
        → Puts (S.view store.old) (joined (tree_texts tree [])) result (S.view store.new) }
    ensures writing { IsTrue (S.view store.new).writing }
    ensures same { rule.new ≡ rule.old }
{
    write_trees(rule, path, pen, store)
}

/// Writes these lines of a header, the tree that the rule fixes, and the end, without taking memory. The path is at the node
/// of open products.
pub fn write_proof<R: TreeRule, S: Store>(
    header: &[Line],
    rule: &mut R,
    path: &mut Path,
    pen: &mut Pen,
    store: &mut S,
) -> Result<(), Failed>
    requires header { All IsWritable header.now }
    requires each { path.old.products ≡ R.products rule.old }
    requires nodes { path.old.nodes ≡ open_node path.old.products ∷ [] }
    requires output { IsTrue (S.view store.old).writing }

    // All bytes are written, or a part from their front.
    ensures { (tree : TextTree) → IsRuleTree (R.LeafOf rule.old) (R.BranchesOn rule.old) (open_node path.old.products) tree
        → Puts (S.view store.old) (text_of (lines_data header.now) ++ joined (tree_texts tree (end_text ∷ []))) result (S.view store.new) }
{
    pen.write_lines(header, store)?;
    write_tree(rule, path, pen, store)?;
    pen.put_end();
    pen.send(store)
}
