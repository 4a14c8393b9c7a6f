//! A pen: room for one line, which it writes to the open output.
ghost use Rattle.std.specs.Prelude.{◌≡◌, ◌+◌, ◌∷◌, ◌++◌, [], length, All, IsTrue};
ghost use Rattle.offer_model.specs.Nodes.{opens};
ghost use Rattle.proof_lines.specs.Lines.{line_text, text_of};
ghost use Rattle.proof_tree.specs.Pens.{IsWritable, lines_data};
ghost use Rattle.proof_tree.specs.Puts.{Puts};
ghost use Rattle.proof_tree.specs.Rules.{SaysLeaf, StandsAt};
ghost use Rattle.proof_tree.specs.Trees.{branch_text, end_text};

use crate::rule::{LINE_ROOM, TreeRule};
use offer_io::{Failed, Store};
use offer_model::{Bytes, NoMemory, Node, Wide};
use proof_lines::{Line, Shape, print_line};
use std::alloc::Global;
use std::marker::Model;

/// Holds one line while it is written. Contracts see its text, with its line feed.
#[derive(Drop)]
pub struct Pen {
    made: Line,
    text: Bytes,
}

impl Model for Pen {
    ghost use Rattle.std.specs.Prelude.{List, ℕ};
    ghost use Rattle.proof_tree.specs.Pens.{IsPen};

    ghost Value = { List ℕ };

    ghost view = { λ p. p.text.items };

    ghost invariant = { λ p. IsPen p.made.numbers p.text };
}

impl Pen {
    /// A pen with no text. It takes all its memory here.
    pub fn new(alloc: Global) -> Result<Pen, NoMemory> {
        let mut numbers = Wide::new(alloc);
        numbers.reserve(1)?;
        let mut text = Bytes::new(alloc);
        text.reserve(LINE_ROOM)?;
        let made = Line {
            shape: Shape::End,
            numbers,
        };
        Ok(Pen { made, text })
    }

    /// Puts down a line.
    fn put_line(&mut self, line: &Line)
        requires { IsWritable line.now }
        ensures { self.new ≡ line_text line.now.shape line.now.numbers.items ++ 10 ∷ [] }
    {
        self.text.clear();
        print_line(line, &mut self.text);
    }

    /// Puts down the node's leaf, if the rule has one.
    pub(crate) fn put_leaf<R: TreeRule>(&mut self, rule: &mut R, node: &Node, depth: usize) -> bool
        requires each { length node.now ≡ R.products rule.old }
        requires depth { depth + opens node.now ≡ length node.now }
        requires stands { StandsAt (R.LeafOf rule.old) (R.BranchesOn rule.old) (R.products rule.old) depth node.now }
        ensures leaf { SaysLeaf (R.LeafOf rule.old node.now) self.new result }
        ensures same { rule.new ≡ rule.old }
    {
        self.text.clear();
        rule.leaf(node, depth, &mut self.text)
    }

    /// Puts down a branch on product `i`.
    pub(crate) fn put_branch(&mut self, i: usize)
        ensures { self.new ≡ branch_text i ++ 10 ∷ [] }
    {
        self.text.clear();
        self.made.shape = Shape::Branch;
        self.made.numbers.clear();
        self.made.numbers.push(i as u128);
        print_line(&self.made, &mut self.text);
    }

    /// Puts down the end.
    pub(crate) fn put_end(&mut self)
        ensures { self.new ≡ end_text ++ 10 ∷ [] }
    {
        self.text.clear();
        self.made.shape = Shape::End;
        self.made.numbers.clear();
        print_line(&self.made, &mut self.text);
    }

    /// Writes the text.
    pub(crate) fn send<S: Store>(&self, store: &mut S) -> Result<(), Failed>
        requires { IsTrue (S.view store.old).writing }
        ensures { Puts (S.view store.old) self.now result (S.view store.new) }
    {
        store.append(self.text.as_slice())
    }

    /// Writes lines.
    pub fn write_lines<S: Store>(&mut self, lines: &[Line], store: &mut S) -> Result<(), Failed>
        requires lines { All IsWritable lines.now }
        requires output { IsTrue (S.view store.old).writing }
        ensures { Puts (S.view store.old) (text_of (lines_data lines.now)) result (S.view store.new) }
    {
        for line in lines {
            self.put_line(line);
            self.send(store)?;
        }
        Ok(())
    }
}
