//! The header of a certificate, line by line.
ghost use Rattle.std.specs.Prelude.{◌≡◌, ◌↔◌, IfSome, IsTrue, Some};
ghost use Rattle.proof_lines.specs.Lines.{IsLine};
ghost use Rattle.proof_lines.specs.declared.line.Shape.TheVariants as Shapes;
ghost use Rattle.proof_tree.specs.Trees.{IsRead, TreePhase};
ghost use Rattle.proof_check.specs.Headers.{StartsBy, ModelBy, SetBy, ValueBy, Leads, head_phase};

use crate::problem_leaves::ProblemLeaves;
use offer_model::{ModelName, Wide};
use proof_lines::Shape;

/// Which line of the header comes next, or the tree's, or nothing that could be accepted.
#[derive(Clone, Copy, PartialEq, Eq)]
pub(crate) enum Head {
    Start,
    Model,
    Set,
    Value,
    Tree,
    Refused,
}

/// Whether the line is of this shape.
fn is_shape(read: Option<Shape>, shape: Shape) -> bool
    ensures { IsTrue result ↔ (read ≡ Some shape) }
{
    match read {
        Some(own) => own == shape,
        None => false,
    }
}

/// What comes after the first line.
fn after_start(read: Option<Shape>) -> Head
    ensures { StartsBy read result }
{
    if is_shape(read, Shape::Start) {
        Head::Model
    } else {
        Head::Refused
    }
}

/// What comes after the model's line.
fn after_model(read: Option<Shape>, model: ModelName) -> Head
    ensures { ModelBy read model result }
{
    if is_shape(read, Shape::Model(model)) {
        Head::Set
    } else {
        Head::Refused
    }
}

/// What comes after the assortment's line, by which leaves are judged from then on.
fn after_set(read: Option<Shape>, numbers: &Wide, leaves: &mut ProblemLeaves) -> Head
    requires digits { IfSome read (λ s. IsLine s numbers.now.items) }
    ensures set { SetBy leaves.old.problem read numbers.now.items leaves.new.set result }
    ensures problem { leaves.new.problem ≡ leaves.old.problem }
{
    if !is_shape(read, Shape::Set) {
        return Head::Refused;
    }
    if numbers.len() != leaves.products() {
        return Head::Refused;
    }
    if leaves.judge_by(numbers) {
        Head::Value
    } else {
        Head::Refused
    }
}

/// What comes after the value's line.
fn after_value(read: Option<Shape>, numbers: &Wide, leaves: &ProblemLeaves) -> Head
    ensures { ValueBy leaves.now.problem read numbers.now.items leaves.now.set result }
{
    if is_shape(read, Shape::Value) && leaves.says(numbers) {
        return Head::Tree;
    }
    Head::Refused
}

/// What comes after a line of the header.
pub(crate) fn after(
    head: Head,
    line: &[u8],
    read: Option<Shape>,
    numbers: &Wide,
    leaves: &mut ProblemLeaves,
) -> Head
    requires head { ¬ (head ≡ Head.Tree) }
    requires read { IsRead line.now read numbers.now.items }
    ensures leads { (tree : TreePhase) → Leads leaves.old.problem tree
        (head_phase head leaves.old.set) (head_phase result leaves.new.set) line.now }
    ensures problem { leaves.new.problem ≡ leaves.old.problem }
{
    match head {
        Head::Start => after_start(read),
        Head::Model => after_model(read, leaves.model()),
        Head::Set => after_set(read, numbers, leaves),
        Head::Value => after_value(read, numbers, leaves),
        Head::Tree | Head::Refused => Head::Refused,
    }
}
