//! The lines of a chain's certificate, one after the other.
ghost use Rattle.std.specs.Prelude.{◌≡◌, ◌↔◌, IfSome, IsTrue, Some};
ghost use Rattle.proof_lines.specs.Lines.{IsLine};
ghost use Rattle.proof_tree.specs.Trees.{IsRead};
ghost use Rattle.chain_check.specs.Stages.{phase_at, Leads, OnBy, SetBy, ValueBy, UpperBy, LowerBy};

use crate::judge::Judge;
use offer_model::{ModelName, Wide};
use proof_lines::Shape;

/// Which line comes next, or that all have come, or nothing that could be accepted.
#[derive(Clone, Copy, PartialEq, Eq)]
pub(crate) enum Stage {
    Start,
    Model,
    Set,
    Value,
    Upper,
    Lower,
    End,
    Ended,
    Refused,
}

/// What comes after a line of one text.
fn after_shape(read: Option<Shape>, shape: Shape, next: Stage) -> Stage
    ensures { OnBy read shape next result }
{
    if is_shape(read, shape) {
        next
    } else {
        Stage::Refused
    }
}

/// Whether the line is of this shape.
fn is_shape(read: Option<Shape>, shape: Shape) -> bool
    ensures { IsTrue result ↔ (read ≡ Some shape) }
{
    match read {
        Some(own) => own == shape,
        None => false,
    }
}

/// What comes after the assortment's line.
fn after_set(read: Option<Shape>, numbers: &Wide, judge: &mut Judge) -> Stage
    requires digits { IfSome read (λ s. IsLine s numbers.now.items) }
    ensures set { SetBy judge.new read numbers.now.items result }
    ensures chain { judge.new.chain ≡ judge.old.chain }
{
    if is_shape(read, Shape::Set) && judge.take_set(numbers) {
        return Stage::Value;
    }
    Stage::Refused
}

/// What comes after the bounds' line.
fn after_value(read: Option<Shape>, numbers: &Wide, judge: &mut Judge) -> Stage
    ensures value { ValueBy judge.new read numbers.now.items result }
    ensures set { judge.new.set ≡ judge.old.set }
    ensures chain { judge.new.chain ≡ judge.old.chain }
{
    if is_shape(read, Shape::Value) && judge.take_bounds(numbers) {
        return Stage::Upper;
    }
    Stage::Refused
}

/// What comes after the upper vector's line.
fn after_upper(read: Option<Shape>, numbers: &Wide, judge: &mut Judge) -> Stage
    ensures upper { UpperBy judge.old read numbers.now.items result }
    ensures kept { judge.new ≡ judge.old }
{
    if is_shape(read, Shape::Upper) && judge.gives_up(numbers) {
        return Stage::Lower;
    }
    Stage::Refused
}

/// What comes after the lower vector's line.
fn after_lower(read: Option<Shape>, numbers: &Wide, judge: &mut Judge) -> Stage
    ensures lower { LowerBy judge.old read numbers.now.items result }
    ensures kept { judge.new ≡ judge.old }
{
    if is_shape(read, Shape::Lower) && judge.gives_lo(numbers) {
        return Stage::End;
    }
    Stage::Refused
}

/// What comes after a line.
pub(crate) fn after(
    stage: Stage,
    line: &[u8],
    read: Option<Shape>,
    numbers: &Wide,
    judge: &mut Judge,
) -> Stage
    requires read { IsRead line.now read numbers.now.items }
    ensures leads { Leads judge.old.chain (phase_at stage judge.old) (phase_at result judge.new) line.now }
    ensures chain { judge.new.chain ≡ judge.old.chain }
{
    match stage {
        Stage::Start => after_shape(read, Shape::Start, Stage::Model),
        Stage::Model => after_shape(read, Shape::Model(ModelName::Chain), Stage::Set),
        Stage::Set => after_set(read, numbers, judge),
        Stage::Value => after_value(read, numbers, judge),
        Stage::Upper => after_upper(read, numbers, judge),
        Stage::Lower => after_lower(read, numbers, judge),
        Stage::End => after_shape(read, Shape::End, Stage::Ended),
        Stage::Ended | Stage::Refused => Stage::Refused,
    }
}
