//! One of two machines, for a reader that is made for one of two kinds of text.
use crate::machine::LineMachine;

/// One of two machines.
#[derive(Drop)]
pub enum EitherMachine<A, B> {
    First(A),
    Second(B),
}

impl<A: LineMachine, B: LineMachine> LineMachine for EitherMachine<A, B> {
    ghost use Rattle.proof_tree.specs.Either.{either_waits};

    ghost waits = { λ m ls. either_waits A.waits B.waits m ls };

    fn take(&mut self, line: &[u8]) {
        match self {
            EitherMachine::First(machine) => machine.take(line),
            EitherMachine::Second(machine) => machine.take(line),
        }
    }

    fn refuse(&mut self) {
        match self {
            EitherMachine::First(machine) => machine.refuse(),
            EitherMachine::Second(machine) => machine.refuse(),
        }
    }

    fn is_at_end(&self) -> bool {
        match self {
            EitherMachine::First(machine) => machine.is_at_end(),
            EitherMachine::Second(machine) => machine.is_at_end(),
        }
    }
}
