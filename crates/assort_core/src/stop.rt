//! Why there is no report.
use catalogue::{Code, FileName, InputFault};
use offer_model::NoMemory;

/// A file that a command writes.
#[derive(Clone, Copy, Debug, PartialEq, Eq)]
pub(crate) enum OutputName {
    Proof,
    Catalogue,
}

/// Why there is no report.
#[derive(Clone, Copy, Debug, PartialEq, Eq)]
pub(crate) enum Stop {
    /// A file can't be read.
    Unread(FileName),
    /// A row of a file has a fault, or a file is too large.
    Faulty(FileName, usize, Code),
    /// A file can't be written.
    Unwritten(OutputName),
    NoMemory,
}

impl From<NoMemory> for Stop {
    ghost use Rattle.std.specs.Prelude.{◌≡◌};
    ghost use Rattle.assort_core.specs.declared.stop.Stop.TheVariants as stop;

    ghost from_gives = { λ _ e. e ≡ stop.NoMemory };

    fn from(_: NoMemory) -> Self {
        Stop::NoMemory
    }
}

impl From<InputFault> for Stop {
    ghost use Rattle.std.specs.Prelude.{◌≡◌};
    ghost use Rattle.assort_core.specs.Stops.{stop_by};

    ghost from_gives = { λ fault stop. stop ≡ stop_by fault };

    fn from(fault: InputFault) -> Self {
        match fault {
            InputFault::Fault { file, row, code } => Stop::Faulty(file, row, code),
            InputFault::NoMemory => Stop::NoMemory,
        }
    }
}
