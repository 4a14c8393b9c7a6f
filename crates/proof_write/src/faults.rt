//! Why a certificate was not written.
use offer_model::NoMemory;
use std::error::Error;
use std::fmt;

/// Why a certificate was not written whole.
#[derive(Clone, Copy, Debug, PartialEq, Eq)]
pub enum ProofFault {
    /// The store failed.
    WriteFault,
    /// Memory ran out, before anything was written.
    NoMemory,
}

impl fmt::Display for ProofFault {
    fn fmt<W: fmt::Write>(&self, f: &mut fmt::Formatter<W>) -> fmt::Result {
        f.write_str(match self {
            ProofFault::WriteFault => "the certificate can't be written",
            ProofFault::NoMemory => "memory ran out",
        })
    }
}

impl Error for ProofFault {}

impl From<NoMemory> for ProofFault {
    ghost use Rattle.std.specs.Prelude.{◌≡◌};
    ghost use Rattle.proof_write.specs.declared.faults.ProofFault.TheVariants as fault;

    ghost from_gives = { λ _ e. e ≡ fault.NoMemory };

    fn from(_: NoMemory) -> Self {
        ProofFault::NoMemory
    }
}
