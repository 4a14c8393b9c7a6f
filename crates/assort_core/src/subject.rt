//! What a request is about, and which certificates of it are accepted.
ghost use Rattle.std.specs.Prelude.{◌↔◌, ℕ, List, IfOk};
ghost use Rattle.proof_check.specs.Waiting.{Takes};
ghost use Rattle.assort_core.specs.Certificates.{certificate_for};

use catalogue::Catalogue;
use offer_model::{Chain, NoMemory, Problem};
use proof_check::Checker;
use std::alloc::Global;

/// A problem or a Markov chain, after the catalogue that names its products.
#[derive(Drop)]
pub(crate) enum Subject {
    Problem(Catalogue, Problem),
    Chain(Catalogue, Chain),
}

impl Subject {
    /// A checker of its certificates that has read nothing. It takes all its memory here.
    pub(crate) fn checker(&self, alloc: Global) -> Result<Checker, NoMemory>
        ensures { IfOk result (λ checker. (r : List ℕ) → Takes checker r ↔ (certificate_for self.now).Accepted r) }
    {
        match self {
            Subject::Problem(_, problem) => Checker::for_problem(alloc, problem),
            Subject::Chain(_, chain) => Checker::for_chain(alloc, chain),
        }
    }
}
