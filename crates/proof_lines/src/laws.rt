//! What is proved of certificates: each function's contract is a law, and its body is empty.

ghost use Rattle.proof_lines.specs.Laws.{AcceptedIsBest, AcceptedIsBracketed, LinesDiffer, ProofsDiffer, ChainProofsDiffer, AcceptedLinesAreShort, AcceptedChainLinesAreShort, PathsAreShort, SearchesWriteOnce, ChainsWriteOnce};
ghost use Rattle.proof_lines.specs.WorkedProofs.{WorkedProofs};

/// Whoever wrote a text that is accepted for a problem, its assortment is the best one.
pub fn accepted_is_best()
    ensures { AcceptedIsBest }
{}

/// Whoever wrote a text that is accepted for a chain, its assortment brings at least its lower bound, and none brings
/// more than its upper one.
pub fn accepted_is_bracketed()
    ensures { AcceptedIsBracketed }
{}

/// Each line has one text, and a text is at most one line's.
pub fn lines_differ()
    ensures { LinesDiffer }
{}

/// A text is the proof of at most one header and tree.
pub fn proofs_differ()
    ensures { ProofsDiffer }
{}

/// A text is the certificate of a chain for at most one assortment, two bounds and two vectors.
pub fn chain_proofs_differ()
    ensures { ChainProofsDiffer }
{}

/// The worked certificates are accepted, and their broken forms aren't.
pub fn worked_proofs()
    ensures { WorkedProofs }
{}

/// No line of a text that is accepted for a problem of at most 512 products is longer than 40,000 bytes.
pub fn accepted_lines_are_short()
    ensures { AcceptedLinesAreShort }
{}

/// Nor is one of a text that is accepted for a chain of at most 512 products.
pub fn accepted_chain_lines_are_short()
    ensures { AcceptedChainLinesAreShort }
{}

/// With limits of one kind a written proof has at most as many branches as there are products.
pub fn paths_are_short()
    ensures { PathsAreShort }
{}

/// With limits of several kinds, and under mixed logit, one text at most is written.
pub fn searches_write_once()
    ensures { SearchesWriteOnce }
{}

/// For a chain one text at most is written.
pub fn chains_write_once()
    ensures { ChainsWriteOnce }
{}
