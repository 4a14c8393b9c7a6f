//! Commands, keys and refusals.
/// What the program is asked to do.
#[derive(Clone, Copy, Debug, PartialEq, Eq)]
pub enum Command {
    Solve,
    Check,
    /// What a given assortment brings.
    Eval,
    /// A problem that is made from a seed, and solved.
    Trial,
}

/// The keys of the command line, in the order in which a missing one is named.
#[derive(Clone, Copy, Debug, PartialEq, Eq)]
pub enum Key {
    Model,
    Products,
    Limits,
    Segments,
    Arcs,
    /// `--none`, the weight of buying nothing.
    NoneWeight,
    /// `--away`, the weight of the customers of a chain who arrive at no product.
    Away,
    /// `--unit`, the step to which a segment's revenue is rounded down.
    Unit,
    /// `--scale`, the parts in which a chain counts the customers at a product.
    Scale,
    Proof,
    /// `--workers`, the number of threads that search.
    Workers,
    /// `--offer`, the assortment that is evaluated.
    Offer,
    Seed,
    /// `--count`, the number of products that are made.
    Count,
    /// `--save`, the file that the products are written to.
    Save,
    /// A fault that is about no key has this one.
    NoKey,
}

/// Why words are refused.
#[derive(Clone, Copy, Debug, PartialEq, Eq)]
pub enum UsageCode {
    NoCommand,
    UnknownCommand,
    UnknownOption,
    RepeatedOption,
    MissingValue,
    /// Nested logit is refused by its name.
    Nested,
    BadValue,
    MissingOption,
    /// A key that the model doesn't use.
    UnusedOption,
    /// The proof has the name of a file that is read.
    ProofIsInput,
}

/// The first refusal of words.
#[derive(Clone, Copy, Debug, PartialEq, Eq)]
pub struct UsageFault {
    pub code: UsageCode,
    /// Words are counted from 1; 0 where the fault is at no word.
    pub word: usize,
    /// The key that is missing or not used, else `NoKey`.
    pub key: Key,
}
