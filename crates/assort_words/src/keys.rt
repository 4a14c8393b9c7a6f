//! The table of keys: for each its text, its use by command and model, and its domain.
ghost use Rattle.std.specs.Prelude.{◌≡◌, ◌≤◌, length, IsTrue, IsSome};
ghost use Rattle.assort_words.specs.declared.usage.Command.TheVariants.{Solve, Check, Eval, Trial};
ghost use Rattle.assort_words.specs.Keys.{index_of, text_of, domain_of, use_of, models_of, model_of, is_in_domain, is_among, is_asked_of, is_known, is_needed, is_used};

use crate::usage::{Command, Key};
use crate::values::{is_assortment, read_model, read_within};
use offer_model::{MOST_AMOUNT, MOST_SCALE, ModelName};

/// The keys, in the order in which they are looked at.
pub(crate) const KEYS: [Key; 15] = [
    Key::Model,
    Key::Products,
    Key::Limits,
    Key::Segments,
    Key::Arcs,
    Key::NoneWeight,
    Key::Away,
    Key::Unit,
    Key::Scale,
    Key::Proof,
    Key::Workers,
    Key::Offer,
    Key::Seed,
    Key::Count,
    Key::Save,
];

/// The greatest number that `--workers` takes, as the formats say.
pub const MOST_WORKERS: u64 = 64;

/// The greatest number that `--count` takes, the most products of a trial, as the formats say.
pub const MOST_TRIAL: u64 = 256;

/// A slot for each `Key`, with `NoKey`, whose slot stays empty.
pub const KEY_SLOTS: usize = 16;

/// The values that a key may have.
#[derive(Clone, Copy)]
pub enum Domain {
    /// The name of a model of the group.
    Models(Group),
    /// A file's name: any text that isn't empty.
    Files,
    /// `-` for no products, or a character `0` or `1` for each product.
    Assortments,
    /// The numbers from the first to the second.
    Numbers(u64, u64),
}

/// The models that a key goes with.
#[derive(Clone, Copy)]
pub enum Group {
    All,
    /// Logit and attraction, whose revenue is one ratio.
    Ratio,
    /// Mixed logit, whose customers differ by segment.
    Mixed,
    /// Markov chain choice.
    Chain,
    /// All whose assortments may have limits: all but Markov chain choice.
    Limited,
}

/// What a command makes of a key.
#[derive(Clone, Copy)]
pub enum Use {
    Never,
    May,
    Must,
    /// Only with these models.
    MayWith(Group),
    /// With these models, and only with them.
    MustWith(Group),
}

/// A line of the table: the key as it is written, and what each command makes of it.
#[derive(Clone, Copy)]
struct KeyRow {
    text: &'static str,
    solve: Use,
    check: Use,
    eval: Use,
    trial: Use,
}

impl Key {
    /// The key's line.
    fn row(self) -> KeyRow
        ensures text { result.text.now ≡ text_of self }
        ensures short { length result.text.now ≤ 10 }
        ensures solve { result.solve ≡ use_of self Solve }
        ensures check { result.check ≡ use_of self Check }
        ensures eval { result.eval ≡ use_of self Eval }
        ensures trial { result.trial ≡ use_of self Trial }
    {
        let (no, may, must) = (Use::Never, Use::May, Use::Must);
        let for_ratio = Use::MustWith(Group::Ratio);
        let for_mixed = Use::MustWith(Group::Mixed);
        let with_mixed = Use::MayWith(Group::Mixed);
        let for_chain = Use::MustWith(Group::Chain);
        let with_chain = Use::MayWith(Group::Chain);
        let with_limits = Use::MayWith(Group::Limited);
        let (text, solve, check, eval, trial) = match self {
            Key::Model => ("--model", must, must, must, no),
            Key::Products => ("--products", must, must, must, no),
            Key::Limits => ("--limits", with_limits, with_limits, with_limits, no),
            Key::Segments => ("--segments", for_mixed, for_mixed, for_mixed, no),
            Key::Arcs => ("--arcs", for_chain, for_chain, no, no),
            Key::NoneWeight => ("--none", for_ratio, for_ratio, for_ratio, no),
            Key::Away => ("--away", with_chain, with_chain, no, no),
            Key::Unit => ("--unit", with_mixed, with_mixed, with_mixed, no),
            Key::Scale => ("--scale", for_chain, for_chain, no, no),
            Key::Proof => ("--proof", may, must, no, no),
            Key::Workers => ("--workers", with_mixed, no, no, may),
            Key::Offer => ("--offer", no, no, must, no),
            Key::Seed => ("--seed", no, no, no, must),
            Key::Count => ("--count", no, no, no, must),
            Key::Save => ("--save", no, no, no, may),
            Key::NoKey => ("", no, no, no, no),
        };
        KeyRow {
            text,
            solve,
            check,
            eval,
            trial,
        }
    }

    /// The key as it is written.
    pub fn text(self) -> &'static str
        ensures text { result.now ≡ text_of self }
        ensures short { length result.now ≤ 10 }
    {
        self.row().text
    }

    pub(crate) fn index(self) -> usize
        ensures { result ≡ index_of self }
    {
        self as usize
    }

    /// The values that the key may have in the command.
    pub(crate) fn domain_in(self, command: Command) -> Domain
        ensures { result ≡ domain_of self command }
    {
        match self {
            Key::Model => Domain::Models(command.models()),
            Key::Products | Key::Limits | Key::Segments | Key::Arcs => Domain::Files,
            Key::NoneWeight | Key::Unit => Domain::Numbers(1, MOST_AMOUNT),
            Key::Away => Domain::Numbers(0, MOST_AMOUNT),
            Key::Scale => Domain::Numbers(1, MOST_SCALE),
            Key::Workers => Domain::Numbers(1, MOST_WORKERS),
            Key::Offer => Domain::Assortments,
            Key::Seed => Domain::Numbers(0, u64::MAX),
            Key::Count => Domain::Numbers(0, MOST_TRIAL),
            Key::Proof | Key::Save | Key::NoKey => Domain::Files,
        }
    }

    pub(crate) fn use_by(self, command: Command) -> Use
        ensures { result ≡ use_of self command }
    {
        match command {
            Command::Solve => self.row().solve,
            Command::Check => self.row().check,
            Command::Eval => self.row().eval,
            Command::Trial => self.row().trial,
        }
    }
}

impl Command {
    /// The models that the command knows.
    fn models(self) -> Group
        ensures { result ≡ models_of self }
    {
        match self {
            Command::Eval => Group::Limited,
            Command::Solve | Command::Check | Command::Trial => Group::All,
        }
    }
}

impl Domain {
    pub(crate) fn has(self, word: &str) -> bool
        ensures { result ≡ is_in_domain self word.now }
    {
        match self {
            Domain::Models(group) => group.has_named(word),
            Domain::Files => !word.is_empty(),
            Domain::Assortments => is_assortment(word),
            Domain::Numbers(low, high) => read_within(word, low, high).is_some(),
        }
    }
}

impl Group {
    fn has(self, model: ModelName) -> bool
        ensures { result ≡ is_among self model }
    {
        match self {
            Group::All => true,
            Group::Ratio => matches!(model, ModelName::Logit | ModelName::Attract),
            Group::Mixed => model == ModelName::Mixed,
            Group::Chain => model == ModelName::Chain,
            Group::Limited => model != ModelName::Chain,
        }
    }

    /// Whether the word names a model of the group.
    fn has_named(self, word: &str) -> bool
        ensures { result ≡ is_asked_of self (model_of word.now) }
    {
        match read_model(word) {
            None => false,
            Some(model) => self.has(model),
        }
    }
}

impl Use {
    /// Whether the command has the key at all.
    pub(crate) fn is_known(self) -> bool
        ensures { result ≡ is_known self }
    {
        !matches!(self, Use::Never)
    }

    /// Whether the key has to be given with the model.
    pub(crate) fn is_needed(self, model: ModelName) -> bool
        ensures { result ≡ is_needed self model }
    {
        match self {
            Use::Never | Use::May | Use::MayWith(_) => false,
            Use::Must => true,
            Use::MustWith(group) => group.has(model),
        }
    }

    /// Whether the key may be given with the model.
    pub(crate) fn is_used(self, model: ModelName) -> bool
        ensures { result ≡ is_used self model }
    {
        match self {
            Use::Never => false,
            Use::May | Use::Must => true,
            Use::MayWith(group) | Use::MustWith(group) => group.has(model),
        }
    }
}
