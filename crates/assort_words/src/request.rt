//! What is asked for: a command, and the word that is given for each key.
ghost use Rattle.std.specs.Prelude.{◌≡◌, ◌≤◌, IfSome, IsTrue};
ghost use Rattle.std.specs.Option.{option_copied};
ghost use Rattle.offer_model.specs.Validity.{IsPositiveAmount};
ghost use Rattle.assort_words.specs.Keys.{domain_of, is_in_domain};
ghost use Rattle.assort_words.specs.Asked.{IsInDomains, bare_request, word_of, with_word, is_given, asked_model, asked_products, asked_limits, asked_segments, asked_arcs, asked_none, asked_away, asked_unit, asked_scale, asked_proof, asked_workers, asked_offer, asked_seed, asked_count, asked_save};
ghost use Rattle.assort_words.specs.Offers.{is_assortment};

use crate::keys::{KEY_SLOTS, MOST_TRIAL, MOST_WORKERS};
use crate::usage::{Command, Key};
use crate::values::{read_model, read_within};
use offer_model::{MOST_AMOUNT, MOST_SCALE, ModelName};
use std::marker::Model;

/// What is asked for. It borrows its texts from the words.
#[derive(Drop)]
pub struct Request<'a> {
    command: Command,
    words: [Option<&'a str>; KEY_SLOTS],
}

impl<'a> Model for Request<'a> {
    ghost use Rattle.std.specs.Prelude.{map};
    ghost use Rattle.std.specs.Option.{option_copied};
    ghost use Rattle.assort_words.specs.Asked.{RequestData, IsInDomains};

    ghost Value = { RequestData };

    ghost view = { λ r. record { command = r.command; words = map option_copied r.words } };

    ghost invariant = { λ r. IsInDomains (record { command = r.command; words = map option_copied r.words }) };
}

impl<'a> Request<'a> {
    /// A command, and no key yet.
    pub(crate) fn bare(command: Command) -> Request<'a>
        ensures { result ≡ bare_request command }
    {
        Request {
            command,
            words: [None; KEY_SLOTS],
        }
    }

    /// The word that is given for the key.
    pub(crate) fn word(&self, key: Key) -> Option<&'a str>
        ensures value { option_copied result ≡ word_of self.now key }
        ensures valid { IsInDomains self.now }
    {
        self.words[key.index()]
    }

    pub(crate) fn has(&self, key: Key) -> bool
        ensures { result ≡ is_given self.now key }
    {
        self.word(key).is_some()
    }

    /// The request with one more word, which is one of the key's values.
    pub(crate) fn with_word(mut self, key: Key, word: &'a str) -> Request<'a>
        requires { IsTrue (is_in_domain (domain_of key self.command) word.now) }
        ensures { result ≡ with_word self.entry key word.now }
    {
        self.words[key.index()] = Some(word);
        self
    }

    pub fn command(&self) -> Command
        ensures { result ≡ self.now.command }
    {
        self.command
    }

    /// `None` exactly where the key isn't given; so do the next fourteen.
    pub fn model(&self) -> Option<ModelName>
        ensures value { result ≡ asked_model self.now }
        ensures valid { IsInDomains self.now }
    {
        read_model(self.word(Key::Model)?)
    }

    pub fn products(&self) -> Option<&'a str>
        ensures { option_copied result ≡ asked_products self.now }
    {
        self.word(Key::Products)
    }

    pub fn limits(&self) -> Option<&'a str>
        ensures { option_copied result ≡ asked_limits self.now }
    {
        self.word(Key::Limits)
    }

    pub fn segments(&self) -> Option<&'a str>
        ensures { option_copied result ≡ asked_segments self.now }
    {
        self.word(Key::Segments)
    }

    pub fn arcs(&self) -> Option<&'a str>
        ensures { option_copied result ≡ asked_arcs self.now }
    {
        self.word(Key::Arcs)
    }

    pub fn none(&self) -> Option<u64>
        ensures value { result ≡ asked_none self.now }
        ensures valid { IfSome result IsPositiveAmount }
    {
        read_within(self.word(Key::NoneWeight)?, 1, MOST_AMOUNT)
    }

    pub fn away(&self) -> Option<u64>
        ensures value { result ≡ asked_away self.now }
        ensures valid { IfSome result (λ n. n ≤ 1000000000) }
    {
        read_within(self.word(Key::Away)?, 0, MOST_AMOUNT)
    }

    pub fn unit(&self) -> Option<u64>
        ensures value { result ≡ asked_unit self.now }
        ensures valid { IfSome result IsPositiveAmount }
    {
        read_within(self.word(Key::Unit)?, 1, MOST_AMOUNT)
    }

    pub fn scale(&self) -> Option<u64>
        ensures value { result ≡ asked_scale self.now }
        ensures range { IfSome result (λ n. (1 ≤ n) × (n ≤ 10000)) }
    {
        read_within(self.word(Key::Scale)?, 1, MOST_SCALE)
    }

    pub fn proof(&self) -> Option<&'a str>
        ensures { option_copied result ≡ asked_proof self.now }
    {
        self.word(Key::Proof)
    }

    pub fn workers(&self) -> Option<u64>
        ensures value { result ≡ asked_workers self.now }
        ensures range { IfSome result (λ n. (1 ≤ n) × (n ≤ 64)) }
    {
        read_within(self.word(Key::Workers)?, 1, MOST_WORKERS)
    }

    pub fn offer(&self) -> Option<&'a str>
        ensures value { option_copied result ≡ asked_offer self.now }
        ensures valid { IfSome result (λ word. IsTrue (is_assortment word.now)) }
    {
        self.word(Key::Offer)
    }

    pub fn seed(&self) -> Option<u64>
        ensures { result ≡ asked_seed self.now }
    {
        read_within(self.word(Key::Seed)?, 0, u64::MAX)
    }

    pub fn count(&self) -> Option<u64>
        ensures value { result ≡ asked_count self.now }
        ensures range { IfSome result (λ n. n ≤ 256) }
    {
        read_within(self.word(Key::Count)?, 0, MOST_TRIAL)
    }

    pub fn save(&self) -> Option<&'a str>
        ensures { option_copied result ≡ asked_save self.now }
    {
        self.word(Key::Save)
    }
}
