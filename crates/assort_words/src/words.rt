//! Words read in pairs of a key and its word, and what a request has to have.
ghost use Rattle.std.specs.Prelude.{◌≡◌, ◌+◌, ◌-◌, ◌<◌, ◌≤◌, length, unwrap_or, IfOk, drop};
ghost use Rattle.std.specs.List.{find};
ghost use Rattle.std.specs.Option.{option_copied};
ghost use Rattle.offer_model.specs.declared.products.ModelName.TheVariants as name;
ghost use Rattle.assort_words.specs.Keys.{keys};
ghost use Rattle.assort_words.specs.Asked.{asked_of, bare_request, command_of, key_of, asked_model, new_key, new_word, with_pairs, is_missing, is_unused, completed, is_named, proof_is_input, IsComplete};

use crate::keys::{Domain, KEYS};
use crate::request::Request;
use crate::usage::{Command, Key, UsageCode, UsageFault};
use offer_model::{ModelName, Texts};

fn refused_at(code: UsageCode, word: usize) -> UsageFault
    ensures { result ≡ record { code = code; word = word; key = Key.NoKey } }
{
    UsageFault {
        code,
        word,
        key: Key::NoKey,
    }
}

fn refused_for(code: UsageCode, key: Key) -> UsageFault
    ensures { result ≡ record { code = code; word = 0; key = key } }
{
    UsageFault { code, word: 0, key }
}

fn read_command(word: &str) -> Option<Command>
    ensures { result ≡ command_of word.now }
{
    if word == "solve" {
        return Some(Command::Solve);
    }
    if word == "check" {
        return Some(Command::Check);
    }
    if word == "eval" {
        return Some(Command::Eval);
    }
    if word == "trial" {
        return Some(Command::Trial);
    }
    None
}

/// The key of the command that a word names.
fn read_key(command: Command, word: &str) -> Option<Key>
    ensures { result ≡ key_of command word.now }
{
    KEYS.iter()
        .copied()
        .find(|key| key.use_by(command).is_known() && key.text() == word)
}

/// The key of the word at place `p`, which is new.
fn new_key(request: &Request<'_>, p: usize, word: &str) -> Result<Key, UsageFault>
    ensures { result ≡ new_key request.now p word.now }
{
    let Some(key) = read_key(request.command(), word) else {
        return Err(refused_at(UsageCode::UnknownOption, p));
    };
    if request.has(key) {
        return Err(refused_at(UsageCode::RepeatedOption, p));
    }
    Ok(key)
}

/// The request with the word at place `p` for the key.
fn new_word<'a>(
    request: Request<'a>,
    key: Key,
    p: usize,
    word: &'a str,
) -> Result<Request<'a>, UsageFault>
    ensures { result ≡ new_word request.entry key p word.now }
{
    let domain = key.domain_in(request.command());
    if matches!(domain, Domain::Models(_)) && word == "nested" {
        return Err(refused_at(UsageCode::Nested, p));
    }
    if !domain.has(word) {
        return Err(refused_at(UsageCode::BadValue, p));
    }
    Ok(request.with_word(key, word))
}

/// The request with the pairs of the words from the second on.
fn with_pairs<'a>(words: &'a Texts, command: Command) -> Result<Request<'a>, UsageFault>
    requires { 0 < length words.now }
    ensures { result ≡ with_pairs (bare_request command) 2 (drop 1 words.now) }
{
    let mut request = Request::bare(command);
    let mut at = 1;
    'pairs: while at < words.len() {
        let key = match new_key(&request, at + 1, words.get(at)) {
            Err(fault) => return Err(fault),
            Ok(key) => key,
        };
        if at + 1 == words.len() {
            return Err(refused_at(UsageCode::MissingValue, at + 1));
        }
        request = match new_word(request, key, at + 2, words.get(at + 1)) {
            Err(fault) => return Err(fault),
            Ok(more) => more,
        };
        at += 2;
    }
    Ok(request)
}

/// The first key that the command and the model need, and that isn't given.
fn missing_key(request: &Request<'_>, model: ModelName) -> Option<Key>
    requires { model ≡ unwrap_or (asked_model request.now) name.Logit }
    ensures { result ≡ find (is_missing request.now) keys }
{
    let command = request.command();
    KEYS.iter().copied().find(|key| key.use_by(command).is_needed(model) && !request.has(*key))
}

/// The first key that is given and that the model doesn't use.
fn unused_key(request: &Request<'_>, model: ModelName) -> Option<Key>
    requires { model ≡ unwrap_or (asked_model request.now) name.Logit }
    ensures { result ≡ find (is_unused request.now) keys }
{
    let command = request.command();
    KEYS.iter().copied().find(|key| request.has(*key) && !key.use_by(command).is_used(model))
}

/// Whether a file of this name is asked for.
fn is_named(name: &str, other: Option<&str>) -> bool
    ensures { result ≡ is_named name.now (option_copied other.entry) }
{
    match other {
        None => false,
        Some(other) => name == other,
    }
}

/// Whether the proof has the name of a file that is read.
fn proof_is_input(request: &Request<'_>) -> bool
    ensures { result ≡ proof_is_input request.now }
{
    let Some(proof) = request.proof() else {
        return false;
    };
    is_named(proof, request.products())
        || is_named(proof, request.limits())
        || is_named(proof, request.segments())
        || is_named(proof, request.arcs())
}

/// A request that has all that its command and model need, and nothing else.
fn completed<'a>(request: Request<'a>) -> Result<Request<'a>, UsageFault>
    ensures value { result ≡ completed request.entry }
    ensures complete { IfOk result IsComplete }
{
    let model = request.model().unwrap_or(ModelName::Logit);
    if let Some(key) = missing_key(&request, model) {
        return Err(refused_for(UsageCode::MissingOption, key));
    }
    if let Some(key) = unused_key(&request, model) {
        return Err(refused_for(UsageCode::UnusedOption, key));
    }
    if proof_is_input(&request) {
        return Err(refused_at(UsageCode::ProofIsInput, 0));
    }
    Ok(request)
}

/// The request of the words, or their first refusal. It takes no memory.
pub fn read_words<'a>(words: &'a Texts) -> Result<Request<'a>, UsageFault>
    ensures value { result ≡ asked_of words.now }
    ensures complete { IfOk result IsComplete }
{
    if words.len() == 0 {
        return Err(refused_at(UsageCode::NoCommand, 0));
    }
    let Some(command) = read_command(words.get(0)) else {
        return Err(refused_at(UsageCode::UnknownCommand, 1));
    };
    match with_pairs(words, command) {
        Err(fault) => Err(fault),
        Ok(request) => completed(request),
    }
}
