//! The values of keys, read from their words.
ghost use Rattle.std.specs.Prelude.{◌≡◌, ◌≤◌, IfSome};
ghost use Rattle.std.specs.List.{list_all};
ghost use Rattle.assort_words.specs.Keys.{model_of, number_within};
ghost use Rattle.assort_words.specs.Offers.{is_mark, is_assortment};

use offer_model::{ModelName, read_number};

pub(crate) fn read_model(word: &str) -> Option<ModelName>
    ensures { result ≡ model_of word.now }
{
    if word == "logit" {
        return Some(ModelName::Logit);
    }
    if word == "attract" {
        return Some(ModelName::Attract);
    }
    if word == "mixed" {
        return Some(ModelName::Mixed);
    }
    if word == "chain" {
        return Some(ModelName::Chain);
    }
    None
}

/// A number between two bounds.
pub(crate) fn read_within(word: &str, low: u64, high: u64) -> Option<u64>
    ensures value { result ≡ number_within low high word.now }
    ensures bounds { IfSome result (λ n. (low ≤ n) × (n ≤ high)) }
{
    let number = read_number(word.as_bytes())?;
    if number < u128::from(low) || number > u128::from(high) {
        return None;
    }
    Some(number as u64)
}

/// The most characters of an assortment.
const MOST_MARKS: usize = 512;

fn are_marks(text: &[u8]) -> bool
    ensures { result ≡ list_all is_mark text.now }
{
    text.iter().all(|byte| *byte == b'0' || *byte == b'1')
}

/// Whether the word writes an assortment.
pub(crate) fn is_assortment(word: &str) -> bool
    ensures { result ≡ is_assortment word.now }
{
    if word == "-" {
        return true;
    }
    let text = word.as_bytes();
    !text.is_empty() && text.len() <= MOST_MARKS && are_marks(text)
}
