//! Numbers in words and files.
ghost use Rattle.std.specs.Prelude.{◌≡◌};
ghost use Rattle.offer_model.specs.Numerals.{number_of};

/// The most digits of a number in a word or a file.
pub const MOST_DIGITS: usize = 20;

/// The number that 1 to 20 ASCII digits write, leading zeros among them; `None` for any other text.
pub fn read_number(text: &[u8]) -> Option<u128>
    ensures { result ≡ number_of text.now }
{
    if text.is_empty() || text.len() > MOST_DIGITS {
        return None;
    }
    let mut value = 0u128;
    for digit in text {
        if !digit.is_ascii_digit() {
            return None;
        }
        value = value * 10 + u128::from(*digit - b'0');
    }
    Some(value)
}
