//! Numbers of a line, in decimal.
ghost use Rattle.std.specs.Prelude.{◌≡◌, ℕ, ◌+◌, ◌-◌, ◌*◌, ◌<◌, ◌≤◌, ◌^◌, ◌++◌, length, take, drop, decimal, IfSome, IfNone};
ghost use Rattle.std.specs.Int.{IsInRange};
ghost use Rattle.std.specs.Str.Parse.{AllDigits, digits_value};
ghost use Rattle.proof_lines.specs.Lines.{most_number};
ghost use Rattle.proof_lines.specs.Reading.{IsPastDigits, FieldOf};

use offer_model::Bytes;

/// The greatest number of a line, 2 to the power of 108.
pub const MOST_NUMBER: u128 = 324_518_553_658_426_726_783_156_020_576_256;

/// The most digits of a number.
const MOST_NUMBER_DIGITS: usize = 33;

/// Puts a number last, in decimal.
pub(crate) fn push_number(number: u128, out: &mut Bytes)
    requires { length (decimal number) ≤ out.old.spare }
    ensures items { out.new.items ≡ out.old.items ++ decimal number }
    ensures spare { out.new.spare + length (decimal number) ≡ out.old.spare }
{
    if number < 10 {
        out.push(b'0' + number as u8);
    } else {
        push_number(number / 10, out);
        out.push(b'0' + (number % 10) as u8);
    }
}

/// How many digits the bytes begin with.
fn digit_count(bytes: &[u8]) -> usize
    ensures bound { result ≤ length bytes.now }
    ensures digits { AllDigits 10 (take result bytes.now) }
    ensures past { IsPastDigits (drop result bytes.now) }
{
    for i in 0..bytes.len() {
        if !bytes[i].is_ascii_digit() {
            return i;
        }
    }
    bytes.len()
}

/// The number that one more digit makes.
fn with_digit(value: u128, digit: u8) -> u128
    requires value { value < 10 ^ 32 }
    requires digit { IsInRange 48 57 digit }
    ensures { result ≡ value * 10 + (digit - 48) }
{
    value * 10 + u128::from(digit - b'0')
}

/// The number that digits write.
fn value_of_digits(digits: &[u8]) -> u128
    requires digits { AllDigits 10 digits.now }
    requires few { length digits.now ≤ MOST_NUMBER_DIGITS }
    ensures { result ≡ digits_value 10 digits.now }
{
    let mut value = 0u128;
    for digit in digits {
        value = with_digit(value, *digit);
    }
    value
}

/// The number that these digits write without leading zeros, where it isn't too great.
fn number_of_digits(digits: &[u8]) -> Option<u128>
    requires { AllDigits 10 digits.now }
    ensures some { IfSome result (λ n. (n ≤ most_number) × (decimal n ≡ digits.now)) }
    ensures none { IfNone result ((n : ℕ) → n ≤ most_number → decimal n ≡ digits.now → ⊥) }
{
    if digits.is_empty() || digits.len() > MOST_NUMBER_DIGITS {
        return None;
    }
    if digits[0] == b'0' && digits.len() > 1 {
        return None;
    }
    let value = value_of_digits(digits);
    if value > MOST_NUMBER {
        return None;
    }
    Some(value)
}

/// A number that bytes begin with, and how many of them it takes.
#[derive(Clone, Copy)]
pub(crate) struct Field {
    pub(crate) number: u128,
    pub(crate) len: usize,
}

/// The number that the bytes begin with.
pub(crate) fn read_front(bytes: &[u8]) -> Option<Field>
    ensures { FieldOf bytes.now result }
{
    let len = digit_count(bytes);
    match number_of_digits(&bytes[..len]) {
        Some(number) => Some(Field { number, len }),
        None => None,
    }
}

/// The bytes from a place on.
pub(crate) fn rest_from(bytes: &[u8], from: usize) -> &[u8]
    requires { from ≤ length bytes.now }
    ensures { result.now ≡ drop from bytes.now }
{
    &bytes[from..]
}

/// The number that stands at a place.
pub(crate) fn read_field(bytes: &[u8], from: usize) -> Option<Field>
    requires { from ≤ length bytes.now }
    ensures { FieldOf (drop from bytes.now) result }
{
    read_front(rest_from(bytes, from))
}
