//! Prints a line.
ghost use Rattle.std.specs.Prelude.{◌≡◌, ℕ, ◌+◌, ◌<◌, ◌≤◌, [], ◌∷◌, ◌++◌, List, length, map, decimal};
ghost use Rattle.proof_lines.specs.Lines.{spaced, digits_text, value_text, line_text, model_text, IsLine, IsValue, AreDigits};

use crate::line::{Line, Shape};
use crate::numbers::push_number;
use offer_model::{Bytes, ModelName, Wide};

/// The text of a model line.
pub(crate) fn text_of_model(model: ModelName) -> &'static [u8]
    ensures { result.now ≡ model_text model }
{
    match model {
        ModelName::Logit => b"model logit",
        ModelName::Attract => b"model attract",
        ModelName::Mixed => b"model mixed",
        ModelName::Chain => b"model chain",
    }
}

/// Puts numbers last, with a space before each.
fn push_spaced(numbers: &Wide, out: &mut Bytes)
    requires { length (spaced numbers.now.items) ≤ out.old.spare }
    ensures items { out.new.items ≡ out.old.items ++ spaced numbers.now.items }
    ensures spare { out.new.spare + length (spaced numbers.now.items) ≡ out.old.spare }
{
    for k in 0..numbers.len() {
        out.push(b' ');
        push_number(*numbers.get(k), out);
    }
}

/// The byte of a digit.
fn byte_of_digit(digit: u128) -> u8
    requires { digit < 2 }
    ensures { result ≡ 48 + digit }
{
    b'0' + digit as u8
}

/// Puts digits last.
fn push_digits(digits: &Wide, out: &mut Bytes)
    requires digits { AreDigits digits.now.items }
    requires room { length digits.now.items ≤ out.old.spare }
    ensures items { out.new.items ≡ out.old.items ++ map (λ d. 48 + d) digits.now.items }
    ensures spare { out.new.spare + length digits.now.items ≡ out.old.spare }
{
    for k in 0..digits.len() {
        out.push(byte_of_digit(*digits.get(k)));
    }
}

/// Puts the digits of an assortment last, or a dash where there are none.
fn push_assortment(digits: &Wide, out: &mut Bytes)
    requires digits { AreDigits digits.now.items }
    requires room { length (digits_text digits.now.items) ≤ out.old.spare }
    ensures items { out.new.items ≡ out.old.items ++ digits_text digits.now.items }
    ensures spare { out.new.spare + length (digits_text digits.now.items) ≡ out.old.spare }
{
    if digits.len() == 0 {
        out.push(b'-');
    } else {
        push_digits(digits, out);
    }
}

/// Puts two numbers last, with a byte between them.
fn push_pair(first: u128, between: u8, second: u128, out: &mut Bytes)
    requires { length (decimal first) + (1 + length (decimal second)) ≤ out.old.spare }
    ensures items { out.new.items ≡ out.old.items ++ (decimal first ++ between ∷ decimal second) }
    ensures spare { out.new.spare + (length (decimal first) + (1 + length (decimal second))) ≡ out.old.spare }
{
    push_number(first, out);
    out.push(between);
    push_number(second, out);
}

/// Puts the numbers of a value line last.
fn push_value(numbers: &Wide, out: &mut Bytes)
    requires numbers { IsValue numbers.now.items }
    requires room { length (value_text numbers.now.items) ≤ out.old.spare }
    ensures items { out.new.items ≡ out.old.items ++ value_text numbers.now.items }
    ensures spare { out.new.spare + length (value_text numbers.now.items) ≡ out.old.spare }
{
    let form = *numbers.get(0);
    let first = *numbers.get(1);
    if form == 0 {
        push_number(first, out);
    } else {
        let between = if form == 1 { b'/' } else { b' ' };
        push_pair(first, between, *numbers.get(2), out);
    }
}

/// Puts a letter and numbers last.
fn push_list(letter: u8, numbers: &Wide, out: &mut Bytes)
    requires { length (letter ∷ spaced numbers.now.items) ≤ out.old.spare }
    ensures items { out.new.items ≡ out.old.items ++ letter ∷ spaced numbers.now.items }
    ensures spare { out.new.spare + length (letter ∷ spaced numbers.now.items) ≡ out.old.spare }
{
    out.push(letter);
    push_spaced(numbers, out);
}

/// Puts the text of a line last, without its line feed.
fn push_line(shape: Shape, numbers: &Wide, out: &mut Bytes)
    requires line { IsLine shape numbers.now.items }
    requires room { length (line_text shape numbers.now.items) ≤ out.old.spare }
    ensures items { out.new.items ≡ out.old.items ++ line_text shape numbers.now.items }
    ensures spare { out.new.spare + length (line_text shape numbers.now.items) ≡ out.old.spare }
{
    match shape {
        Shape::Start => out.push_slice(b"assort-proof 1"),
        Shape::Model(model) => out.push_slice(text_of_model(model)),
        Shape::Set => {
            out.push_slice(b"set ");
            push_assortment(numbers, out);
        }
        Shape::Value => {
            out.push_slice(b"value ");
            push_value(numbers, out);
        }
        Shape::Branch => push_list(b'b', numbers, out),
        Shape::Clash => out.push(b'x'),
        Shape::Multipliers => push_list(b'm', numbers, out),
        Shape::Shelf => out.push(b't'),
        Shape::Potentials => push_list(b'p', numbers, out),
        Shape::Segments => push_list(b's', numbers, out),
        Shape::Upper => push_list(b'u', numbers, out),
        Shape::Lower => push_list(b'h', numbers, out),
        Shape::End => out.push_slice(b"end"),
    }
}

/// Puts the text of a line last, with its line feed. A line and its text: see the shapes.
pub fn print_line(line: &Line, out: &mut Bytes)
    requires line { IsLine line.now.shape line.now.numbers.items }
    requires room { length (line_text line.now.shape line.now.numbers.items) < out.old.spare }
    ensures text { out.new.items ≡ out.old.items ++ (line_text line.now.shape line.now.numbers.items ++ 10 ∷ []) }
    ensures spare { out.new.spare + (length (line_text line.now.shape line.now.numbers.items) + 1) ≡ out.old.spare }
{
    push_line(line.shape, &line.numbers, out);
    out.push(b'\n');
}
