//! Reads a line.
ghost use Rattle.std.specs.Prelude.{◌≡◌, ℕ, ◌+◌, ◌<◌, ◌≤◌, ◌^◌, [], ◌∷◌, ◌++◌, List, length, map, decimal, slice_index, IfSome, IfNone};
ghost use Rattle.proof_lines.specs.Lines.{most_number, spaced, digits_text, value_text, line_text, model_text, IsLine, IsLineText, IsValue, AreDigits, AreNumbers};
ghost use Rattle.proof_lines.specs.Reading.{Reads, form_between, shape_by_head, shape_of_model};
ghost use Rattle.proof_lines.specs.declared.line.Shape.{Shape as ShapeData};

use crate::line::Shape;
use crate::numbers::{read_field, read_front, rest_from};
use crate::print::text_of_model;
use offer_model::{ModelName, Wide};

/// The most digits of a set line.
const MOST_SET_DIGITS: usize = 512;

/// The byte at a place, 0 past the end.
fn byte_at(bytes: &[u8], at: usize) -> u8
    ensures { result ≡ slice_index bytes.now at }
{
    if at < bytes.len() { bytes[at] } else { 0 }
}

/// The model of a model line, by its seventh byte.
fn model_of(byte: u8) -> Shape
    ensures { result ≡ shape_of_model byte }
{
    match byte {
        b'l' => Shape::Model(ModelName::Logit),
        b'a' => Shape::Model(ModelName::Attract),
        b'm' => Shape::Model(ModelName::Mixed),
        _ => Shape::Model(ModelName::Chain),
    }
}

/// The shape of a line, by its first bytes.
fn shape_of(bytes: &[u8]) -> Shape
    ensures { result ≡ shape_by_head bytes.now }
{
    let second = byte_at(bytes, 1);
    match byte_at(bytes, 0) {
        b'a' => Shape::Start,
        b'e' => Shape::End,
        b'v' => Shape::Value,
        b'b' => Shape::Branch,
        b'x' => Shape::Clash,
        b't' => Shape::Shelf,
        b'p' => Shape::Potentials,
        b'u' => Shape::Upper,
        b'h' => Shape::Lower,
        b's' => if second == b'e' {
            Shape::Set
        } else {
            Shape::Segments
        },
        _ => if second == b'o' {
            model_of(byte_at(bytes, 6))
        } else {
            Shape::Multipliers
        },
    }
}

/// Reads numbers with a space before each.
fn read_spaced(bytes: &[u8], numbers: &mut Wide) -> bool
    requires none { numbers.old.items ≡ [] }
    requires room { length bytes.now ≤ numbers.old.spare }
    ensures reads { Reads AreNumbers spaced bytes.now result numbers.new.items }
    ensures room { numbers.new.spare + length numbers.new.items ≡ numbers.old.spare }
{
    let mut at = 0;
    while at < bytes.len() {
        if bytes[at] != b' ' {
            return false;
        }
        let Some(field) = read_field(bytes, at + 1) else {
            return false;
        };
        numbers.push(field.number);
        at += 1 + field.len;
    }
    true
}

/// Reads digits 0 and 1.
fn read_digits(bytes: &[u8], digits: &mut Wide) -> bool
    requires none { digits.old.items ≡ [] }
    requires room { length bytes.now ≤ digits.old.spare }
    ensures reads { Reads AreDigits (map (λ d. 48 + d)) bytes.now result digits.new.items }
    ensures room { digits.new.spare + length digits.new.items ≡ digits.old.spare }
{
    for byte in bytes {
        if *byte != b'0' && *byte != b'1' {
            return false;
        }
        digits.push(u128::from(*byte - b'0'));
    }
    true
}

/// Reads the digits of an assortment, or a dash.
fn read_assortment(bytes: &[u8], digits: &mut Wide) -> bool
    requires none { digits.old.items ≡ [] }
    requires room { length bytes.now ≤ digits.old.spare }
    ensures reads { Reads (IsLine ShapeData.Set) digits_text bytes.now result digits.new.items }
    ensures room { digits.new.spare + length digits.new.items ≡ digits.old.spare }
{
    if bytes == b"-".as_slice() {
        return true;
    }
    if bytes.is_empty() || bytes.len() > MOST_SET_DIGITS {
        return false;
    }
    read_digits(bytes, digits)
}

/// The form of a value line with this byte between its numbers.
fn form_of(between: u8) -> Option<u128>
    ensures { result ≡ form_between between }
{
    match between {
        b'/' => Some(1),
        b' ' => Some(2),
        _ => None,
    }
}

/// Reads the numbers of a value line: its form, and one or two numbers.
fn read_value(bytes: &[u8], numbers: &mut Wide) -> bool
    requires none { numbers.old.items ≡ [] }
    requires room { 3 ≤ numbers.old.spare }
    ensures reads { Reads IsValue value_text bytes.now result numbers.new.items }
    ensures room { numbers.new.spare + length numbers.new.items ≡ numbers.old.spare }
{
    let Some(first) = read_front(bytes) else {
        return false;
    };
    if first.len == bytes.len() {
        numbers.push(0);
        numbers.push(first.number);
        return true;
    }
    let Some(form) = form_of(bytes[first.len]) else {
        return false;
    };
    let Some(second) = read_field(bytes, first.len + 1) else {
        return false;
    };
    if first.len + 1 + second.len != bytes.len() {
        return false;
    }
    numbers.push(form);
    numbers.push(first.number);
    numbers.push(second.number);
    true
}

/// Reads a letter, and numbers with a space before each.
fn read_list(letter: u8, bytes: &[u8], numbers: &mut Wide) -> bool
    requires none { numbers.old.items ≡ [] }
    requires room { length bytes.now ≤ numbers.old.spare }
    ensures reads { Reads AreNumbers (λ ns. letter ∷ spaced ns) bytes.now result numbers.new.items }
    ensures room { numbers.new.spare + length numbers.new.items ≡ numbers.old.spare }
{
    if bytes.is_empty() || bytes[0] != letter {
        return false;
    }
    read_spaced(rest_from(bytes, 1), numbers)
}

/// Reads the digits after `set `.
fn read_set(bytes: &[u8], digits: &mut Wide) -> bool
    requires none { digits.old.items ≡ [] }
    requires room { length bytes.now ≤ digits.old.spare }
    ensures reads { Reads (IsLine ShapeData.Set) (line_text ShapeData.Set) bytes.now result digits.new.items }
    ensures room { digits.new.spare + length digits.new.items ≡ digits.old.spare }
{
    if !bytes.starts_with(b"set ") {
        return false;
    }
    read_assortment(rest_from(bytes, 4), digits)
}

/// Reads the numbers after `value `.
fn read_values(bytes: &[u8], numbers: &mut Wide) -> bool
    requires none { numbers.old.items ≡ [] }
    requires room { length bytes.now ≤ numbers.old.spare }
    ensures reads { Reads IsValue (line_text ShapeData.Value) bytes.now result numbers.new.items }
    ensures room { numbers.new.spare + length numbers.new.items ≡ numbers.old.spare }
{
    if !bytes.starts_with(b"value ") {
        return false;
    }
    read_value(rest_from(bytes, 6), numbers)
}

/// Reads the one number of a branch.
fn read_branch(bytes: &[u8], numbers: &mut Wide) -> bool
    requires none { numbers.old.items ≡ [] }
    requires room { length bytes.now ≤ numbers.old.spare }
    ensures reads { Reads (IsLine ShapeData.Branch) (line_text ShapeData.Branch) bytes.now result numbers.new.items }
    ensures room { numbers.new.spare + length numbers.new.items ≡ numbers.old.spare }
{
    if !read_list(b'b', bytes, numbers) {
        return false;
    }
    numbers.len() == 1
}

/// Reads a line of this shape.
fn read_shape(shape: Shape, bytes: &[u8], numbers: &mut Wide) -> bool
    requires none { numbers.old.items ≡ [] }
    requires room { length bytes.now ≤ numbers.old.spare }
    ensures reads { Reads (IsLine shape) (line_text shape) bytes.now result numbers.new.items }
    ensures room { numbers.new.spare + length numbers.new.items ≡ numbers.old.spare }
{
    match shape {
        Shape::Start => bytes == b"assort-proof 1".as_slice(),
        Shape::Model(model) => bytes == text_of_model(model),
        Shape::Set => read_set(bytes, numbers),
        Shape::Value => read_values(bytes, numbers),
        Shape::Branch => read_branch(bytes, numbers),
        Shape::Clash => bytes == b"x".as_slice(),
        Shape::Multipliers => read_list(b'm', bytes, numbers),
        Shape::Shelf => bytes == b"t".as_slice(),
        Shape::Potentials => read_list(b'p', bytes, numbers),
        Shape::Segments => read_list(b's', bytes, numbers),
        Shape::Upper => read_list(b'u', bytes, numbers),
        Shape::Lower => read_list(b'h', bytes, numbers),
        Shape::End => bytes == b"end".as_slice(),
    }
}

/// The line that these bytes are, which stand without a line feed: its shape, and its numbers in `numbers`.
/// `None` where no line has this text.
pub fn read_line(bytes: &[u8], numbers: &mut Wide) -> Option<Shape>
    requires { length bytes.now < numbers.old.spare + length numbers.old.items }
    ensures found { IfSome result (λ shape. IsLine shape numbers.new.items) }
    ensures text { IfSome result (λ shape. line_text shape numbers.new.items ≡ bytes.now) }
    ensures none { IfNone result (¬ IsLineText bytes.now) }
    ensures empty { IfNone result (numbers.new.items ≡ []) }
    ensures room { numbers.new.spare + length numbers.new.items ≡ numbers.old.spare + length numbers.old.items }
{
    numbers.clear();
    let shape = shape_of(bytes);
    if read_shape(shape, bytes, numbers) {
        return Some(shape);
    }
    numbers.clear();
    None
}
