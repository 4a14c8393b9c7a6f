//! Pieces of reports: numbers, the model, the assortment and what it earns.
ghost use Rattle.std.specs.Prelude.{◌≡◌, ◌++◌, length, codes, decimal, OnOk};
ghost use Rattle.offer_model.specs.Problems.{product_count};
ghost use Rattle.offer_model.specs.Validity.{IsRatioModel};
ghost use Rattle.assort_reports.specs.Reports.{model_text, digit_of, word_text, set_line, ratio_line, mixed_lines, value_lines};

use itoa::Buffer;
use offer_model::{Assortment, Bytes, ModelName, NoMemory, Problem, mixed_value, revenue};

/// Puts a piece last, and makes room for it first.
pub fn put(text: &mut Bytes, piece: &[u8]) -> Result<(), NoMemory>
    ensures { OnOk result (text.new.items ≡ text.old.items ++ piece.now) }
{
    text.reserve(piece.len())?;
    text.push_slice(piece);
    Ok(())
}

/// Puts a number last, in decimal. `NoMemory` is the one failure of all these.
pub fn put_number(text: &mut Bytes, number: u128) -> Result<(), NoMemory>
    ensures { OnOk result (text.new.items ≡ text.old.items ++ decimal number) }
{
    put(text, Buffer::new().format(number).as_bytes())
}

/// A model as it is written.
pub fn model_text(model: ModelName) -> &'static str
    ensures { result.now ≡ model_text model }
{
    match model {
        ModelName::Logit => "logit",
        ModelName::Attract => "attract",
        ModelName::Mixed => "mixed",
        ModelName::Chain => "chain",
    }
}

fn digit(offered: bool) -> u8
    ensures { result ≡ digit_of offered }
{
    if offered { b'1' } else { b'0' }
}

fn put_word(text: &mut Bytes, x: &Assortment) -> Result<(), NoMemory>
    ensures { OnOk result (text.new.items ≡ text.old.items ++ word_text x.now) }
{
    if x.len() == 0 {
        return put(text, b"-");
    }
    text.reserve(x.len())?;
    for i in 0..x.len() {
        text.push(digit(x.offers(i)));
    }
    Ok(())
}

/// Puts the line of an assortment last: digits in catalogue order, `-` without products.
pub fn put_set(text: &mut Bytes, x: &Assortment) -> Result<(), NoMemory>
    ensures { OnOk result (text.new.items ≡ text.old.items ++ set_line x.now) }
{
    put(text, b"set ")?;
    put_word(text, x)?;
    put(text, b"\n")
}

fn put_ratio(text: &mut Bytes, p: &Problem, x: &Assortment) -> Result<(), NoMemory>
    requires model { IsRatioModel p.now.model }
    requires length { length x.now ≡ product_count p.now }
    ensures { OnOk result (text.new.items ≡ text.old.items ++ ratio_line p.now x.now) }
{
    let earned = revenue(p, x);
    put(text, b"value ")?;
    put_number(text, earned.num)?;
    put(text, b"/")?;
    put_number(text, earned.den)?;
    put(text, b"\n")
}

fn put_mixed(text: &mut Bytes, p: &Problem, x: &Assortment) -> Result<(), NoMemory>
    requires { length x.now ≡ product_count p.now }
    ensures { OnOk result (text.new.items ≡ text.old.items ++ mixed_lines p.now x.now) }
{
    put(text, b"value ")?;
    put_number(text, mixed_value(p, x))?;
    put(text, b"\nunit ")?;
    put_number(text, u128::from(p.unit()))?;
    put(text, b"\n")
}

/// Puts what the assortment earns last: gain over weight, or under mixed logit the value and the unit.
pub fn put_value(text: &mut Bytes, p: &Problem, x: &Assortment) -> Result<(), NoMemory>
    requires { length x.now ≡ product_count p.now }
    ensures { OnOk result (text.new.items ≡ text.old.items ++ value_lines p.now x.now) }
{
    match p.model() {
        ModelName::Logit | ModelName::Attract => put_ratio(text, p, x),
        ModelName::Mixed => put_mixed(text, p, x),
        ModelName::Chain => unreachable!(),
    }
}
