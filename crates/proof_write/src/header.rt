//! The header of a certificate.
ghost use Rattle.std.specs.Prelude.{◌≡◌, ◌<◌, ◌≤◌, [], ◌∷◌, length, All, IfOk, OnOk};
ghost use Rattle.offer_model.specs.declared.products.ModelName.TheVariants.{Mixed};
ghost use Rattle.offer_model.specs.Problems.{product_count};
ghost use Rattle.offer_model.specs.Ranges.{gain_bound, weight_bound};
ghost use Rattle.offer_model.specs.Validity.{IsProblem, IsRatioModel};
ghost use Rattle.offer_model.specs.Prices.{prices_at};
ghost use Rattle.proof_lines.specs.Lines.{line, IsLine};
ghost use Rattle.proof_lines.specs.Closing.{own_prices};
ghost use Rattle.proof_lines.specs.Acceptance.{digits_of, value_numbers};
ghost use Rattle.proof_lines.specs.declared.line.Shape.TheVariants as Shapes;
ghost use Rattle.proof_tree.specs.Pens.{IsWritable, line_data, lines_data};
ghost use Rattle.proof_write.specs.HeaderLines.{IsHeader, IsValueLine};

use offer_model::{Assortment, Fraction, NoMemory, Problem, Wide, mixed_value, revenue};
use proof_lines::{Line, Shape};
use std::alloc::Global;

/// What the assortment earns.
pub(crate) fn earned_by(p: &Problem, x: &Assortment) -> Fraction
    requires model { IsRatioModel p.now.model }
    requires length { length x.now ≡ product_count p.now }
    ensures value { value_numbers p.now x.now ≡ 1 ∷ result.num ∷ result.den ∷ [] }
    ensures prices { own_prices p.now x.now ≡ prices_at p.now result.num result.den }
    ensures num { result.num < gain_bound }
    ensures den { (1 ≤ result.den) × (result.den < weight_bound) }
{
    revenue(p, x)
}

/// A line without numbers.
pub(crate) fn bare(alloc: Global, shape: Shape) -> Line
    ensures { line_data result ≡ line shape [] }
{
    Line {
        shape,
        numbers: Wide::new(alloc),
    }
}

/// The set line.
fn set_line(alloc: Global, x: &Assortment) -> Result<Line, NoMemory>
    ensures { IfOk result (λ l. line_data l ≡ line Shapes.Set (digits_of x.now)) }
{
    let mut numbers = Wide::new(alloc);
    numbers.reserve(x.len())?;
    for i in 0..x.len() {
        numbers.push(u128::from(x.offers(i)));
    }
    Ok(Line {
        shape: Shape::Set,
        numbers,
    })
}

/// The value line of an assortment under logit and generalised attraction: what it earns.
fn ratio_line(alloc: Global, p: &Problem, x: &Assortment) -> Result<Line, NoMemory>
    requires model { IsRatioModel p.now.model }
    requires length { length x.now ≡ product_count p.now }
    ensures { IfOk result (λ l. IsValueLine p.now x.now (line_data l)) }
{
    let earned = earned_by(p, x);
    let mut numbers = Wide::new(alloc);
    numbers.reserve(3)?;
    numbers.push(1);
    numbers.push(earned.num);
    numbers.push(earned.den);
    Ok(Line {
        shape: Shape::Value,
        numbers,
    })
}

/// The value line of an assortment under mixed logit: what it brings in all segments.
fn units_line(alloc: Global, p: &Problem, x: &Assortment) -> Result<Line, NoMemory>
    requires model { p.now.model ≡ Mixed }
    requires length { length x.now ≡ product_count p.now }
    ensures { IfOk result (λ l. IsValueLine p.now x.now (line_data l)) }
{
    let mut numbers = Wide::new(alloc);
    numbers.reserve(2)?;
    numbers.push(0);
    numbers.push(mixed_value(p, x));
    Ok(Line {
        shape: Shape::Value,
        numbers,
    })
}

/// The lines of the header, with this value line.
fn header_of(alloc: Global, p: &Problem, x: &Assortment, value: Line) -> Result<Vec<Line>, NoMemory>
    requires length { length x.now ≡ product_count p.now }
    requires value { IsValueLine p.now x.now (line_data value) }
    ensures lines { IfOk result (λ lines. IsHeader p.now x.now lines.items) }
    ensures writable { IfOk result (λ lines. All IsWritable lines.items) }
    ensures valid { IsProblem p.now }
{
    let model = p.model();
    let mut lines = Vec::new(alloc);
    lines.reserve(4)?;
    lines.push_reserved(bare(alloc, Shape::Start));
    lines.push_reserved(bare(alloc, Shape::Model(model)));
    lines.push_reserved(set_line(alloc, x)?);
    lines.push_reserved(value);
    Ok(lines)
}

/// The lines of the header under logit and generalised attraction.
pub(crate) fn ratio_header(
    alloc: Global,
    p: &Problem,
    x: &Assortment,
) -> Result<Vec<Line>, NoMemory>
    requires model { IsRatioModel p.now.model }
    requires length { length x.now ≡ product_count p.now }
    ensures lines { IfOk result (λ lines. IsHeader p.now x.now lines.items) }
    ensures writable { IfOk result (λ lines. All IsWritable lines.items) }
    ensures value { OnOk result (IsLine Shapes.Value (value_numbers p.now x.now)) }
    ensures valid { OnOk result (IsProblem p.now) }
{
    let value = ratio_line(alloc, p, x)?;
    header_of(alloc, p, x, value)
}

/// The lines of the header under mixed logit.
pub(crate) fn units_header(
    alloc: Global,
    p: &Problem,
    x: &Assortment,
) -> Result<Vec<Line>, NoMemory>
    requires model { p.now.model ≡ Mixed }
    requires length { length x.now ≡ product_count p.now }
    ensures lines { IfOk result (λ lines. IsHeader p.now x.now lines.items) }
    ensures writable { IfOk result (λ lines. All IsWritable lines.items) }
    ensures value { OnOk result (IsLine Shapes.Value (value_numbers p.now x.now)) }
    ensures valid { OnOk result (IsProblem p.now) }
{
    let value = units_line(alloc, p, x)?;
    header_of(alloc, p, x, value)
}
