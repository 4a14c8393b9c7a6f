//! The lines of a chain's certificate.
ghost use Rattle.std.specs.Prelude.{◌≡◌, [], ◌∷◌, length, IfOk, OnOk};
ghost use Rattle.offer_model.specs.Stopping.{IsStopping};
ghost use Rattle.proof_lines.specs.Lines.{line, text_of, IsLine};
ghost use Rattle.proof_lines.specs.Acceptance.{digits_of, chain_lines, IsAcceptedChain};
ghost use Rattle.proof_lines.specs.declared.line.Shape.TheVariants as Shapes;
ghost use Rattle.proof_tree.specs.Pens.{line_data, lines_data};

use chain_values::ChainAnswer;
use offer_model::{Assortment, Chain, ModelName, NoMemory, Numbers, Wide};
use proof_lines::{Line, Shape};
use std::alloc::Global;

/// A line without numbers.
fn bare_line(alloc: Global, shape: Shape) -> Line
    ensures { line_data result ≡ line shape [] }
{
    Line {
        shape,
        numbers: Wide::new(alloc),
    }
}

/// The set line: a digit for each product.
fn set_line(alloc: Global, products: usize, set: &Assortment) -> Result<Line, NoMemory>
    requires { length set.now ≡ products }
    ensures { IfOk result (λ l. line_data l ≡ line Shapes.Set (digits_of set.now)) }
{
    let mut numbers = Wide::new(alloc);
    numbers.reserve(products)?;
    for i in 0..products {
        numbers.push(u128::from(set.offers(i)));
    }
    Ok(Line {
        shape: Shape::Set,
        numbers,
    })
}

/// The value line: the two bounds.
fn bounds_line(alloc: Global, lo: u64, up: u64) -> Result<Line, NoMemory>
    ensures line { IfOk result (λ l. line_data l ≡ line Shapes.Value (2 ∷ lo ∷ up ∷ [])) }
    ensures grammar { OnOk result (IsLine Shapes.Value (2 ∷ lo ∷ up ∷ [])) }
{
    let mut numbers = Wide::new(alloc);
    numbers.reserve(3)?;
    numbers.push(2);
    numbers.push(u128::from(lo));
    numbers.push(u128::from(up));
    Ok(Line {
        shape: Shape::Value,
        numbers,
    })
}

/// The line of a vector: a number for each product.
fn vector_line(
    alloc: Global,
    products: usize,
    shape: Shape,
    values: &Numbers,
) -> Result<Line, NoMemory>
    requires { length values.now.items ≡ products }
    ensures { IfOk result (λ l. line_data l ≡ line shape values.now.items) }
{
    let mut numbers = Wide::new(alloc);
    numbers.reserve(products)?;
    for i in 0..products {
        numbers.push(u128::from(*values.get(i)));
    }
    Ok(Line { shape, numbers })
}

/// All lines of the certificate that says the answer.
pub(crate) fn lines_of(
    alloc: Global,
    chain: &Chain,
    answer: &ChainAnswer,
) -> Result<Vec<Line>, NoMemory>
    requires { IsStopping chain.now answer.now }
    ensures lines { IfOk result (λ lines. lines_data lines.items ≡ chain_lines answer.now) }
    ensures accepted { OnOk result (IsAcceptedChain chain.now (text_of (chain_lines answer.now)) answer.now) }
{
    let products = chain.margins().len();
    let mut lines = Vec::new(alloc);
    lines.reserve(7)?;
    lines.push_reserved(bare_line(alloc, Shape::Start));
    lines.push_reserved(bare_line(alloc, Shape::Model(ModelName::Chain)));
    lines.push_reserved(set_line(alloc, products, &answer.set)?);
    lines.push_reserved(bounds_line(alloc, answer.lo, answer.up)?);
    lines.push_reserved(vector_line(alloc, products, Shape::Upper, &answer.upper)?);
    lines.push_reserved(vector_line(alloc, products, Shape::Lower, &answer.lower)?);
    lines.push_reserved(bare_line(alloc, Shape::End));
    Ok(lines)
}
