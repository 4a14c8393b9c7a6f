//! The catalogue of given margins, in which all else is at its default.
ghost use Rattle.std.specs.Prelude.{◌≡◌, ◌≤◌, All, IfOk, length, string_bytes};
ghost use Rattle.offer_model.specs.declared.ranges.TheConstants.{MOST_AMOUNT, MOST_PRODUCTS};
ghost use Rattle.catalogue_rows.specs.Plain.{plain_name, plain_row, plain_rows};

use crate::catalogue::{Catalogue, Row};
use itoa::Buffer;
use offer_model::{NoMemory, Numbers, Product};
use std::alloc::Global;

/// The name of product `k`.
fn plain_name(alloc: Global, k: usize) -> Result<String, NoMemory>
    ensures { IfOk result (λ name. string_bytes name ≡ plain_name k) }
{
    let mut digits = Buffer::new();
    let mut name = String::from_str(alloc, "p")?;
    name.push_str(digits.format(k))?;
    Ok(name)
}

/// Product `k`, of which all but the name and the margin is at its default.
fn plain_row(alloc: Global, k: usize, margin: u64) -> Result<Row, NoMemory>
    ensures { IfOk result (λ row. row ≡ plain_row k margin) }
{
    Ok(Row {
        name: plain_name(alloc, k)?,
        product: Product {
            margin,
            category: 0,
            space: 0,
            price: 0,
            ladder: 0,
            grade: 0,
        },
        attraction: 0,
        shadow: 0,
        arrival: 0,
        category: String::new(alloc),
        ladder: String::new(alloc),
    })
}

/// The catalogue of products `p0`, `p1` and so on with these margins, in which all else is at its default. `NoMemory` is the
/// one failure.
pub fn plain_catalogue(alloc: Global, margins: &Numbers) -> Result<Catalogue, NoMemory>
    requires few { length margins.now.items ≤ MOST_PRODUCTS }
    requires amounts { All (λ margin. margin ≤ MOST_AMOUNT) margins.now.items }
    ensures { IfOk result (λ c. c ≡ plain_rows margins.now.items) }
{
    let mut rows = Vec::new(alloc);
    'rows: for k in 0..margins.len() {
        rows.push(plain_row(alloc, k, *margins.get(k))?)?;
    }
    Ok(Catalogue::new(rows))
}
