//! Vectors that are made of others.
ghost use Rattle.std.specs.Prelude.{◌≡◌, replicate, IfOk};

use offer_model::{NoMemory, Numbers};
use std::alloc::Global;

/// One value for each of so many products.
pub fn filled(alloc: Global, value: u64, count: usize) -> Result<Vec<u64>, NoMemory>
    ensures { IfOk result (λ v. v.items ≡ replicate count value) }
{
    let values = vec![in alloc; value; count]?;
    Ok(values)
}

/// An equal vector.
pub fn copied(alloc: Global, values: &[u64]) -> Result<Vec<u64>, NoMemory>
    ensures { IfOk result (λ v. v.items ≡ values.now) }
{
    let copy = Vec::from_slice(alloc, values)?;
    Ok(copy)
}

/// A vector as a list of numbers.
pub fn numbers_of(alloc: Global, values: &[u64]) -> Result<Numbers, NoMemory>
    ensures { IfOk result (λ list. list.items ≡ values.now) }
{
    let mut list = Numbers::new(alloc);
    list.reserve(values.len())?;
    for value in values {
        list.push(*value);
    }
    Ok(list)
}
