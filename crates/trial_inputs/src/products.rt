//! Products of given margins.
ghost use Rattle.std.specs.Prelude.{◌≡◌, map, IfOk};
ghost use Rattle.trial_inputs.specs.TrialInputs.{trial_product};

use offer_model::{NoMemory, Numbers, Product, Products};
use std::alloc::Global;

/// A product of which all but the margin is at its default.
fn product_of(margin: u64) -> Product
    ensures { result ≡ trial_product margin }
{
    Product {
        margin,
        category: 0,
        space: 0,
        price: 0,
        ladder: 0,
        grade: 0,
    }
}

/// A product of each margin.
pub fn products_of(alloc: Global, margins: &Numbers) -> Result<Products, NoMemory>
    ensures { IfOk result (λ products. products.items ≡ map trial_product margins.now.items) }
{
    let mut products = Products::new(alloc);
    products.reserve(margins.len())?;
    for i in 0..margins.len() {
        products.push(product_of(*margins.get(i)));
    }
    Ok(products)
}
