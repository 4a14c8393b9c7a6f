//! The requirements as rows of the network.
ghost use Rattle.std.specs.Prelude.{◌≡◌, IfOk};
ghost use Rattle.cut_step.specs.Closures.{rows_of};

use offer_model::{Limit, Limits, NoMemory};
use std::alloc::Global;

/// A requirement: whoever offers the first product offers the second.
#[derive(Clone, Copy)]
pub struct Row {
    pub first: usize,
    pub second: usize,
}

/// The requirements among the limits, in order.
pub fn rows_of(alloc: Global, limits: &Limits) -> Result<Vec<Row>, NoMemory>
    ensures { IfOk result (λ rows. rows.items ≡ rows_of limits.now.items) }
{
    let mut rows = Vec::new(alloc);
    for k in 0..limits.len() {
        if let Limit::Requires(first, second) = *limits.get(k) {
            rows.push(Row { first, second })?;
        }
    }
    Ok(rows)
}
