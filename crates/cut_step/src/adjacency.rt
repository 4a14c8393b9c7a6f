//! The rows at each product, so that a search goes over no others.
ghost use Rattle.std.specs.Prelude.{◌≡◌, ◌<◌, length, slice_index, IfOk};
ghost use Rattle.cut_step.specs.Adjacencies.{AddsRows, IsAdjacency};

use crate::rows::Row;
use offer_model::NoMemory;
use std::alloc::Global;

/// The adjacency lists of the network: at each product the rows whose first or second it is, one list after the other.
#[derive(Drop)]
pub struct Adjacency {
    rows: Vec<usize>,
    starts: Vec<usize>,
}

/// Lists the rows at product `i` at the end.
fn add_rows(rows: &[Row], i: usize, listed: &mut Vec<usize>) -> Result<(), NoMemory>
    ensures { IfOk result (λ _. AddsRows rows.now i (length rows.now) listed.old.items listed.new.items) }
{
    for k in 0..rows.len() {
        let row = rows[k];
        if row.first == i || row.second == i {
            listed.push(k)?;
        }
    }
    Ok(())
}

impl Adjacency {
    /// The rows at each of so many products. It goes over all rows once for each product.
    pub fn of(alloc: Global, rows: &[Row], products: usize) -> Result<Adjacency, NoMemory>
        ensures { IfOk result (IsAdjacency rows.now products) }
    {
        let mut listed = Vec::new(alloc);
        let mut starts = Vec::new(alloc);
        starts.push(0)?;
        for i in 0..products {
            add_rows(rows, i, &mut listed)?;
            starts.push(listed.len())?;
        }
        Ok(Adjacency {
            rows: listed,
            starts,
        })
    }

    /// Where the list of product `i` starts; the one before ends there.
    pub fn start(&self, i: usize) -> usize
        requires { i < length self.now.starts.items }
        ensures { result ≡ slice_index self.now.starts.items i }
    {
        self.starts[i]
    }

    /// The row at a position of the lists.
    pub fn row(&self, position: usize) -> usize
        requires { position < length self.now.rows.items }
        ensures { result ≡ slice_index self.now.rows.items position }
    {
        self.rows[position]
    }
}
