//! The products of a catalogue, found by their names in constant time.
ghost use Rattle.std.specs.Prelude.{◌≡◌, length, map, IfOk};
ghost use Rattle.catalogue_rows.specs.Places.{product_named};
ghost use Rattle.catalogue_rows.specs.Rows.{IsCatalogue};

use crate::catalogue::Row;
use crate::name_set::NameSet;
use offer_model::NoMemory;
use std::alloc::Global;
use std::marker::Model;

/// The rows of a catalogue, with their names.
#[derive(Drop)]
pub struct ProductPlaces<'a> {
    rows: &'a [Row],
    names: NameSet<'a>,
}

impl<'a> Model for ProductPlaces<'a> {
    ghost use Rattle.std.specs.Prelude.{◌≡◌, List, map};
    ghost use Rattle.catalogue_rows.specs.Rows.{RowData, IsCatalogue};

    ghost Value = { List RowData };

    ghost view = { λ p. p.rows.now };

    ghost invariant = { λ p. (p.names ≡ map (λ (row : RowData). row.name) p.rows.now) × IsCatalogue p.rows.now };
}

/// The names of the rows, in their order.
fn names_of<'a>(alloc: Global, rows: &'a [Row]) -> Result<NameSet<'a>, NoMemory>
    requires { IsCatalogue rows.now }
    ensures { IfOk result (λ names. names ≡ map (λ row. row.name) rows.now) }
{
    let mut names = NameSet::new(alloc);
    'rows: for row in rows {
        names.insert(row.name.as_bytes())?;
    }
    Ok(names)
}

impl<'a> ProductPlaces<'a> {
    /// The products of these rows.
    pub fn of(alloc: Global, rows: &'a [Row]) -> Result<ProductPlaces<'a>, NoMemory>
        requires { IsCatalogue rows.now }
        ensures { IfOk result (λ products. products ≡ rows.now) }
    {
        let names = names_of(alloc, rows)?;
        Ok(ProductPlaces { rows, names })
    }

    /// The number of products.
    pub fn len(&self) -> usize
        ensures value { result ≡ length self.now }
        ensures valid { IsCatalogue self.now }
    {
        self.rows.len()
    }

    /// The place of the product of this name.
    pub fn place(&self, name: &[u8]) -> Option<usize>
        ensures value { result ≡ product_named self.now name.now }
        ensures valid { IsCatalogue self.now }
    {
        self.names.place(name)
    }
}
