//! A catalogue: its rows, and what the choice models and the limits read of a product.
ghost use Rattle.std.specs.Prelude.{◌≡◌, ◌<◌, [], length};
ghost use Rattle.catalogue_rows.specs.Rows.{row_at, IsCatalogue};

use offer_model::Product;
use std::alloc::Global;
use std::marker::Model;

/// A product of the catalogue, with its name and what the choice models read of it.
#[derive(Drop)]
pub struct Row {
    pub name: String,
    pub product: Product,
    pub attraction: u64,
    pub shadow: u64,
    pub arrival: u64,
    /// The name of its category, empty where it has none.
    pub category: String,
    /// The name of its price ladder, empty where it has none.
    pub ladder: String,
}

impl Model for Row {
    ghost use Rattle.std.specs.Prelude.{string_bytes};
    ghost use Rattle.catalogue_rows.specs.Rows.{RowData};

    ghost Value = { RowData };

    ghost view = { λ r. record {
      name = string_bytes r.name;
      product = r.product;
      attraction = r.attraction;
      shadow = r.shadow;
      arrival = r.arrival;
      category = string_bytes r.category;
      ladder = string_bytes r.ladder;
    } };
}

/// The products that there are, in file order.
#[derive(Drop)]
pub struct Catalogue {
    rows: Vec<Row>,
}

impl Model for Catalogue {
    ghost use Rattle.std.specs.Prelude.{List};
    ghost use Rattle.catalogue_rows.specs.Rows.{RowData, IsCatalogue};

    ghost Value = { List RowData };

    ghost view = { λ c. c.rows.items };

    ghost invariant = { λ c. IsCatalogue c.rows.items };
}

impl Catalogue {
    /// No products. It keeps the allocator for later growth.
    pub fn empty(alloc: Global) -> Catalogue
        ensures { result ≡ [] }
    {
        Catalogue {
            rows: Vec::new(alloc),
        }
    }

    /// The catalogue of these rows.
    pub(crate) fn new(rows: Vec<Row>) -> Catalogue
        requires { IsCatalogue rows.items }
        ensures { result ≡ rows.items }
    {
        Catalogue { rows }
    }

    /// The rows, in file order.
    pub fn rows(&self) -> &[Row]
        ensures value { result.now ≡ self.now }
        ensures valid { IsCatalogue self.now }
    {
        &self.rows
    }

    /// The number of products.
    pub fn len(&self) -> usize
        ensures value { result ≡ length self.now }
        ensures valid { IsCatalogue self.now }
    {
        self.rows.len()
    }

    /// The name of product `i`.
    pub fn name(&self, i: usize) -> &str
        requires { i < length self.now }
        ensures value { result.now ≡ (row_at self.now i).name }
        ensures valid { IsCatalogue self.now }
    {
        let row = &self.rows[i];
        row.name.as_str()
    }

    /// The name of the category of product `i`, empty where it has none.
    pub fn category(&self, i: usize) -> &str
        requires { i < length self.now }
        ensures value { result.now ≡ (row_at self.now i).category }
        ensures valid { IsCatalogue self.now }
    {
        let row = &self.rows[i];
        row.category.as_str()
    }

    /// The name of the price ladder of product `i`, empty where it has none.
    pub fn ladder(&self, i: usize) -> &str
        requires { i < length self.now }
        ensures value { result.now ≡ (row_at self.now i).ladder }
        ensures valid { IsCatalogue self.now }
    {
        let row = &self.rows[i];
        row.ladder.as_str()
    }

    /// What the limits and the revenue read of product `i`.
    pub fn product(&self, i: usize) -> Product
        requires { i < length self.now }
        ensures value { result ≡ (row_at self.now i).product }
        ensures valid { IsCatalogue self.now }
    {
        let row = &self.rows[i];
        row.product
    }

    /// The attraction of product `i` where it is offered.
    pub fn attract(&self, i: usize) -> u64
        requires { i < length self.now }
        ensures value { result ≡ (row_at self.now i).attraction }
        ensures valid { IsCatalogue self.now }
    {
        let row = &self.rows[i];
        row.attraction
    }

    /// The shadow attraction of product `i`, which stays where it isn't offered.
    pub fn shadow(&self, i: usize) -> u64
        requires { i < length self.now }
        ensures value { result ≡ (row_at self.now i).shadow }
        ensures valid { IsCatalogue self.now }
    {
        let row = &self.rows[i];
        row.shadow
    }

    /// How many customers arrive at product `i`, as a weight.
    pub fn arrival(&self, i: usize) -> u64
        requires { i < length self.now }
        ensures value { result ≡ (row_at self.now i).arrival }
        ensures valid { IsCatalogue self.now }
    {
        let row = &self.rows[i];
        row.arrival
    }
}
