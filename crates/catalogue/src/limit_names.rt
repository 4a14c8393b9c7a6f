//! What the fields of a limits file name in a catalogue. Each look-up goes over the catalogue's rows.

ghost use Rattle.std.specs.Prelude.{◌≡◌, position};
ghost use Rattle.std.specs.Str.{bytes_eq};
ghost use Rattle.catalogue_rows.specs.Rows.{HasNumbers};
ghost use Rattle.catalogue_rows.specs.Places.{product_named};
ghost use Rattle.catalogue.specs.LimitTables.{category_named, ladder_named};

use catalogue_rows::Row;

/// The first row of this name.
fn first_of_name(rows: &[Row], text: &[u8]) -> Option<usize>
    ensures { result ≡ position (λ row. bytes_eq text.now row.name) rows.now }
{
    rows.iter().position(|row| text == row.name.as_bytes())
}

/// The first row in the category of this name.
fn first_in_category(rows: &[Row], text: &[u8]) -> Option<usize>
    ensures { result ≡ position (λ row. bytes_eq text.now row.category) rows.now }
{
    rows.iter().position(|row| text == row.category.as_bytes())
}

/// The first row on the ladder of this name.
fn first_on_ladder(rows: &[Row], text: &[u8]) -> Option<usize>
    ensures { result ≡ position (λ row. bytes_eq text.now row.ladder) rows.now }
{
    rows.iter().position(|row| text == row.ladder.as_bytes())
}

/// The product of this name.
pub fn product_named(rows: &[Row], text: &[u8]) -> Option<usize>
    ensures { result ≡ product_named rows.now text.now }
{
    first_of_name(rows, text)
}

/// The number of the category of this name, which is that of its first product.
pub fn category_named(rows: &[Row], text: &[u8]) -> Option<u32>
    requires { HasNumbers rows.now }
    ensures { result ≡ category_named rows.now text.now }
{
    if text.is_empty() {
        return None;
    }
    let first = &rows[first_in_category(rows, text)?];
    Some(first.product.category)
}

/// The number of the ladder of this name, which is that of its first product.
pub fn ladder_named(rows: &[Row], text: &[u8]) -> Option<u32>
    requires { HasNumbers rows.now }
    ensures { result ≡ ladder_named rows.now text.now }
{
    if text.is_empty() {
        return None;
    }
    let first = &rows[first_on_ladder(rows, text)?];
    Some(first.product.ladder)
}
