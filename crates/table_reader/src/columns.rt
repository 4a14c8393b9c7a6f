//! Where each column stands.
ghost use Rattle.std.specs.Prelude.{◌≡◌, ◌<◌, length, slice_get, Some};

use std::marker::Model;

/// Where the columns stand in a header. Contracts see the place of each column, or none.
#[derive(Drop)]
pub struct Columns<const N: usize> {
    places: [Option<usize>; N],
}

impl<const N: usize> Model for Columns<N> {
    ghost use Rattle.std.specs.Prelude.{List, ℕ, Option};

    ghost Value = { List (Option ℕ) };

    ghost view = { λ c. c.places };
}

impl<const N: usize> Columns<N> {
    pub(crate) fn new(places: [Option<usize>; N]) -> Self
        ensures { result ≡ places.entry }
    {
        Columns { places }
    }

    /// The place of column `c` in the header, from 0, or none where the column is absent.
    pub fn place(&self, c: usize) -> Option<usize>
        requires { c < N }
        ensures { slice_get self.now c ≡ Some result }
    {
        self.places[c]
    }
}
