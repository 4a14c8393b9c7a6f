//! The names that rows gave, each once.
ghost use Rattle.std.specs.Prelude.{◌≡◌, ◌<◌, ℕ, List, [], ◌∷◌, ◌++◌, length, position, if◌then◌else◌, IfOk, OnOk};
ghost use Rattle.std.specs.Str.{bytes_eq};
ghost use Rattle.table_reader.specs.Tables.{is_among};
ghost use Rattle.catalogue_rows.specs.Names.{distinct_names, number_in};

use indexmap::IndexSet;
use offer_model::{MOST_PRODUCTS, NoMemory};
use std::alloc::Global;
use std::marker::Model;

/// The names that a file's rows gave so far, each once, in order of first appearance.
#[derive(Drop)]
pub struct NameSet<'a> {
    names: IndexSet<&'a [u8]>,
}

impl<'a> Model for NameSet<'a> {
    ghost use Rattle.std.specs.Prelude.{List, ℕ, map};
    ghost use Rattle.std.specs.Borrow.{Bor};

    ghost Value = { List (List ℕ) };

    ghost view = { λ s. map (λ (name : Bor (List ℕ)). name.now) s.names.keys };
}

impl<'a> NameSet<'a> {
    /// No names.
    pub fn new(alloc: Global) -> NameSet<'a>
        ensures { result ≡ [] }
    {
        NameSet {
            names: IndexSet::new(alloc),
        }
    }

    /// Whether the name is there.
    pub fn contains(&self, name: &[u8]) -> bool
        ensures { result ≡ is_among name.now self.now }
    {
        self.names.contains(name)
    }

    /// The place of a name in order of first appearance, from 0.
    pub fn place(&self, name: &[u8]) -> Option<usize>
        ensures { result ≡ position (bytes_eq name.now) self.now }
    {
        self.names.get_index_of(name)
    }

    /// Puts a name last, unless it is there.
    pub fn insert(&mut self, name: &'a [u8]) -> Result<(), NoMemory>
        ensures { OnOk result
            (self.new ≡ (if is_among name.now self.old then self.old else self.old ++ name.now ∷ [])) }
    {
        self.names.insert(name)?;
        Ok(())
    }

    /// The number of a category's or a ladder's name, from 1 in order of first appearance, and 0 for the empty text.
    pub fn number(&mut self, name: &'a [u8]) -> Result<u32, NoMemory>
        requires { length self.old < MOST_PRODUCTS }
        ensures number { IfOk result (λ n. (texts : List (List ℕ)) → self.old ≡ distinct_names texts
            → n ≡ number_in (texts ++ name.now ∷ []) name.now) }
        ensures names { OnOk result ((texts : List (List ℕ)) → self.old ≡ distinct_names texts
            → self.new ≡ distinct_names (texts ++ name.now ∷ [])) }
    {
        if name.is_empty() {
            return Ok(0);
        }
        let (place, _) = self.names.insert_full(name)?;
        Ok(place as u32 + 1)
    }
}
