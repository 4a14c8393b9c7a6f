//! Lists of texts.
ghost use Rattle.std.specs.Prelude.{◌≡◌, ◌<◌, [], ◌∷◌, ◌++◌, length, slice_get, OnOk, OnErr};

use crate::memory::NoMemory;
use std::alloc::Global;
use std::marker::Model;

/// The words of a command line, or the names of columns.
#[derive(Drop)]
pub struct Texts {
    alloc: Global,
    items: Vec<String>,
}

impl Model for Texts {
    ghost use Rattle.std.specs.Prelude.{List, ℕ, map, string_bytes};

    ghost Value = { List (List ℕ) };

    ghost view = { λ t. map string_bytes t.items.items };
}

impl Texts {
    /// No texts. It keeps the allocator for later growth.
    pub fn new(alloc: Global) -> Texts
        ensures { result ≡ [] }
    {
        Texts {
            alloc,
            items: Vec::new(alloc),
        }
    }

    /// Puts a text last.
    pub fn push(&mut self, text: &str) -> Result<(), NoMemory>
        ensures ok { OnOk result (self.new ≡ self.old ++ text.now ∷ []) }
        ensures err { OnErr result (self.new ≡ self.old) }
    {
        let text = String::from_str(self.alloc, text)?;
        self.items.push(text)?;
        Ok(())
    }

    pub fn len(&self) -> usize
        ensures { result ≡ length self.now }
    {
        self.items.len()
    }

    /// The text at a place, counted from 0.
    pub fn get(&self, at: usize) -> &str
        requires { at < length self.now }
        ensures { slice_get self.now at ≡ Some result.now }
    {
        self.items[at].as_str()
    }
}
