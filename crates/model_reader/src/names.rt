//! The names met so far in a file.
ghost use Rattle.std.specs.Prelude.{◌≡◌, not, ℕ, List, [], ◌∷◌, ◌++◌, position, if◌then◌else◌, IfOk, OnErr};
ghost use Rattle.std.specs.List.{list_any};
ghost use Rattle.std.specs.Str.{bytes_eq};

use indexmap::IndexSet;
use model_core::Name;
use std::alloc::{AllocError, Global};
use std::marker::Model;

/// Distinct names in the order in which they were met, each found by a hash of its text.
///
/// Contracts see the texts as a list.
#[derive(Drop)]
pub struct Names {
    texts: IndexSet<Vec<u8>>,
    alloc: Global,
}

impl Model for Names {
    ghost use Rattle.std.specs.Prelude.{ℕ, List, map};

    ghost Value = { List (List ℕ) };

    ghost view = { λ s. map (λ text. text.items) s.texts.keys };
}

impl Names {
    /// No names.
    pub fn new(alloc: Global) -> Names
        ensures { result ≡ [] }
    {
        Names {
            texts: IndexSet::new(alloc),
            alloc,
        }
    }

    /// Puts a name at the end, unless it was met before, and says whether it was new.
    ///
    /// `AllocError` comes where memory runs out, and the names are then as they were.
    pub fn add(&mut self, name: &Name) -> Result<bool, AllocError>
        ensures added { IfOk result (λ added. added ≡ not (list_any (bytes_eq name.now) self.old)) }
        ensures names { IfOk result (λ added. self.new ≡ (if added then self.old ++ name.now ∷ [] else self.old)) }
        ensures err { OnErr result (self.new ≡ self.old) }
    {
        let text = Vec::from_slice(self.alloc, name.as_bytes())?;
        let added = self.texts.insert(text)?;
        Ok(added)
    }

    /// The place of the name with this text, in the order in which names were met, from 0.
    pub fn place_of(&self, text: &[u8]) -> Option<usize>
        ensures { result ≡ position (bytes_eq text.now) self.now }
    {
        self.texts.get_index_of(text)
    }
}
