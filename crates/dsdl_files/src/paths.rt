ghost use Rattle.std.specs.Prelude.{◌≡◌, ◌||◌, ◌≤◌, ◌+◌, ℕ, List, [], ◌∷◌, not, length, string_bytes, IfOk, OnOk, MatchOption};
ghost use Rattle.std.specs.List.{list_any};
ghost use Rattle.std.specs.Str.{bytes_eq};
ghost use Rattle.dsdl_files.specs.Order.{IsAscending};

use cy_bits::{List as ListOf, NoMemory, Text};
use std::alloc::Global;
use std::collections::BTreeSet;
use std::marker::Model;

/// Paths in byte order, each once.
#[derive(Drop)]
pub struct Paths {
    set: BTreeSet<String>,
}

impl Model for Paths {
    ghost use Rattle.std.specs.Prelude.{List, ℕ, map, string_bytes};

    ghost Value = { List (List ℕ) };

    ghost view = { λ p. map (λ path. string_bytes path) p.set.keys };
}

impl Paths {
    /// No paths; takes no memory yet.
    pub fn new(alloc: Global) -> Paths
        ensures { result ≡ [] }
    {
        Paths {
            set: BTreeSet::new(alloc),
        }
    }

    /// Adds a path, and answers whether it is new.
    pub fn insert(&mut self, path: String) -> Result<bool, NoMemory>
        ensures added { IfOk result
            (λ added. added ≡ not (list_any (bytes_eq (string_bytes path)) self.old)) }
        ensures paths { OnOk result
            ((p : List ℕ) → list_any (bytes_eq p) self.new
            ≡ (bytes_eq (string_bytes path) p || list_any (bytes_eq p) self.old)) }
        ensures len { OnOk result (length self.new ≤ length self.old + 1) }
    {
        Ok(self.set.insert(path)?)
    }

    /// Takes the first path out.
    pub fn pop_first(&mut self) -> Option<String>
        ensures first { MatchOption result (self.old ≡ [])
            (λ path. self.old ≡ string_bytes path ∷ self.new) }
        ensures ascending { IsAscending self.old }
    {
        self.set.pop_first()
    }

    /// The paths as texts, in their order.
    pub fn into_texts(mut self, alloc: Global) -> Result<ListOf<Text>, NoMemory>
        ensures texts { IfOk result (λ texts. texts ≡ self) }
        ensures ascending { OnOk result (IsAscending self) }
    {
        let mut texts = Vec::with_capacity(alloc, self.set.len())?;
        while let Some(path) = self.pop_first() {
            texts.push(Text::new(path))?;
        }
        Ok(ListOf::new(texts))
    }
}
