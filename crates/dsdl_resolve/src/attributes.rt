//! The names of attributes, among which one is found without a look at each.
ghost use Rattle.std.specs.Prelude.{◌≡◌, ◌||◌, ℕ, List, [], OnOk};
ghost use Rattle.std.specs.Str.{bytes_eq};
ghost use Rattle.dsdl_resolve.specs.Rules.{is_used};

use cy_bits::NoMemory;
use std::alloc::Global;
use std::collections::BTreeSet;
use std::marker::Model;

/// Names of attributes, each once, in byte order.
#[derive(Drop)]
pub struct Attributes {
    names: BTreeSet<String>,
}

impl Model for Attributes {
    ghost use Rattle.std.specs.Prelude.{List, ℕ, map, string_bytes};

    ghost Value = { List (List ℕ) };

    ghost view = { λ a. map (λ name. string_bytes name) a.names.keys };
}

impl Attributes {
    /// No names; takes no memory yet.
    pub fn new(alloc: Global) -> Attributes
        ensures { result ≡ [] }
    {
        Attributes {
            names: BTreeSet::new(alloc),
        }
    }

    /// Whether a name is among them.
    pub fn contains(&self, name: &str) -> bool
        ensures { result ≡ is_used self.now name.now }
    {
        self.names.contains(name)
    }

    /// Adds a name.
    pub fn insert(&mut self, alloc: Global, name: &str) -> Result<(), NoMemory>
        ensures { OnOk result ((other : List ℕ) →
            is_used self.new other ≡ (is_used self.old other || bytes_eq name.now other)) }
    {
        let name = String::from_str(alloc, name)?;
        self.names.insert(name)?;
        Ok(())
    }
}
