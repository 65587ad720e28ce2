ghost use Rattle.std.specs.Prelude.{◌≡◌, ◌≤◌, ◌++◌, ◌∷◌, length, IfOk, map, MatchOption};
ghost use Rattle.dsdl_names.specs.Parts.{names_of};

use cy_bits::{Bytes, NoMemory, TryCopy};
use std::alloc::Global;
use std::cmp::Ordering;
use std::marker::Model;

/// A full name (Cyphal Specification, section 3.1): two names or more, seen as its dotted text.
#[derive(Drop)]
pub struct FullName {
    text: Bytes,
}

impl Model for FullName {
    ghost use Rattle.std.specs.Prelude.{ℕ, List, ◌≤◌, length};
    ghost use Rattle.dsdl_names.specs.Parts.{names_of};

    ghost Value = { List ℕ };

    ghost view = { λ n. n.text };

    ghost invariant = { λ n. 2 ≤ length (names_of n.text) };
}

impl FullName {
    /// Takes a dotted text of two names or more as it is, without memory.
    pub fn new(text: Bytes) -> FullName
        requires { 2 ≤ length (names_of text) }
        ensures { result ≡ text }
    {
        FullName { text }
    }

    /// The dotted text.
    pub fn as_bytes(&self) -> &[u8]
        ensures value { result.now ≡ self.now }
        ensures names { 2 ≤ length (names_of self.now) }
    {
        self.text.as_slice()
    }
}

impl TryCopy for FullName {
    fn copy(&self, alloc: Global) -> Result<FullName, NoMemory> {
        let text = Bytes::from_slice(alloc, self.text.as_slice())?;
        Ok(FullName { text })
    }
}

impl PartialEq for FullName {
    ghost use Rattle.std.specs.Ordering.{eq_by_cmp, nat_cmp};
    ghost use Rattle.std.specs.Cmp.Lexicographic.{slice_cmp};
    ghost use Rattle.std.proofs.Common.{rules};
    ghost use Rattle.std.specs.Cmp.Rules.{comparing};

    ghost eq = { eq_by_cmp (slice_cmp nat_cmp) };

    ghost laws = { Prim.search (comparing, rules) };

    fn eq(&self, other: &FullName) -> bool {
        self.cmp(other) == Ordering::Equal
    }
}

impl Eq for FullName {
    ghost use Rattle.std.proofs.Common.{rules};
    ghost use Rattle.std.specs.Cmp.Rules.{comparing};

    ghost laws = { Prim.search (comparing, rules) };
}

impl PartialOrd for FullName {
    ghost use Rattle.std.specs.Ordering.{as_partial_cmp, nat_cmp};
    ghost use Rattle.std.specs.Cmp.Lexicographic.{slice_cmp};
    ghost use Rattle.std.specs.Cmp.{partial_order_from_own_ties};
    ghost use Rattle.std.proofs.Common.{rules};
    ghost use Rattle.std.specs.Cmp.Rules.{comparing};

    ghost partial_cmp = { as_partial_cmp (slice_cmp nat_cmp) };

    ghost laws = { partial_order_from_own_ties (Prim.search (comparing, rules))
        (Prim.search (comparing, rules)) };

    fn partial_cmp(&self, other: &FullName) -> Option<Ordering> {
        Some(self.cmp(other))
    }
}

impl Ord for FullName {
    ghost use Rattle.std.specs.Ordering.{nat_cmp};
    ghost use Rattle.std.specs.Cmp.Lexicographic.{slice_cmp};
    ghost use Rattle.std.proofs.Common.{rules};
    ghost use Rattle.std.specs.Cmp.Rules.{comparing};

    ghost cmp = { slice_cmp nat_cmp };

    ghost total = { Prim.search (comparing, rules) };

    ghost matches_partial_cmp = { Prim.search (comparing, rules) };

    ghost matches_eq = { Prim.search (comparing, rules) };

    fn cmp(&self, other: &FullName) -> Ordering {
        self.text.as_slice().cmp(other.text.as_slice())
    }
}
