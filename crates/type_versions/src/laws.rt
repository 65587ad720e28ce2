//! Laws of the versions of a namespace: it has an answer on them, and one alone.
ghost use Rattle.std.specs.Prelude.{◌≡◌, ◌↔◌, ℕ, List};
ghost use Rattle.dsdl_names.specs.declared.TypeId.{TypeId};
ghost use Rattle.dsdl_types.specs.declared.definition.Definition.{Definition};
ghost use Rattle.dsdl_types.specs.declared.namespace.Namespace.{Namespace};
ghost use Rattle.layout_text.specs.Namespaces.{IsByName};
ghost use Rattle.compat_check.specs.declared.verdict.Verdict.{Verdict};
ghost use Rattle.type_versions.specs.Laws.{HasPair, IsVersionBefore};
ghost use Rattle.type_versions.specs.Lines.{AreVersions};
ghost use Rattle.type_versions.specs.Pairs.{version_pairs};

/// A namespace has an answer on its versions, whatever its definitions are.
pub fn some_answer()
    ensures { (names : Namespace)
        → (lines : List ℕ) × (first : Verdict) × AreVersions names lines first }
{}

/// A namespace has at most one answer on its versions.
pub fn one_answer()
    ensures { (names : Namespace) (a b : List ℕ) (v w : Verdict) → AreVersions names a v
        → AreVersions names b w → (a ≡ b) × (v ≡ w) }
{}

/// A version is compared with another exactly where that is the one before it, of the same major
/// number, which isn't 0: the minor numbers may have gaps.
pub fn version_before()
    ensures { (ds sorted : List Definition) (new old : TypeId) → IsByName ds sorted
        → HasPair (version_pairs sorted) new old ↔ IsVersionBefore ds new old }
{}
