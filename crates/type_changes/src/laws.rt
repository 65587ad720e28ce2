//! Laws of what is said of two namespaces.
ghost use Rattle.std.specs.Prelude.{◌≡◌, ◌≢◌, ◌↔◌, ℕ, List, map};
ghost use Rattle.std.specs.List.{All, filter};
ghost use Rattle.dsdl_names.specs.declared.TypeId.{TypeId};
ghost use Rattle.dsdl_types.specs.Finding.{same_id, definition_of};
ghost use Rattle.dsdl_types.specs.Newer.{bare};
ghost use Rattle.dsdl_types.specs.Schemas.{Sch};
ghost use Rattle.dsdl_types.specs.Views.{sch};
ghost use Rattle.dsdl_types.specs.declared.definition.Parts.TheVariants as parts;
ghost use Rattle.dsdl_types.specs.declared.namespace.Namespace.{Namespace};
ghost use Rattle.dsdl_types.specs.declared.schema.Schema.{Schema};
ghost use Rattle.compat_check.specs.Services.{AreNewer};
ghost use Rattle.compat_check.specs.declared.verdict.Verdict.{Verdict};
ghost use Rattle.compat_check.specs.declared.verdict.Verdict.TheVariants as verdict;
ghost use Rattle.type_changes.specs.Entries.{paired};
ghost use Rattle.type_changes.specs.Laws.{AreDistinct, IsNewer, IsSame, SameBytes, entry_where, plain_line, turned_line};
ghost use Rattle.type_changes.specs.Lines.{AreChanges, lines_of};
ghost use Rattle.type_changes.specs.Said.{compared};
ghost use Rattle.type_changes.specs.declared.change.Change.TheVariants as change;

/// Two namespaces have an answer, whatever their definitions are.
pub fn some_answer()
    ensures { (old new : Namespace)
        → (lines : List ℕ) × (first : Verdict) × AreChanges old new lines first }
{}

/// Two namespaces have at most one answer.
pub fn one_answer()
    ensures { (old new : Namespace) (a b : List ℕ) (v w : Verdict) → AreChanges old new a v
        → AreChanges old new b w → (a ≡ b) × (v ≡ w) }
{}

/// Where neither namespace has two definitions of one type, there is exactly one entry of each type
/// that either has, with the definitions of both, and none of any other type.
pub fn one_entry()
    ensures { (old new : Namespace) (lines : List ℕ) (first : Verdict)
        (are : AreChanges old new lines first) (id : TypeId) → AreDistinct old.definitions
        → AreDistinct new.definitions → filter (λ e. same_id e.id id) (paired are.olds are.news)
        ≡ entry_where id (definition_of old.definitions id) (definition_of new.definitions id) }
{}

/// A schema that both namespaces have is `same` exactly where the two are one, with the names of
/// their fields, and `renamed` exactly where they are one but for these names.
pub fn said_of_names()
    ensures same { (new old : Sch) → (compared new old ≡ change.Same) ↔ (new ≡ old) }
    ensures renamed { (new old : Sch) → (compared new old ≡ change.Renamed)
        ↔ ((bare new ≡ bare old) × (new ≢ old)) }
{}

/// It is `same`, `renamed` or `newer` exactly where the new one is newer than the old one, as
/// messages are: each then reads what the other wrote (`dsdl_types::laws::evolution`).
pub fn said_of_newer()
    ensures { (new old : Schema) → IsNewer (compared (sch new) (sch old))
        ↔ AreNewer (parts.Message new) (parts.Message old) }
{}

/// Where it is `same`, both write equal bytes for every value, and read equal values of every bytes
/// or refuse them alike.
pub fn same_bytes()
    ensures { (new old : Schema) → compared (sch new) (sch old) ≡ change.Same
        → SameBytes (sch new) (sch old) }
{}

/// Where the old and the new namespace change places, so do `added` and `gone`, and both ports;
/// `same` and `renamed` stay, and what is compared stays so, with a verdict of its own.
pub fn other_way_round()
    ensures { (old new : Namespace) (a b : List ℕ) (v w : Verdict) (there : AreChanges old new a v)
        (back : AreChanges new old b w) → map turned_line (lines_of (paired there.olds there.news))
        ≡ map plain_line (lines_of (paired back.olds back.news)) }
{}

/// A namespace and itself are `same` in each line, with the same ports.
pub fn with_itself()
    ensures { (names : Namespace) (lines : List ℕ) (first : Verdict)
        (are : AreChanges names names lines first)
        → (first ≡ verdict.Yes) × All IsSame (lines_of (paired are.olds are.news)) }
{}
