//! Laws of the text of a namespace: there is one, and one alone.
ghost use Rattle.std.specs.Prelude.{◌≡◌, ℕ, List};
ghost use Rattle.dsdl_types.specs.Definitions.{IsNamespace};
ghost use Rattle.dsdl_types.specs.declared.namespace.Namespace.{Namespace};
ghost use Rattle.layout_text.specs.Namespaces.{IsNamespaceText};

/// A namespace has no two texts.
pub fn one_text()
    ensures { (names : Namespace) (a b : List ℕ) → IsNamespaceText names a → IsNamespaceText names b
        → a ≡ b }
{}

/// A namespace whose definitions keep the rules has a text.
pub fn some_text()
    ensures { (names : Namespace) → IsNamespace names
        → (text : List ℕ) × IsNamespaceText names text }
{}
