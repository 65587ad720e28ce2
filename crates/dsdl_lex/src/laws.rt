ghost use Rattle.std.specs.Prelude.{◌≡◌, true, List, ℕ};
ghost use Rattle.std.specs.List.{list_all};
ghost use Rattle.std.specs.Str.{IsAscii};
ghost use Rattle.dsdl_lex.specs.declared.token.TokenKind.{TokenKind};
ghost use Rattle.dsdl_lex.specs.Bytes.{is_printable};
ghost use Rattle.dsdl_lex.specs.Tokens.{IsKind, KindsDiffer, IsReadOneWay};
ghost use Rattle.dsdl_lex.specs.OneName.{AreOfTypes};

/// A text is a token of one kind at most.
pub fn kinds()
    ensures { KindsDiffer }
{}

/// A line has either one list of tokens or one first place at which none begins.
pub fn one_reading()
    ensures { IsReadOneWay }
{}

/// Each byte of a token is printable ASCII, from 0x20 to 0x7E.
pub fn ascii()
    ensures ascii { (kind : TokenKind) (text : List ℕ) → IsKind kind text → IsAscii text }
    ensures printable { (kind : TokenKind) (text : List ℕ) → IsKind kind text
        → list_all is_printable text ≡ true }
{}

/// The names and versions of the grammar are those of types.
pub fn names_of_types()
    ensures { AreOfTypes }
{}
