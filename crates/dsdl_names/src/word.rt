//! Which texts are names, and which names are kept (Cyphal Specification, section 3.2).
ghost use Rattle.std.specs.Prelude.{◌≡◌};
ghost use Rattle.std.specs.List.{list_all, list_any};
ghost use Rattle.std.specs.Char.{is_ascii_digit};
ghost use Rattle.dsdl_names.specs.Parts.{parts_of};
ghost use Rattle.dsdl_names.specs.Words.{is_name_byte, is_first, is_name, is_word, is_numbered, is_between_underscores, is_reserved};

use crate::parts::cut;

fn is_name_byte(b: u8) -> bool
    ensures { result ≡ is_name_byte b }
{
    b.is_ascii_alphanumeric() || b == b'_'
}

fn are_name_bytes(text: &[u8]) -> bool
    ensures { result ≡ list_all is_name_byte text.now }
{
    text.iter().all(|b| is_name_byte(*b))
}

fn is_first(b: u8) -> bool
    ensures { result ≡ is_first b }
{
    b.is_ascii_alphabetic() || b == b'_'
}

/// Whether a text is a letter or `_` and then letters, digits and `_`.
pub fn is_name(text: &[u8]) -> bool
    ensures { result ≡ is_name text.now }
{
    match text {
        [] => false,
        [first, rest @ ..] => is_first(*first) && are_name_bytes(rest),
    }
}

fn are_digits(text: &[u8]) -> bool
    ensures { result ≡ list_all is_ascii_digit text.now }
{
    text.iter().all(|b| b.is_ascii_digit())
}

/// Whether a text is a word, with its letters in either case.
fn is_word(word: &[u8], text: &[u8]) -> bool
    ensures { result ≡ is_word word.now text.now }
{
    match word {
        [] => text.is_empty(),
        [w, word @ ..] => match text {
            [] => false,
            [b, text @ ..] => b.to_ascii_lowercase() == *w && is_word(word, text),
        },
    }
}

/// Whether a text is a word, with its letters in either case, followed by digits alone.
fn is_numbered(word: &[u8], text: &[u8]) -> bool
    ensures { result ≡ is_numbered word.now text.now }
{
    match word {
        [] => !text.is_empty() && are_digits(text),
        [w, word @ ..] => match text {
            [] => false,
            [b, text @ ..] => b.to_ascii_lowercase() == *w && is_numbered(word, text),
        },
    }
}

/// Whether a name has two bytes or more, and begins and ends with `_`.
fn is_between_underscores(name: &[u8]) -> bool
    ensures { result ≡ is_between_underscores name.now }
{
    name.len() > 1 && name.starts_with(b"_") && name.ends_with(b"_")
}

/// Whether a name is kept for the language (Cyphal Specification, section 3.2): `truncated`,
/// `saturated`, `true`, `false`, `bool`, `void`, `byte` or `utf8`; `uint`, `int`, `float` or `void`
/// with digits behind it; all of these in either case of their letters; or a name of two bytes or
/// more that begins and ends with `_`. `_` alone is a name as any other.
pub fn is_reserved(name: &[u8]) -> bool
    ensures { result ≡ is_reserved name.now }
{
    is_word(b"truncated", name)
        || is_word(b"saturated", name)
        || is_word(b"true", name)
        || is_word(b"false", name)
        || is_word(b"bool", name)
        || is_word(b"void", name)
        || is_word(b"byte", name)
        || is_word(b"utf8", name)
        || is_numbered(b"uint", name)
        || is_numbered(b"int", name)
        || is_numbered(b"float", name)
        || is_numbered(b"void", name)
        || is_between_underscores(name)
}

/// Whether all parts of a text, with the byte `b` between each two, are names.
pub fn all_names(b: u8, text: &[u8]) -> bool
    ensures { result ≡ list_all is_name (parts_of b text.now) }
{
    let mut rest = text;
    while let Some((name, more)) = cut(b, rest) {
        if !is_name(name) {
            return false;
        }
        rest = more;
    }
    is_name(rest)
}

/// Whether one of the parts is a name that is kept.
pub fn any_reserved(b: u8, text: &[u8]) -> bool
    ensures { result ≡ list_any is_reserved (parts_of b text.now) }
{
    let mut rest = text;
    while let Some((name, more)) = cut(b, rest) {
        if is_reserved(name) {
            return true;
        }
        rest = more;
    }
    is_reserved(rest)
}
