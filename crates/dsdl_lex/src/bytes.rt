ghost use Rattle.std.specs.Prelude.{◌≡◌, ◌≤◌, drop, length};
ghost use Rattle.dsdl_lex.specs.Bytes as spec;

/// A letter or `_`.
pub fn is_letter(b: u8) -> bool
    ensures { result ≡ spec.is_letter b }
{
    (b >= b'a' && b <= b'z') || (b >= b'A' && b <= b'Z') || b == b'_'
}

/// Whether it is a decimal digit.
pub fn is_digit(b: u8) -> bool
    ensures { result ≡ spec.is_digit b }
{
    b >= b'0' && b <= b'9'
}

/// A letter, a digit or `_`.
pub fn is_word(b: u8) -> bool
    ensures { result ≡ spec.is_word b }
{
    is_letter(b) || is_digit(b)
}

/// A space or a tab.
pub fn is_blank(b: u8) -> bool
    ensures { result ≡ spec.is_blank b }
{
    b == b' ' || b == b'\t'
}

/// Whether it begins and ends a string.
pub fn is_quote(b: u8) -> bool
    ensures { result ≡ spec.is_quote b }
{
    b == b'\'' || b == b'"'
}

/// A byte that may stand in a string between such quotes.
pub fn is_inside(quote: u8, b: u8) -> bool
    ensures { result ≡ spec.is_inside quote b }
{
    b >= b' ' && b <= b'~' && b != quote && b != b'\\'
}

/// The bytes from a place on.
pub fn behind(line: &[u8], at: usize) -> &[u8]
    requires { at ≤ length line.now }
    ensures { result.now ≡ drop at line.now }
{
    &line[at..]
}

/// Whether the bytes from a place on begin with a letter.
pub fn begins_name(line: &[u8], at: usize) -> bool
    requires { at ≤ length line.now }
    ensures { result ≡ spec.begins_name (drop at line.now) }
{
    match behind(line, at) {
        [] => false,
        [b, ..] => is_letter(*b),
    }
}
