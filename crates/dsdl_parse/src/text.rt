//! The lines of a text (Cyphal Specification, section 3.2).
ghost use Rattle.std.specs.Prelude.{◌≡◌, [], MatchOption};
ghost use Rattle.dsdl_parse.specs.Lines.{IsFirstLine, without_return};

use memchr::memchr;

/// A line without one `\r` at its end.
fn without_return(line: &[u8]) -> &[u8]
    ensures { result.now ≡ without_return line.now }
{
    match line.split_last() {
        Some((last, front)) => { if *last == b'\r' { front } else { line } }
        None => line,
    }
}

/// The first line of a text without its end, and what stands behind it; `None` where nothing is left.
pub fn first_line(text: &[u8]) -> Option<(&[u8], &[u8])>
    ensures { MatchOption result (text.now ≡ []) (λ p. IsFirstLine text.now p.0.now p.1.now) }
{
    if text.is_empty() {
        return None;
    }
    match memchr(b'\n', text) {
        Some(end) => Some((without_return(&text[..end]), &text[end + 1..])),
        None => Some((text, &[])),
    }
}
