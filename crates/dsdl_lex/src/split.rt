//! The line between a request and its response (Cyphal Specification, section 3.2).
ghost use Rattle.std.specs.Prelude.{◌≡◌, ℕ, ◌+◌, ◌≤◌, ◌<◌, true, false, length, slice_index, take, drop, IfNone, IfSome};
ghost use Rattle.std.specs.List.{list_all};
ghost use Rattle.dsdl_lex.specs.Bytes as bytes;
ghost use Rattle.dsdl_lex.specs.Texts as texts;
ghost use Rattle.dsdl_lex.specs.Tokens.{IsToken, is_blank_end};
ghost use Rattle.dsdl_lex.specs.Scans.{NoSplit, BlanksTo, DashesTo};
ghost use Rattle.dsdl_lex.specs.declared.token.TokenKind.TheVariants.{Split};

use crate::bytes::is_blank;

/// The place behind the blanks from a place on.
fn blanks_end(line: &[u8], from: usize) -> usize
    requires { from ≤ length line.now }
    ensures { BlanksTo line.now from result }
{
    let mut at = from;
    while at < line.len() && is_blank(line[at]) {
        at += 1;
    }
    at
}

/// The place behind the `-` from a place on.
fn dashes_end(line: &[u8], from: usize) -> usize
    requires { from ≤ length line.now }
    ensures { DashesTo line.now from result }
{
    let mut at = from;
    while at < line.len() && line[at] == b'-' {
        at += 1;
    }
    at
}

/// Whether blanks alone, or blanks and a comment, stand from a place on.
fn is_blank_from(line: &[u8], from: usize) -> bool
    requires { from ≤ length line.now }
    ensures { result ≡ is_blank_end (drop from line.now) }
{
    let end = blanks_end(line, from);
    end == line.len() || line[end] == b'#'
}

/// Where the `---` of a line stands that is nothing else but blanks and a comment: its place and
/// its length.
pub fn split_of(line: &[u8]) -> Option<(usize, usize)>
    ensures found { IfSome result (λ r. IsToken line.now r.0 Split r.1) }
    ensures none { IfNone result (NoSplit line.now) }
{
    let from = blanks_end(line, 0);
    let to = dashes_end(line, from);
    if to - from >= 3 && is_blank_from(line, to) {
        Some((from, to - from))
    } else {
        None
    }
}
