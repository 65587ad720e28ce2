//! How many bytes of a text count.
ghost use Rattle.std.specs.Prelude.{◌≡◌};
ghost use Rattle.node_plan.specs.Limit.{is_plan_two, is_version_two, limit_of, skips};

/// The greatest number of bytes of a text of version 1. The line of version 2 begins among these.
const MAX_FIRST: usize = 1 << 20;

/// The greatest number of bytes of a plan's text: 2^20 + 32 of version 2, of version 1 32 less. The
/// first `MAX_TEXT + 1` bytes of a text decide all that is said of it.
pub const MAX_TEXT: usize = MAX_FIRST + 32;

/// Whether a line begins here that is `plan 2`.
fn is_plan_two(text: &[u8]) -> bool
    ensures { result ≡ is_plan_two text.now }
{
    let first = &text[..text.len().min(7)];
    first == b"plan 2".as_slice() || first == b"plan 2\n".as_slice()
}

/// Whether a comment goes on behind this byte of a skipped line; nothing where the line isn't
/// skipped.
fn skips(comment: bool, b: u8) -> Option<bool>
    ensures { result ≡ skips comment b }
{
    if b == b'\n' {
        Some(false)
    } else if comment || b == b'#' {
        Some(true)
    } else {
        None
    }
}

/// Whether the first line that isn't skipped is `plan 2`, and begins among the first 2^20 bytes.
pub fn is_version_two(text: &[u8]) -> bool
    ensures { result ≡ is_version_two text.now }
{
    let mut comment = false;
    for i in 0..text.len().min(MAX_FIRST) {
        match skips(comment, text[i]) {
            Some(next) => comment = next,
            None => return is_plan_two(&text[i..]),
        }
    }
    false
}

/// The greatest number of bytes that this text may have.
pub fn limit_of(text: &[u8]) -> usize
    ensures { result ≡ limit_of text.now }
{
    if is_version_two(text) {
        MAX_TEXT
    } else {
        MAX_FIRST
    }
}
