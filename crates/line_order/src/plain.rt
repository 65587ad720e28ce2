//! A line that has one space between its parts, and stays as it is.
ghost use Rattle.std.specs.Prelude.{◌≡◌, ◌≤◌, ◌<◌, ◌+◌, ◌^◌, ◌++◌, ◌∷◌, [], true, length, take, drop, IfSome, Some};
ghost use Rattle.frame_log.specs.Line.{bus_of};
ghost use Rattle.line_order.specs.Form.{Line, said_of};
ghost use Rattle.line_order.specs.Plain.{IsMicros};

use crate::form::decimal;
use crate::front::Front;

/// MICROS, `)` and a space.
#[inline(always)]
fn micros(s: &[u8]) -> Option<u64>
    ensures is { IfSome result (λ n. IsMicros s.now n) }
    ensures bound { IfSome result (λ n. n < 10 ^ 12) }
    ensures long { IfSome result (λ n. 8 ≤ length s.now) }
{
    if s.len() < 8 || s[6] != b')' || s[7] != b' ' {
        return None;
    }
    decimal(&s[..6])
}

/// Whether a name of four bytes, as `can0`, and a space stand in front.
#[inline(always)]
fn is_four(s: &[u8]) -> bool
    ensures is { result ≡ true → bus_of s.now ≡ Some (take 4 s.now, drop 5 s.now) }
    ensures within { result ≡ true → 4 < length s.now }
{
    if s.len() <= 4 || s[4] != b' ' {
        return false;
    }
    s[0] != b' ' && s[1] != b' ' && s[2] != b' ' && s[3] != b' '
}

/// The number of bytes of the name of a bus, behind which a space stands.
#[inline(always)]
fn bus_len(s: &[u8]) -> Option<usize>
    ensures is { IfSome result (λ n. bus_of s.now ≡ Some (take n s.now, drop (n + 1) s.now)) }
    ensures within { IfSome result (λ n. n < length s.now) }
{
    if is_four(s) {
        return Some(4);
    }
    bus_len_any(s)
}

/// The same of a name of any length.
#[inline(always)]
fn bus_len_any(s: &[u8]) -> Option<usize>
    ensures is { IfSome result (λ n. bus_of s.now ≡ Some (take n s.now, drop (n + 1) s.now)) }
    ensures within { IfSome result (λ n. n < length s.now) }
{
    for i in 0..s.len() {
        if s[i] == b' ' {
            if i == 0 || i > 15 {
                return None;
            }
            return Some(i);
        }
    }
    None
}

/// The moment of a line that stays as it is, and has this front. None says nothing of the line.
#[inline(always)]
pub fn plain(front: &Front, line: &[u8]) -> Option<u64>
    ensures { IfSome result (λ m. said_of line.now ≡ Line m (line.now ++ 10 ∷ [])) }
{
    if line.len() < 16 || !front.is_at(line) {
        return None;
    }
    let behind = &line[front.len..];
    let micros = micros(behind)?;
    let name = &behind[8..];
    let n = bus_len(name)?;
    let rest = &name[n + 1..];
    let k = rest.len();
    if k == 0 || rest[0] == b' ' || rest[k - 1] == b'\r' {
        return None;
    }
    Some(front.seconds * 1_000_000 + micros)
}
