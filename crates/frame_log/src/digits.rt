//! Bytes, digits and numbers at the front of a text.
ghost use Rattle.std.specs.Prelude.{◌≡◌, ◌≤◌, ◌<◌, ◌^◌, ◌*◌, ◌+◌, option_map, length, take, drop, IfSome, Some, ◌++◌};
ghost use Rattle.frame_log.specs.Line.{after, cut, front, decimal_from, hex_digit, hex_from};

/// The value of each byte as a hex digit, or 16.
static HEX: [u8; 256] = [
    16, 16, 16, 16, 16, 16, 16, 16, 16, 16, 16, 16, 16, 16, 16, 16, 16, 16, 16, 16, 16, 16, 16, 16,
    16, 16, 16, 16, 16, 16, 16, 16, 16, 16, 16, 16, 16, 16, 16, 16, 16, 16, 16, 16, 16, 16, 16, 16,
    0, 1, 2, 3, 4, 5, 6, 7, 8, 9, 16, 16, 16, 16, 16, 16, 16, 10, 11, 12, 13, 14, 15, 16, 16, 16,
    16, 16, 16, 16, 16, 16, 16, 16, 16, 16, 16, 16, 16, 16, 16, 16, 16, 16, 16, 16, 16, 16, 16, 10,
    11, 12, 13, 14, 15, 16, 16, 16, 16, 16, 16, 16, 16, 16, 16, 16, 16, 16, 16, 16, 16, 16, 16, 16,
    16, 16, 16, 16, 16, 16, 16, 16, 16, 16, 16, 16, 16, 16, 16, 16, 16, 16, 16, 16, 16, 16, 16, 16,
    16, 16, 16, 16, 16, 16, 16, 16, 16, 16, 16, 16, 16, 16, 16, 16, 16, 16, 16, 16, 16, 16, 16, 16,
    16, 16, 16, 16, 16, 16, 16, 16, 16, 16, 16, 16, 16, 16, 16, 16, 16, 16, 16, 16, 16, 16, 16, 16,
    16, 16, 16, 16, 16, 16, 16, 16, 16, 16, 16, 16, 16, 16, 16, 16, 16, 16, 16, 16, 16, 16, 16, 16,
    16, 16, 16, 16, 16, 16, 16, 16, 16, 16, 16, 16, 16, 16, 16, 16, 16, 16, 16, 16, 16, 16, 16, 16,
    16, 16, 16, 16, 16, 16, 16, 16, 16, 16, 16, 16, 16, 16,
];

/// What follows the byte `b`, which stands in front.
#[inline(always)]
pub fn after(b: u8, s: &[u8]) -> Option<&[u8]>
    ensures { option_map (λ r. r.now) result ≡ after b s.now }
{
    match s {
        [x, rest @ ..] if *x == b => Some(rest),
        _ => None,
    }
}

/// What stands before the first byte `b`, and behind it.
#[inline(always)]
pub fn cut(b: u8, s: &[u8]) -> Option<(&[u8], &[u8])>
    ensures { option_map (λ p. (p.0.now, p.1.now)) result ≡ cut b s.now }
{
    for i in 0..s.len() {
        if s[i] == b {
            return Some((&s[..i], &s[i + 1..]));
        }
    }
    None
}

/// The first `n` bytes, and the others.
#[inline(always)]
pub fn front(n: usize, s: &[u8]) -> Option<(&[u8], &[u8])>
    ensures { option_map (λ p. (p.0.now, p.1.now)) result ≡ front n s.now }
{
    if s.len() < n {
        None
    } else {
        Some((&s[..n], &s[n..]))
    }
}

/// The number of at most 12 digits.
#[inline(always)]
pub fn decimal(s: &[u8]) -> Option<u64>
    requires { length s.now ≤ 12 }
    ensures value { result ≡ decimal_from 0 s.now }
    ensures bound { IfSome result (λ n. n < 10 ^ 12) }
{
    let mut n = 0u64;
    for b in s {
        if *b < b'0' || *b > b'9' {
            return None;
        }
        n = n * 10 + (*b - b'0') as u64;
    }
    Some(n)
}

/// The value of a hex digit, or 16.
#[inline(always)]
pub fn hex_digit(b: u8) -> u8
    ensures { result ≡ hex_digit b }
{
    HEX[b as usize]
}

/// The number of at most 8 hex digits.
#[inline(always)]
pub fn hexadecimal(s: &[u8]) -> Option<u32>
    requires { length s.now ≤ 8 }
    ensures { result ≡ hex_from 0 s.now }
{
    let mut n = 0u32;
    for b in s {
        let digit = hex_digit(*b);
        if digit > 15 {
            return None;
        }
        n = n * 16 + digit as u32;
    }
    Some(n)
}
