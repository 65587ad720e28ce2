//! Decimal digits.
ghost use Rattle.std.specs.Prelude.{◌≡◌, ◌≤◌, ◌<◌, true, false, IfSome, decimal, length, take};
ghost use Rattle.std.specs.Prelude.{slice_index};

/// The greatest number that any digit may follow, so that the number of both is below 2^64.
const MOST: u64 = u64::MAX / 10 - 1;

/// Digits in front of some bytes.
#[derive(Drop)]
pub struct Digits {
    /// The number that they write.
    pub number: u64,
    /// How many they are.
    pub len: usize,
}

/// The digits in front of some bytes, of a number without zeros in front; nothing where none stands
/// there. Behind `0` and behind those of a number near 2^64 others may stand.
#[inline(always)]
pub fn digits_at(bytes: &[u8]) -> Option<Digits>
    ensures { IfSome result (λ it. decimal it.number ≡ take it.len bytes.now) }
{
    if bytes.is_empty() {
        return None;
    }
    let first = bytes[0].wrapping_sub(b'0');
    if first > 9 {
        return None;
    }
    if bytes.len() == 1 || bytes[1].wrapping_sub(b'0') > 9 || first == 0 {
        return Some(Digits {
            number: u64::from(first),
            len: 1,
        });
    }
    if bytes.len() < 8 {
        return Some(with_later(bytes, Digits { number: 0, len: 0 }));
    }
    let few = few_digits(bytes);
    if few.len < 8 {
        return Some(few);
    }
    Some(with_later(bytes, few))
}

/// The digits among the first eight bytes, of which the first isn't `0`. All eight are gone over,
/// whatever their number.
#[inline(always)]
fn few_digits(bytes: &[u8]) -> Digits
    requires eight { 8 ≤ length bytes.now }
    requires least { 49 ≤ slice_index bytes.now 0 }
    requires most { slice_index bytes.now 0 ≤ 57 }
    ensures digits { decimal result.number ≡ take result.len bytes.now }
    ensures some { (1 ≤ result.number) × (1 ≤ result.len) }
    ensures few { result.len ≤ 8 }
{
    let mut number = 0;
    let mut len = 0;
    for index in 0..8 {
        let value = bytes[index].wrapping_sub(b'0');
        if goes_on(len, index, value) {
            number = number * 10 + u64::from(value);
            len += 1;
        }
    }
    Digits { number, len }
}

/// Whether a digit of this value stands there, and all bytes before are digits.
#[inline(always)]
fn goes_on(len: usize, index: usize, value: u8) -> bool
    ensures yes { result ≡ true → (len ≡ index) × (value ≤ 9) }
    ensures no { result ≡ false → len ≡ index → 10 ≤ value }
{
    len == index && value <= 9
}

/// Some digits in front, or none yet, and those behind them; the first byte is a digit that isn't
/// `0`.
#[inline(always)]
fn with_later(bytes: &[u8], front: Digits) -> Digits
    requires some { 1 ≤ length bytes.now }
    requires least { 49 ≤ slice_index bytes.now 0 }
    requires most { slice_index bytes.now 0 ≤ 57 }
    requires within { front.len ≤ length bytes.now }
    requires none { front.len ≡ 0 → front.number ≡ 0 }
    requires digits { 1 ≤ front.len
        → (1 ≤ front.number) × (decimal front.number ≡ take front.len bytes.now) }
    ensures { decimal result.number ≡ take result.len bytes.now }
{
    let mut number = front.number;
    for index in front.len..bytes.len() {
        let value = bytes[index].wrapping_sub(b'0');
        if value > 9 || number > MOST {
            return Digits { number, len: index };
        }
        number = number * 10 + u64::from(value);
    }
    Digits {
        number,
        len: bytes.len(),
    }
}
