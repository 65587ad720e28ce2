//! The parts of a line that a text would have.
ghost use Rattle.std.specs.Prelude.{◌≡◌, ℤ, ◌+◌, ◌*◌, ◌^◌, ◌<◌, ◌≤◌, ◌++◌, ◌∷◌, true, ℕ, List as ListOf, Bool as Truth, drop, length, slice_index};
ghost use Rattle.std.specs.Fmt.{decimal, signed_decimal};
ghost use Rattle.hex.specs.Hex.{upper_digits};
ghost use Rattle.dsdl_types.specs.Fits.{IsNumber};
ghost use Rattle.value_text.specs.Ends.{Clear, Halts, Reads, has_end, stop, top};
ghost use Rattle.value_text.specs.Words.{hex_digits, lead};
ghost use Rattle.value_text.specs.Texts.{truth_text};

/// The byte at a place, or 0 behind the end.
pub fn peek(line: &[u8], at: usize) -> u8
    ensures { result ≡ top (drop at line.now) }
{
    match line.get(at) {
        Some(byte) => *byte,
        None => 0,
    }
}

/// Goes past so many bytes.
pub fn skip(line: &[u8], at: &mut usize, count: usize)
    ensures { drop at.new line.now ≡ drop count (drop at.old line.now) }
{
    *at = at.saturating_add(count);
}

/// Goes past what is in front of a text, as the first one or a later one.
pub fn skip_lead(line: &[u8], at: &mut usize, first: bool)
    ensures { drop at.new line.now ≡ drop (length (lead first)) (drop at.old line.now) }
{
    skip(line, at, if first { 0 } else { 2 });
}

/// A truth value.
pub fn read_truth(line: &[u8], at: &mut usize) -> bool
    ensures { (b : Truth) (rest : ListOf ℕ) → drop at.old line.now ≡ truth_text b ++ rest
        → (result ≡ b) × (drop at.new line.now ≡ rest) }
{
    let truth = peek(line, *at) == b't';
    skip(line, at, if truth { 4 } else { 5 });
    truth
}

/// The value of a hex digit; of any other byte some value below 16.
fn digit_value(digit: u8) -> u8
    ensures fits { result < 16 }
    ensures digit { (d : ℕ) → d < 16 → digit ≡ slice_index upper_digits d → result ≡ d }
{
    match digit {
        b'0'..=b'9' => digit - b'0',
        b'A'..=b'F' => digit - (b'A' - 10),
        _ => 0,
    }
}

/// The number that so many hex digits write.
pub fn read_hex(line: &[u8], at: &mut usize, digits: u8) -> u64
    requires { digits < 17 }
    ensures fits { result < 2 ^ (4 * digits) }
    ensures reads { (n : ℕ) (rest : ListOf ℕ) → n < 2 ^ (4 * digits)
        → drop at.old line.now ≡ hex_digits digits n ++ rest → (result ≡ n)
        × (drop at.new line.now ≡ rest) }
{
    let mut number = 0;
    for _ in 0..digits {
        number = number * 16 + u64::from(digit_value(peek(line, *at)));
        skip(line, at, 1);
    }
    number
}

/// Whether nothing stands there, or a byte that ends a text.
pub fn has_end(line: &[u8], at: usize) -> bool
    ensures { result ≡ has_end (drop at line.now) }
{
    match line.get(at) {
        Some(byte) => is_stop(*byte),
        None => true,
    }
}

/// Whether a name and a colon stand there.
pub fn is_named(line: &[u8], at: usize, name: &[u8]) -> bool
    ensures named { result ≡ true → (rest : ListOf ℕ) × drop at line.now ≡ name.now ++ 58 ∷ rest }
    ensures other { (rest : ListOf ℕ) → drop at line.now ≡ name.now ++ 58 ∷ rest → result ≡ true }
{
    let rest = behind(line, at);
    rest.starts_with(name) && peek(rest, name.len()) == b':'
}

/// Whether a byte ends a text.
fn is_stop(byte: u8) -> bool
    ensures { result ≡ stop byte }
{
    matches!(byte, b',' | b']' | b'}')
}

/// The number that decimal digits write; 0 for any other bytes.
fn magnitude(digits: &[u8]) -> u64
    ensures { (n : ℕ) → n < 2 ^ 64 → digits.now ≡ decimal n → result ≡ n }
{
    match std::str::from_utf8(digits) {
        Ok(text) => text.parse::<u64>().unwrap_or(0),
        Err(_) => 0,
    }
}

/// The bytes in front of a comma, a closing bracket or brace, or the end.
fn token<'a>(line: &'a [u8], at: usize) -> &'a [u8]
    ensures { (t rest : ListOf ℕ) → Clear stop t → Halts stop rest → drop at line.now ≡ t ++ rest
        → result.now ≡ t }
{
    let rest = behind(line, at);
    for len in 0..rest.len() {
        if is_stop(rest[len]) {
            return &rest[..len];
        }
    }
    rest
}

/// The bytes from a place on.
fn behind<'a>(line: &'a [u8], at: usize) -> &'a [u8]
    ensures { result.now ≡ drop at line.now }
{
    match line.get(at..) {
        Some(rest) => rest,
        None => &[],
    }
}

/// A whole number.
pub fn read_number(line: &[u8], at: &mut usize) -> i128
    ensures fits { IsNumber result }
    ensures reads { Reads IsNumber signed_decimal (drop at.old line.now)
        (drop at.new line.now) result }
{
    let token = token(line, *at);
    skip(line, at, token.len());
    number_of(token)
}

/// The whole number that a sign and digits write; some number for any other bytes.
fn number_of(token: &[u8]) -> i128
    ensures fits { IsNumber result }
    ensures reads { (z : ℤ) → IsNumber z → token.now ≡ signed_decimal z → result ≡ z }
{
    if peek(token, 0) == b'-' {
        -i128::from(magnitude(behind(token, 1)).min(1 << 63))
    } else {
        i128::from(magnitude(token))
    }
}
