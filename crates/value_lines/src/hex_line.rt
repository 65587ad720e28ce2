//! The bytes of which a line is the hex, sixteen digits at a time.
ghost use Rattle.std.specs.Prelude.{◌≡◌, ◌≤◌, ◌<◌, ◌+◌, ◌*◌, ◌/◌, ◌%◌, ◌^◌, ◌++◌, ◌∷◌, [], true, IfOk, OnOk, length, map, take};
ghost use Rattle.line_text.specs.Buffer.{room_of, text_of};
ghost use Rattle.value_lines.specs.Digits.{AreDigits, IsHexOf, IsRead, PutsHex, bytes_of_pairs, digit};

use line_text::TextBuffer;
use std::simd::prelude::*;
use value_put::Stop;

/// Reads the bytes of which a text is the hex, and answers how many they are; sixteen more stand behind them. It gives
/// up a text that is no hex.
pub fn read_hex(hex: &[u8], bytes: &mut TextBuffer) -> Result<u64, Stop>
    requires { length hex.now ≤ 2 ^ 20 }
    ensures read { IfOk result (λ count. IsRead hex.now count (text_of bytes.new)) }
    ensures few { IfOk result (λ count. count ≤ 2 ^ 20) }
{
    if hex.len() % 2 != 0 {
        return Err(Stop::GivesUp);
    }
    bytes.clear();
    bytes.reserve(hex.len() / 2 + 32)?;
    put_bytes(hex, bytes)?;
    bytes.put(&[0; 16], 16);
    Ok(hex.len() as u64 / 2)
}

/// Puts the bytes of which a text of an even number of digits is the hex.
#[inline(always)]
fn put_bytes(hex: &[u8], bytes: &mut TextBuffer) -> Result<(), Stop>
    requires even { length hex.now % 2 ≡ 0 }
    requires room { length hex.now / 2 + 32 ≤ room_of bytes.old }
    ensures put { OnOk result (PutsHex hex.now (text_of bytes.old) (text_of bytes.new)) }
    ensures room { OnOk result (16 ≤ room_of bytes.new) }
{
    if hex.len() >= 16 {
        put_long(hex, bytes)
    } else if hex.len() >= 8 {
        put_short(hex, bytes)
    } else {
        put_few(hex, bytes)
    }
}

/// The same of sixteen digits or more. The first block stands for what the whole blocks leave; each is put behind what
/// counts of the one before.
fn put_long(hex: &[u8], bytes: &mut TextBuffer) -> Result<(), Stop>
    requires long { 16 ≤ length hex.now }
    requires even { length hex.now % 2 ≡ 0 }
    requires room { length hex.now / 2 + 32 ≤ room_of bytes.old }
    ensures put { OnOk result (PutsHex hex.now (text_of bytes.old) (text_of bytes.new)) }
    ensures room { OnOk result (16 ≤ room_of bytes.new) }
{
    let rest = hex.len() % 16;
    put_sixteen(hex, rest / 2, bytes)?;
    for block in 0..hex.len() / 16 {
        put_sixteen(&hex[rest + 16 * block..], 8, bytes)?;
    }
    Ok(())
}

/// The same of 8 to 15 digits: the first eight and the last eight as one block.
#[inline(always)]
fn put_short(hex: &[u8], bytes: &mut TextBuffer) -> Result<(), Stop>
    requires some { 8 ≤ length hex.now }
    requires few { length hex.now < 16 }
    requires even { length hex.now % 2 ≡ 0 }
    requires room { 32 ≤ room_of bytes.old }
    ensures put { OnOk result (PutsHex hex.now (text_of bytes.old) (text_of bytes.new)) }
    ensures room { OnOk result (16 ≤ room_of bytes.new) }
{
    let front = hex.len() - 8;
    let block = eight_bytes(joined(u8x8::from_slice(hex), u8x8::from_slice(&hex[front..])))?;
    bytes.put(&block, front / 2);
    bytes.put(&[block[4], block[5], block[6], block[7]], 4);
    Ok(())
}

/// The same of fewer than eight digits.
#[inline(never)]
fn put_few(hex: &[u8], bytes: &mut TextBuffer) -> Result<(), Stop>
    requires few { length hex.now < 8 }
    requires even { length hex.now % 2 ≡ 0 }
    requires room { 32 ≤ room_of bytes.old }
    ensures put { OnOk result (PutsHex hex.now (text_of bytes.old) (text_of bytes.new)) }
    ensures room { OnOk result (16 ≤ room_of bytes.new) }
{
    for pair in 0..hex.len() / 2 {
        put_pair(hex[2 * pair], hex[2 * pair + 1], bytes)?;
    }
    Ok(())
}

/// Puts the byte of two digits.
fn put_pair(high: u8, low: u8, bytes: &mut TextBuffer) -> Result<(), Stop>
    requires room { 1 ≤ room_of bytes.old }
    ensures put { OnOk result (PutsHex (high ∷ low ∷ []) (text_of bytes.old) (text_of bytes.new)) }
    ensures room { OnOk result (room_of bytes.new + 1 ≡ room_of bytes.old) }
{
    let (high, low) = (digit(high), digit(low));
    if high > 15 || low > 15 {
        return Err(Stop::GivesUp);
    }
    bytes.put(&[high * 16 + low], 1);
    Ok(())
}

/// The value of a hex digit of either case, 16 of any other byte.
fn digit(c: u8) -> u8
    ensures value { result ≡ digit c }
    ensures few { result ≤ 16 }
{
    match c {
        b'A'..=b'F' => c - b'A' + 10,
        b'a'..=b'f' => c - b'a' + 10,
        b'0'..=b'9' => c - b'0',
        _ => 16,
    }
}

/// Puts the first `count` of the bytes of which the first sixteen digits are the hex.
#[inline(always)]
fn put_sixteen(hex: &[u8], count: usize, bytes: &mut TextBuffer) -> Result<(), Stop>
    requires long { 16 ≤ length hex.now }
    requires few { count ≤ 8 }
    requires room { 8 ≤ room_of bytes.old }
    ensures put { OnOk result (PutsHex (take (2 * count) hex.now) (text_of bytes.old)
        (text_of bytes.new)) }
    ensures room { OnOk result (room_of bytes.new + count ≡ room_of bytes.old) }
{
    let block = eight_bytes(u8x16::from_slice(hex))?;
    bytes.put(&block, count);
    Ok(())
}

/// Two halves as one block.
#[inline(always)]
fn joined(first: u8x8, last: u8x8) -> u8x16
    ensures { result ≡ first ++ last }
{
    first.shuffle(last, [0, 1, 2, 3, 4, 5, 6, 7, 8, 9, 10, 11, 12, 13, 14, 15])
}

/// The bytes of which sixteen digits are the hex.
#[inline(always)]
fn eight_bytes(digits: u8x16) -> Result<[u8; 8], Stop>
    ensures { IfOk result (λ bytes. IsHexOf digits bytes) }
{
    let values = values_of(digits);
    if !are_digits(values) {
        return Err(Stop::GivesUp);
    }
    Ok(paired(values).to_array())
}

/// The values of sixteen bytes as hex digits of either case, 16 for any other.
#[inline(always)]
fn values_of(c: u8x16) -> u8x16
    ensures { result ≡ map digit c }
{
    let d = c - u8x16::splat(48);
    let l = (c | u8x16::splat(32)) - u8x16::splat(87);
    let is_digit = d.simd_lt(u8x16::splat(10));
    let is_letter = (l - u8x16::splat(10)).simd_lt(u8x16::splat(6));
    is_digit.select(d, is_letter.select(l, u8x16::splat(16)))
}

/// Whether sixteen values are those of digits.
#[inline(always)]
fn are_digits(values: u8x16) -> bool
    ensures { result ≡ true → AreDigits values }
{
    values.simd_gt(u8x16::splat(15)).to_bitmask() == 0
}

/// The bytes of eight pairs of values.
#[inline(always)]
fn paired(values: u8x16) -> u8x8
    ensures { result ≡ bytes_of_pairs values }
{
    let (high, low) = values.deinterleave(values);
    (high.extract::<0, 8>() << u8x8::splat(4)) | low.extract::<0, 8>()
}
