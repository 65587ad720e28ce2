//! Truth values and numbers.
ghost use Rattle.std.specs.Prelude.{◌≡◌, ◌≤◌, ◌-◌, ◌^◌, Bool as Truth, OnOk};
ghost use Rattle.dsdl_types.specs.Schemas.{PBool, PFloat, PInt, PUint, Simple};
ghost use Rattle.value_scan.specs.Scanned.{IsOwn};

use crate::bit_buffer::BitBuffer;
use crate::gives_up::GivesUp;
use crate::line::{eat, eat_hex, eat_number};

/// Scans a truth value.
#[inline(always)]
pub fn scan_truth(line: &[u8], at: &mut usize, out: &mut BitBuffer) -> Result<(), GivesUp>
    ensures scanned { OnOk result (IsOwn (Simple PBool) line.now at.old out.old at.new out.new) }
    ensures place { OnOk result (out.old.place ≤ out.new.place) }
{
    if line.get(*at) == Some(&b't') {
        eat(line, at, b"true")?;
        out.put(1, 1)
    } else {
        eat(line, at, b"false")?;
        out.put(0, 1)
    }
}

/// Scans an unsigned number that its type holds.
#[inline(always)]
pub fn scan_unsigned(
    bits: u8,
    line: &[u8],
    at: &mut usize,
    out: &mut BitBuffer,
) -> Result<(), GivesUp>
    ensures scanned { OnOk result ((cast : Truth) →
        IsOwn (Simple (PUint bits cast)) line.now at.old out.old at.new out.new) }
    ensures place { OnOk result (out.old.place ≤ out.new.place) }
{
    if bits < 1 || bits > 64 {
        return Err(GivesUp);
    }
    let number = eat_number(line, at)?;
    if number > most_unsigned(bits) {
        return Err(GivesUp);
    }
    out.put(number, u32::from(bits))
}

/// The greatest unsigned integer of so many bits.
#[inline(always)]
fn most_unsigned(bits: u8) -> u64
    requires { (1 ≤ bits) × (bits ≤ 64) }
    ensures { result ≡ 2 ^ bits - 1 }
{
    u64::MAX >> (64 - u32::from(bits))
}

/// Scans a signed number that its type holds.
#[inline(always)]
pub fn scan_signed(
    bits: u8,
    line: &[u8],
    at: &mut usize,
    out: &mut BitBuffer,
) -> Result<(), GivesUp>
    ensures scanned { OnOk result
        (IsOwn (Simple (PInt bits)) line.now at.old out.old at.new out.new) }
    ensures place { OnOk result (out.old.place ≤ out.new.place) }
{
    if bits < 2 || bits > 64 {
        return Err(GivesUp);
    }
    if line.get(*at) == Some(&b'-') {
        scan_negative(bits, line, at, out)
    } else {
        scan_positive(bits, line, at, out)
    }
}

/// Scans a number of a signed type that has no sign.
#[inline(always)]
fn scan_positive(bits: u8, line: &[u8], at: &mut usize, out: &mut BitBuffer) -> Result<(), GivesUp>
    requires { (2 ≤ bits) × (bits ≤ 64) }
    ensures scanned { OnOk result
        (IsOwn (Simple (PInt bits)) line.now at.old out.old at.new out.new) }
    ensures place { OnOk result (out.old.place ≤ out.new.place) }
{
    let number = eat_number(line, at)?;
    if number > most_signed(bits) {
        return Err(GivesUp);
    }
    out.put(number, u32::from(bits))
}

/// Scans a number below 0, and puts it in two's complement.
#[inline(always)]
fn scan_negative(bits: u8, line: &[u8], at: &mut usize, out: &mut BitBuffer) -> Result<(), GivesUp>
    requires { (2 ≤ bits) × (bits ≤ 64) }
    ensures scanned { OnOk result
        (IsOwn (Simple (PInt bits)) line.now at.old out.old at.new out.new) }
    ensures place { OnOk result (out.old.place ≤ out.new.place) }
{
    eat(line, at, b"-")?;
    let number = eat_number(line, at)?;
    if number == 0 || number - 1 > most_signed(bits) {
        return Err(GivesUp);
    }
    out.put(!(number - 1), u32::from(bits))
}

/// The greatest signed integer of so many bits.
#[inline(always)]
fn most_signed(bits: u8) -> u64
    requires { (2 ≤ bits) × (bits ≤ 64) }
    ensures { result ≡ 2 ^ (bits - 1) - 1 }
{
    (1u64 << (u32::from(bits) - 1)) - 1
}

/// Scans the raw bits of a float.
#[inline(always)]
pub fn scan_float(bits: u8, line: &[u8], at: &mut usize, out: &mut BitBuffer) -> Result<(), GivesUp>
    ensures scanned { OnOk result ((cast : Truth) →
        IsOwn (Simple (PFloat bits cast)) line.now at.old out.old at.new out.new) }
    ensures place { OnOk result (out.old.place ≤ out.new.place) }
{
    if bits < 4 || bits > 64 || bits % 4 != 0 {
        return Err(GivesUp);
    }
    eat(line, at, b"0x")?;
    let raw = eat_hex(line, at, bits / 4)?;
    out.put(raw, u32::from(bits))
}
