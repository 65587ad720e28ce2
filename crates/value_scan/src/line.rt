//! The parts of a line, each at a place that goes on behind it.
ghost use Rattle.std.specs.Prelude.{◌≡◌, ◌++◌, ◌+◌, ◌*◌, ◌^◌, ◌<◌, ◌≤◌, IfOk, OnOk, decimal, drop};
ghost use Rattle.value_text.specs.Words.{hex_digits, lead};

use crate::blocks::begins;
use crate::digits::digits_at;
use crate::gives_up::GivesUp;
use crate::hex_text::number_in;

/// The bytes from a place on.
#[inline(always)]
pub fn behind<'a>(line: &'a [u8], at: usize) -> Result<&'a [u8], GivesUp>
    ensures { IfOk result (λ rest. rest.now ≡ drop at line.now) }
{
    if at > line.len() {
        return Err(GivesUp);
    }
    Ok(&line[at..])
}

/// Goes past so many bytes.
#[inline(always)]
pub fn skip(at: &mut usize, len: usize) -> Result<(), GivesUp>
    ensures { OnOk result (at.new ≡ at.old + len) }
{
    let Some(next) = at.checked_add(len) else {
        return Err(GivesUp);
    };
    *at = next;
    Ok(())
}

/// Goes past a text that stands there.
#[inline(always)]
pub fn eat(line: &[u8], at: &mut usize, text: &[u8]) -> Result<(), GivesUp>
    ensures { OnOk result (drop at.old line.now ≡ text.now ++ drop at.new line.now) }
{
    let rest = behind(line, *at)?;
    if !begins(rest, text) {
        return Err(GivesUp);
    }
    skip(at, text.len())
}

/// Goes past what is in front of a text, as the first one or a later one.
#[inline(always)]
pub fn eat_lead(line: &[u8], at: &mut usize, first: bool) -> Result<(), GivesUp>
    ensures { OnOk result (drop at.old line.now ≡ lead first ++ drop at.new line.now) }
{
    if first { Ok(()) } else { eat(line, at, b", ") }
}

/// Goes past a decimal number, which has no zeros in front.
#[inline(always)]
pub fn eat_number(line: &[u8], at: &mut usize) -> Result<u64, GivesUp>
    ensures { IfOk result (λ n. drop at.old line.now ≡ decimal n ++ drop at.new line.now) }
{
    let rest = behind(line, *at)?;
    let Some(digits) = digits_at(rest) else {
        return Err(GivesUp);
    };
    skip(at, digits.len)?;
    Ok(digits.number)
}

/// Goes past a number of so many hex digits, from 1 to 16.
#[inline(always)]
pub fn eat_hex(line: &[u8], at: &mut usize, digits: u8) -> Result<u64, GivesUp>
    requires { (1 ≤ digits) × (digits ≤ 16) }
    ensures { IfOk result (λ n. (n < 2 ^ (4 * digits))
        × (drop at.old line.now ≡ hex_digits digits n ++ drop at.new line.now)) }
{
    let rest = behind(line, *at)?;
    let Some(number) = number_in(rest, digits) else {
        return Err(GivesUp);
    };
    skip(at, usize::from(digits))?;
    Ok(number)
}
