//! Arrays: their items in order, in brackets.
ghost use Rattle.std.specs.Prelude.{◌≤◌, false, drop, IfOk, OnOk};
ghost use Rattle.dsdl_types.specs.Schemas.{Fixed, Var};
ghost use Rattle.dsdl_types.specs.Views.{sch};
ghost use Rattle.value_scan.specs.Written.{written};
ghost use Rattle.value_scan.specs.Scanned.{IsArray, IsOwn, IsRow, LeavesRow};

use crate::bit_buffer::BitBuffer;
use crate::byte_arrays::scan_bytes;
use crate::gives_up::GivesUp;
use crate::line::{eat, eat_lead};
use crate::parts::{is_uint8, length_field_bits};
use crate::scan::scan_part;
use crate::truths::scan_truths;
use dsdl_types::Schema;

/// Scans an array of exactly so many items.
#[cycle(scan)]
pub fn scan_fixed(
    item: &Schema,
    len: u32,
    line: &[u8],
    at: &mut usize,
    out: &mut BitBuffer,
) -> Result<(), GivesUp>
    ensures scanned { OnOk result
        (IsOwn (Fixed (sch item.now) len) line.now at.old out.old at.new out.new) }
    ensures place { OnOk result (out.old.place ≤ out.new.place) }
{
    let count = scan_array(item, len, line, at, out)?;
    if count != len {
        return Err(GivesUp);
    }
    Ok(())
}

/// Scans an array of at most so many items behind its length field, which is written once their number is known
/// (Cyphal Specification, section 3.7.5.2).
#[cycle(scan)]
pub fn scan_var(
    item: &Schema,
    cap: u32,
    line: &[u8],
    at: &mut usize,
    out: &mut BitBuffer,
) -> Result<(), GivesUp>
    ensures scanned { OnOk result
        (IsOwn (Var (sch item.now) cap) line.now at.old out.old at.new out.new) }
    ensures place { OnOk result (out.old.place ≤ out.new.place) }
{
    let header = out.place;
    let width = length_field_bits(cap);
    out.put(0, width)?;
    let count = scan_array(item, cap, line, at, out)?;
    if count > cap {
        return Err(GivesUp);
    }
    out.patch(header, u64::from(count), width)
}

/// Scans an array of at most so many items, and says how many items it has.
#[cycle(scan)]
fn scan_array(
    item: &Schema,
    most: u32,
    line: &[u8],
    at: &mut usize,
    out: &mut BitBuffer,
) -> Result<u32, GivesUp>
    ensures scanned { IfOk result (λ n.
        IsArray (sch item.now) n line.now at.old out.old at.new out.new) }
    ensures place { OnOk result (out.old.place ≤ out.new.place) }
{
    if is_uint8(item) {
        return scan_bytes(most, line, at, out);
    }
    eat(line, at, b"[")?;
    let count = scan_row(item, most, line, at, out)?;
    eat(line, at, b"]")?;
    Ok(count)
}

/// Scans at most so many items up to a closing bracket, and says how many.
#[cycle(scan)]
fn scan_row(
    item: &Schema,
    most: u32,
    line: &[u8],
    at: &mut usize,
    out: &mut BitBuffer,
) -> Result<u32, GivesUp>
    ensures scanned { IfOk result (λ n.
        IsRow (sch item.now) n line.now at.old out.old at.new out.new) }
    ensures place { OnOk result (out.old.place ≤ out.new.place) }
{
    match item {
        Schema::Bool => scan_truths(most, line, at, out),
        _ => scan_items(item, most, line, at, out),
    }
}

/// The same of items of any type.
#[cycle(scan)]
fn scan_items(
    item: &Schema,
    most: u32,
    line: &[u8],
    at: &mut usize,
    out: &mut BitBuffer,
) -> Result<u32, GivesUp>
    ensures scanned { IfOk result (λ n.
        IsRow (sch item.now) n line.now at.old out.old at.new out.new) }
    ensures place { OnOk result (out.old.place ≤ out.new.place) }
{
    for index in 0..most {
        if line.get(*at) == Some(&b']') {
            return Ok(index);
        }
        scan_item(item, index == 0, line, at, out)?;
    }
    Ok(most)
}

/// Scans one item.
#[cycle(scan)]
fn scan_item(
    item: &Schema,
    first: bool,
    line: &[u8],
    at: &mut usize,
    out: &mut BitBuffer,
) -> Result<(), GivesUp>
    ensures scanned { OnOk result
        (LeavesRow (sch item.now) (drop at.old line.now) (drop at.new line.now)
        (written out.old) (written out.new) first 1 false) }
    ensures place { OnOk result (out.old.place ≤ out.new.place) }
{
    eat_lead(line, at, first)?;
    scan_part(item, line, at, out)
}
