//! Structures: their fields in order, in braces.
ghost use Rattle.std.specs.Prelude.{◌≡◌, ◌++◌, ◌-◌, ◌≤◌, true, false, codes, drop, length, IfOk, OnOk};
ghost use Rattle.dsdl_types.specs.Encoding.{lead as lead_bits};
ghost use Rattle.dsdl_types.specs.Schemas.{PUint, Simple, is_aligned};
ghost use Rattle.dsdl_types.specs.Views.{Typed, body_of, is_padding, is_saturated, named, sch};
ghost use Rattle.wire_values.specs.Forms.{struct_of};
ghost use Rattle.value_text.specs.Words.{lead};
ghost use Rattle.value_scan.specs.Written.{written};
ghost use Rattle.value_scan.specs.Scanned.{AreFields, IsFieldScanned, IsOwn};

use crate::bit_buffer::BitBuffer;
use crate::blocks::{begins, begins_pair};
use crate::gives_up::GivesUp;
use crate::line::{behind, eat, skip};
use crate::parts::is_aligned;
use crate::primitives::{scan_float, scan_signed, scan_truth, scan_unsigned};
use crate::scan::scan_composite;
use dsdl_types::{Body, Cast, Field, Schema};

/// Scans a structure, and puts zeros up to a multiple of 8 bits behind its fields (Cyphal Specification, section
/// 3.7.5).
#[cycle(scan)]
pub fn scan_struct(
    body: &Body,
    line: &[u8],
    at: &mut usize,
    out: &mut BitBuffer,
) -> Result<(), GivesUp>
    ensures scanned { OnOk result
        (IsOwn (struct_of body.now) line.now at.old out.old at.new out.new) }
    ensures place { OnOk result (out.old.place ≤ out.new.place) }
{
    let start = out.place;
    eat(line, at, b"{")?;
    scan_fields(body, line, at, out)?;
    eat(line, at, b"}")?;
    out.put_gap(start)
}

/// Scans the fields of a structure.
#[cycle(scan)]
fn scan_fields(body: &Body, line: &[u8], at: &mut usize, out: &mut BitBuffer) -> Result<(), GivesUp>
    ensures scanned { OnOk result
        (AreFields true (body_of body.now).0 0 line.now at.old out.old at.new out.new) }
    ensures place { OnOk result (out.old.place ≤ out.new.place) }
{
    let start = out.place;
    let mut first = true;
    for field in body.fields.as_slice() {
        first = scan_field(field, first, start, line, at, out)?;
    }
    Ok(())
}

/// Scans one field of a structure that began at a place, and says whether the next is still the first in the text.
#[cycle(scan)]
fn scan_field(
    field: &Field,
    first: bool,
    start: u64,
    line: &[u8],
    at: &mut usize,
    out: &mut BitBuffer,
) -> Result<bool, GivesUp>
    requires { start ≤ out.old.place }
    ensures scanned { IfOk result (λ next.
        IsFieldScanned field.now first next start line.now at.old out.old at.new out.new) }
    ensures place { OnOk result (start ≤ out.new.place) }
{
    match &field.schema {
        Schema::Void { bits } => {
            if *bits > 64 {
                return Err(GivesUp);
            }
            out.put(0, u32::from(*bits))?;
            Ok(first)
        }
        Schema::Uint { bits, cast } => {
            scan_unsigned_field(field, *bits, *cast, first, start, line, at, out)?;
            Ok(false)
        }
        _ => {
            scan_named(field, first, start, line, at, out)?;
            Ok(false)
        }
    }
}

/// Scans a field that is an unsigned integer, behind its name.
#[inline(always)]
fn scan_unsigned_field(
    field: &Field,
    bits: u8,
    cast: Cast,
    first: bool,
    start: u64,
    line: &[u8],
    at: &mut usize,
    out: &mut BitBuffer,
) -> Result<(), GivesUp>
    requires start { start ≤ out.old.place }
    requires typed { (named field.now).1 ≡ Typed (Simple (PUint bits (is_saturated cast))) }
    ensures scanned { OnOk result
        (IsFieldScanned field.now first false start line.now at.old out.old at.new out.new) }
    ensures place { OnOk result (start ≤ out.new.place) }
{
    let _ = cast;
    eat_front(field, first, line, at)?;
    scan_unsigned(bits, line, at, out)
}

/// Scans a field that isn't padding, behind its name.
#[cycle(scan)]
fn scan_named(
    field: &Field,
    first: bool,
    start: u64,
    line: &[u8],
    at: &mut usize,
    out: &mut BitBuffer,
) -> Result<(), GivesUp>
    requires start { start ≤ out.old.place }
    requires typed { is_padding (named field.now).1 ≡ false }
    ensures scanned { OnOk result
        (IsFieldScanned field.now first false start line.now at.old out.old at.new out.new) }
    ensures place { OnOk result (start ≤ out.new.place) }
{
    eat_front(field, first, line, at)?;
    match &field.schema {
        Schema::Bool => scan_truth(line, at, out),
        Schema::Uint { bits, .. } => scan_unsigned(*bits, line, at, out),
        Schema::Int { bits } => scan_signed(*bits, line, at, out),
        Schema::Float { bits, .. } => scan_float(*bits, line, at, out),
        _ => {
            put_lead(&field.schema, start, out)?;
            scan_composite(&field.schema, line, at, out)
        }
    }
}

/// Goes past what stands in front of a field's value.
#[inline(always)]
fn eat_front(field: &Field, first: bool, line: &[u8], at: &mut usize) -> Result<(), GivesUp>
    ensures { OnOk result (drop at.old line.now
        ≡ lead first ++ ((named field.now).0 ++ (codes ": " ++ drop at.new line.now))) }
{
    let rest = behind(line, *at)?;
    let size = front_len(rest, first, field.name.as_str().as_bytes())?;
    skip(at, size)
}

/// How many bytes stand in front of the value of a field with a name.
#[inline(always)]
fn front_len(bytes: &[u8], first: bool, name: &[u8]) -> Result<usize, GivesUp>
    ensures { IfOk result (λ n. bytes.now
        ≡ lead first ++ (name.now ++ (codes ": " ++ drop n bytes.now))) }
{
    if first {
        return name_len(bytes, name);
    }
    if !begins_pair(bytes, *b", ") {
        return Err(GivesUp);
    }
    Ok(2 + name_len(&bytes[2..], name)?)
}

/// How many bytes a name, a colon and a space take that stand in front of others.
#[inline(always)]
fn name_len(bytes: &[u8], name: &[u8]) -> Result<usize, GivesUp>
    ensures text { IfOk result (λ n. bytes.now ≡ name.now ++ (codes ": " ++ drop n bytes.now)) }
    ensures within { IfOk result (λ n. n ≤ length bytes.now) }
{
    let len = name.len();
    if !begins(bytes, name) || !begins_pair(&bytes[len..], *b": ") {
        return Err(GivesUp);
    }
    Ok(len + 2)
}

/// Puts the zeros in front of a type, if it begins at a multiple of 8 bits.
#[inline(always)]
fn put_lead(schema: &Schema, start: u64, out: &mut BitBuffer) -> Result<(), GivesUp>
    requires { start ≤ out.old.place }
    ensures bits { OnOk result (written out.new
        ≡ written out.old ++ lead_bits (is_aligned (sch schema.now)) (out.old.place - start)) }
    ensures place { OnOk result (start ≤ out.new.place) }
{
    if is_aligned(schema) {
        out.put_gap(start)
    } else {
        Ok(())
    }
}
