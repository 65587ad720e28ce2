//! A value of any type.
ghost use Rattle.std.specs.Prelude.{◌≡◌, ◌≤◌, true, OnOk};
ghost use Rattle.dsdl_types.specs.Schemas.{is_delimited};
ghost use Rattle.dsdl_types.specs.Views.{sch};
ghost use Rattle.value_scan.specs.Scanned.{IsOwn, IsPart};

use crate::arrays::{scan_fixed, scan_var};
use crate::bit_buffer::BitBuffer;
use crate::gives_up::GivesUp;
use crate::parts::is_delimited;
use crate::primitives::{scan_float, scan_signed, scan_truth, scan_unsigned};
use crate::structures::scan_struct;
use crate::unions::scan_union;
use dsdl_types::Schema;

/// Puts a type's own bits, without a delimiter header, of the value whose text stands at a place of a line, and goes
/// behind that text (Cyphal Specification, section 3.7.5). The error says nothing of the line; then it isn't known
/// where the scan stopped, nor what was put.
#[cycle(scan)]
pub fn scan_own(
    schema: &Schema,
    line: &[u8],
    at: &mut usize,
    out: &mut BitBuffer,
) -> Result<(), GivesUp>
    ensures scanned { OnOk result
        (IsOwn (sch schema.now) line.now at.old out.old at.new out.new) }
    ensures place { OnOk result (out.old.place ≤ out.new.place) }
{
    match schema {
        Schema::Bool => scan_truth(line, at, out),
        Schema::Uint { bits, .. } => scan_unsigned(*bits, line, at, out),
        Schema::Int { bits } => scan_signed(*bits, line, at, out),
        Schema::Float { bits, .. } => scan_float(*bits, line, at, out),
        Schema::Struct(body) => scan_struct(body, line, at, out),
        Schema::Union(body) => scan_union(body, line, at, out),
        Schema::Fixed { item, len } => scan_fixed(item.get(), *len, line, at, out),
        Schema::Var { item, cap } => scan_var(item.get(), *cap, line, at, out),
        Schema::Void { .. } => Err(GivesUp),
    }
}

/// Scans a value as a part of another type: a delimited one has its header in front.
#[inline(always)]
#[cycle(scan)]
pub fn scan_part(
    schema: &Schema,
    line: &[u8],
    at: &mut usize,
    out: &mut BitBuffer,
) -> Result<(), GivesUp>
    ensures scanned { OnOk result
        (IsPart (sch schema.now) line.now at.old out.old at.new out.new) }
    ensures place { OnOk result (out.old.place ≤ out.new.place) }
{
    match schema {
        Schema::Bool => scan_truth(line, at, out),
        Schema::Uint { bits, .. } => scan_unsigned(*bits, line, at, out),
        Schema::Int { bits } => scan_signed(*bits, line, at, out),
        Schema::Float { bits, .. } => scan_float(*bits, line, at, out),
        _ => scan_composite(schema, line, at, out),
    }
}

/// Scans a part that isn't primitive.
#[inline(always)]
#[cycle(scan)]
pub fn scan_composite(
    schema: &Schema,
    line: &[u8],
    at: &mut usize,
    out: &mut BitBuffer,
) -> Result<(), GivesUp>
    ensures scanned { OnOk result
        (IsPart (sch schema.now) line.now at.old out.old at.new out.new) }
    ensures place { OnOk result (out.old.place ≤ out.new.place) }
{
    if is_delimited(schema) {
        scan_counted(schema, line, at, out)
    } else {
        scan_own(schema, line, at, out)
    }
}

/// Scans a delimited type behind its delimiter header, which is written once the count of its bytes is known (Cyphal
/// Specification, section 3.7.5.3).
#[cycle(scan)]
fn scan_counted(
    schema: &Schema,
    line: &[u8],
    at: &mut usize,
    out: &mut BitBuffer,
) -> Result<(), GivesUp>
    requires { is_delimited (sch schema.now) ≡ true }
    ensures scanned { OnOk result
        (IsPart (sch schema.now) line.now at.old out.old at.new out.new) }
    ensures place { OnOk result (out.old.place ≤ out.new.place) }
{
    let header = out.place;
    out.put(0, 32)?;
    scan_own(schema, line, at, out)?;
    let size = (out.place - header - 32) / 8;
    out.patch(header, size, 32)
}
