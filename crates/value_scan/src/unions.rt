//! Unions: one variant, in braces.
ghost use Rattle.std.specs.Prelude.{◌≡◌, ◌++◌, ◌≤◌, codes, drop, OnOk};
ghost use Rattle.dsdl_types.specs.Views.{body_of, named};
ghost use Rattle.wire_values.specs.Forms.{union_of};
ghost use Rattle.value_scan.specs.Scanned.{IsOwn, IsVariant};

use crate::bit_buffer::BitBuffer;
use crate::gives_up::GivesUp;
use crate::line::eat;
use crate::parts::tag_bits;
use crate::scan::scan_part;
use dsdl_types::{Body, Field};

/// Scans a union: puts the tag of its variant, the variant, and zeros up to a multiple of 8 bits (Cyphal
/// Specification, section 3.7.5).
#[cycle(scan)]
pub fn scan_union(
    body: &Body,
    line: &[u8],
    at: &mut usize,
    out: &mut BitBuffer,
) -> Result<(), GivesUp>
    ensures scanned { OnOk result
        (IsOwn (union_of body.now) line.now at.old out.old at.new out.new) }
    ensures place { OnOk result (out.old.place ≤ out.new.place) }
{
    let start = out.place;
    eat(line, at, b"{")?;
    let tag = tag_at(body, line, *at);
    out.put(tag, tag_bits(body))?;
    scan_variant(body, tag, line, at, out)?;
    eat(line, at, b"}")?;
    out.put_gap(start)
}

/// The tag of the variant whose name may stand there.
#[inline(always)]
fn tag_at(body: &Body, line: &[u8], at: usize) -> u64 {
    let mut tag = 0u64;
    let begin = line.get(at);
    for field in body.fields.as_slice() {
        if field.schema.is_padding() {
            continue;
        }
        let mut next = at;
        if field.name.as_str().as_bytes().first() == begin
            && eat_name(field, line, &mut next).is_ok()
        {
            return tag;
        }
        tag = tag.wrapping_add(1);
    }
    tag
}

/// Scans the variant of a tag, behind its name.
#[cycle(scan)]
fn scan_variant(
    body: &Body,
    tag: u64,
    line: &[u8],
    at: &mut usize,
    out: &mut BitBuffer,
) -> Result<(), GivesUp>
    ensures scanned { OnOk result
        (IsVariant (body_of body.now).0 tag line.now at.old out.old at.new out.new) }
    ensures place { OnOk result (out.old.place ≤ out.new.place) }
{
    let mut left = tag;
    for field in body.fields.as_slice() {
        if !field.schema.is_padding() {
            if left == 0 {
                eat_name(field, line, at)?;
                return scan_part(&field.schema, line, at, out);
            }
            left -= 1;
        }
    }
    Err(GivesUp)
}

/// Goes past a variant's name, a colon and a space.
#[inline(always)]
fn eat_name(field: &Field, line: &[u8], at: &mut usize) -> Result<(), GivesUp>
    ensures { OnOk result (drop at.old line.now
        ≡ (named field.now).0 ++ (codes ": " ++ drop at.new line.now)) }
{
    eat(line, at, field.name.as_str().as_bytes())?;
    eat(line, at, b": ")
}
