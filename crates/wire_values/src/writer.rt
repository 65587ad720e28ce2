//! Values as bits.
ghost use Rattle.std.specs.Prelude.{◌≡◌, ◌%◌, true};
ghost use Rattle.dsdl_types.specs.Encoding.{each, field_bits, own_bits, part_bits, variant_bits};
ghost use Rattle.dsdl_types.specs.Fits.{AllOf, FitFields, Fits, FitsVariant};
ghost use Rattle.dsdl_types.specs.Schemas.{is_aligned};
ghost use Rattle.dsdl_types.specs.Views.{body_of, sch, val, vals};
ghost use Rattle.wire_values.specs.Forms.{type_in, union_of};
ghost use Rattle.wire_values.specs.Puts.{HasRoomAt, PutsAt, counted_items, led_part, tagged_bits};
ghost use Rattle.wire_values.specs.Rules.{HasRules, HaveRules};

use crate::parts::{is_delimited, length_field_bits, padding, tag_bits, variants};
use crate::put::{put, put_float, put_lead, put_padding, put_signed, put_truth, put_unsigned};
use crate::value::{fields, inner, items, tag};
use cy_bits::BitWriter;
use dsdl_types::{Body, Field, Schema, Value};

/// Writes a type's own bits.
#[cycle(write)]
pub fn write_own(schema: &Schema, value: &Value, out: &mut [u8], to: &mut BitWriter)
    requires rules { HasRules (sch schema.now) }
    requires fits { Fits (sch schema.now) (val value.now) }
    requires whole { is_aligned (sch schema.now) ≡ true → to.old.place % 8 ≡ 0 }
    requires room { HasRoomAt out.old to.old (own_bits (sch schema.now) (val value.now)) }
    ensures { PutsAt out.old to.old out.new to.new (own_bits (sch schema.now) (val value.now)) }
{
    match schema {
        Schema::Bool => put_truth(value, out, to),
        Schema::Uint { bits, cast } => put_unsigned(*bits, *cast, value, out, to),
        Schema::Int { bits } => put_signed(*bits, value, out, to),
        Schema::Float { bits, cast } => put_float(*bits, *cast, value, out, to),
        Schema::Void { .. } => unreachable!(),
        Schema::Fixed { item, .. } => write_items(item.get(), items(value), out, to),
        Schema::Var { item, cap } => write_var(item.get(), *cap, items(value), out, to),
        Schema::Struct(body) => {
            write_fields(body, fields(value), out, to);
            put_padding(out, to);
        }
        Schema::Union(body) => {
            write_union(body, tag(value), inner(value), out, to);
            put_padding(out, to);
        }
    }
}

/// Writes a length field, and the items.
#[cycle(write)]
fn write_var(item: &Schema, cap: u32, values: &[Value], out: &mut [u8], to: &mut BitWriter)
    requires rules { HasRules (sch item.now) }
    requires fits { AllOf (Fits (sch item.now)) (vals values.now) }
    requires whole { is_aligned (sch item.now) ≡ true → to.old.place % 8 ≡ 0 }
    requires room { HasRoomAt out.old to.old (counted_items (sch item.now) cap (vals values.now)) }
    ensures { PutsAt out.old to.old out.new to.new
        (counted_items (sch item.now) cap (vals values.now)) }
{
    put(
        out,
        to,
        values.len() as u64,
        length_field_bits(u64::from(cap)),
    );
    write_items(item, values, out, to);
}

/// Writes items one behind the other.
#[cycle(write)]
fn write_items(item: &Schema, values: &[Value], out: &mut [u8], to: &mut BitWriter)
    requires rules { HasRules (sch item.now) }
    requires fits { AllOf (Fits (sch item.now)) (vals values.now) }
    requires whole { is_aligned (sch item.now) ≡ true → to.old.place % 8 ≡ 0 }
    requires room { HasRoomAt out.old to.old (each (part_bits (sch item.now)) (vals values.now)) }
    ensures { PutsAt out.old to.old out.new to.new
        (each (part_bits (sch item.now)) (vals values.now)) }
{
    for value in values {
        write_part(item, value, out, to);
    }
}

/// Writes a type as a part of another.
#[cycle(write)]
fn write_part(schema: &Schema, value: &Value, out: &mut [u8], to: &mut BitWriter)
    requires rules { HasRules (sch schema.now) }
    requires fits { Fits (sch schema.now) (val value.now) }
    requires whole { is_aligned (sch schema.now) ≡ true → to.old.place % 8 ≡ 0 }
    requires room { HasRoomAt out.old to.old (part_bits (sch schema.now) (val value.now)) }
    ensures { PutsAt out.old to.old out.new to.new (part_bits (sch schema.now) (val value.now)) }
{
    if !is_delimited(schema) {
        return write_own(schema, value, out, to);
    }
    let mut header = BitWriter { place: to.place };
    put(out, to, 0, 32);
    write_own(schema, value, out, to);
    let bytes = (to.place - header.place - 32) / 8;
    put(out, &mut header, bytes, 32);
}

/// Writes the fields of a structure.
#[cycle(write)]
fn write_fields(body: &Body, values: &[Value], out: &mut [u8], to: &mut BitWriter)
    requires rules { HaveRules (body_of body.now).0 }
    requires fits { FitFields (body_of body.now).0 (vals values.now) }
    requires whole { to.old.place % 8 ≡ 0 }
    requires room { HasRoomAt out.old to.old (field_bits (body_of body.now).0 0 (vals values.now)) }
    ensures { PutsAt out.old to.old out.new to.new
        (field_bits (body_of body.now).0 0 (vals values.now)) }
{
    let mut next = 0;
    for field in body.fields.as_slice() {
        match padding(&field.schema) {
            Some(bits) => put(out, to, 0, u32::from(bits)),
            None => {
                write_field(field, &values[next], out, to);
                next += 1;
            }
        }
    }
}

/// Writes a field that isn't padding.
#[cycle(write)]
fn write_field(field: &Field, value: &Value, out: &mut [u8], to: &mut BitWriter)
    requires rules { HasRules (type_in field.now) }
    requires fits { Fits (type_in field.now) (val value.now) }
    requires room { HasRoomAt out.old to.old
        (led_part (type_in field.now) to.old.place (val value.now)) }
    ensures { PutsAt out.old to.old out.new to.new
        (led_part (type_in field.now) to.old.place (val value.now)) }
{
    put_lead(&field.schema, out, to);
    write_part(&field.schema, value, out, to);
}

/// Writes a tag, and the variant of it.
#[cycle(write)]
fn write_union(body: &Body, tag: u32, value: &Value, out: &mut [u8], to: &mut BitWriter)
    requires rules { HasRules (union_of body.now) }
    requires fits { FitsVariant (body_of body.now).0 tag (val value.now) }
    requires whole { to.old.place % 8 ≡ 0 }
    requires room { HasRoomAt out.old to.old
        (tagged_bits (body_of body.now).0 tag (val value.now)) }
    ensures { PutsAt out.old to.old out.new to.new
        (tagged_bits (body_of body.now).0 tag (val value.now)) }
{
    put(out, to, u64::from(tag), tag_bits(variants(body)));
    write_variant(body, tag, value, out, to);
}

/// Writes the variant of a tag.
#[cycle(write)]
fn write_variant(body: &Body, tag: u32, value: &Value, out: &mut [u8], to: &mut BitWriter)
    requires rules { HaveRules (body_of body.now).0 }
    requires fits { FitsVariant (body_of body.now).0 tag (val value.now) }
    requires whole { to.old.place % 8 ≡ 0 }
    requires room { HasRoomAt out.old to.old
        (variant_bits (body_of body.now).0 tag (val value.now)) }
    ensures { PutsAt out.old to.old out.new to.new
        (variant_bits (body_of body.now).0 tag (val value.now)) }
{
    let mut left = tag;
    for field in body.fields.as_slice() {
        if !field.schema.is_padding() {
            if left == 0 {
                return write_part(&field.schema, value, out, to);
            }
            left -= 1;
        }
    }
}
