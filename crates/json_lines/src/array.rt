//! Arrays (Cyphal Specification, section 3.4.4).
ghost use Rattle.std.specs.Prelude.{◌≡◌, OnOk};
ghost use Rattle.dsdl_types.specs.Schemas.{Simple, Var};
ghost use Rattle.dsdl_types.specs.Views.{sch};
ghost use Rattle.line_text.specs.Buffer.{text_of};
ghost use Rattle.value_put.specs.Counted.{counted};
ghost use Rattle.value_put.specs.Told.{Begins};
ghost use Rattle.json_lines.specs.Typed.{PutsArray, PutsItem, PutsOwn, PutsRow};

use crate::byte_array::put_bytes;
use crate::marks::put_lead;
use crate::own::put_part;
use crate::primitive::{FloatNumber, JsonPrimitive};
use dsdl_types::Schema;
use line_text::TextBuffer;
use value_put::parts::{holding_bits, is_uint8};
use value_put::{Bits, Signed, Stop, Truth, Unsigned, put_mark};

/// Puts an array whose length field stands in front.
#[tactic(auto, using(value_put::proofs::Front::begins))]
#[cycle(put)]
pub fn put_var(
    item: &Schema,
    cap: u32,
    at: &mut Bits<'_>,
    text: &mut TextBuffer,
) -> Result<(), Stop>
    ensures put { OnOk result (PutsOwn (Var (sch item.now) cap)
        at.old text.old at.new text.new) }
    ensures same { counted at.new ≡ counted at.old }
    ensures front { Begins (text_of text.old) (text_of text.new) }
{
    let count = at.take(holding_bits(u64::from(cap)))?;
    if count > u64::from(cap) {
        return Err(Stop::GivesUp);
    }
    put_array(item, count as u32, at, text)
}

/// Puts an array of so many items.
#[tactic(auto, using(value_put::proofs::Front::begins))]
#[cycle(put)]
pub fn put_array(
    item: &Schema,
    count: u32,
    at: &mut Bits<'_>,
    text: &mut TextBuffer,
) -> Result<(), Stop>
    ensures put { OnOk result (PutsArray (sch item.now) count
        at.old text.old at.new text.new) }
    ensures same { counted at.new ≡ counted at.old }
    ensures front { Begins (text_of text.old) (text_of text.new) }
{
    if is_uint8(item) {
        return put_bytes(item, count, at, text);
    }
    put_mark(b'[', text)?;
    put_row(item, count, at, text)?;
    put_mark(b']', text)
}

/// Puts items, with a comma between each two.
#[tactic(auto, using(value_put::proofs::Front::begins))]
#[cycle(put)]
fn put_row(item: &Schema, count: u32, at: &mut Bits<'_>, text: &mut TextBuffer) -> Result<(), Stop>
    ensures put { OnOk result (PutsRow (sch item.now) count 0
        at.old text.old at.new text.new) }
    ensures same { counted at.new ≡ counted at.old }
    ensures front { Begins (text_of text.old) (text_of text.new) }
{
    match item {
        Schema::Bool => put_primitives(&Truth, count, at, text),
        Schema::Uint { bits, cast } => {
            let item = Unsigned {
                bits: *bits,
                cast: *cast,
            };
            put_primitives(&item, count, at, text)
        }
        Schema::Int { bits } => put_primitives(&Signed { bits: *bits }, count, at, text),
        Schema::Float { bits, cast } => {
            let item = FloatNumber {
                bits: *bits,
                cast: *cast,
            };
            put_primitives(&item, count, at, text)
        }
        _ => put_parts(item, count, at, text),
    }
}

/// Puts items of a primitive type.
#[tactic(auto, using(value_put::proofs::Front::begins))]
fn put_primitives<P: JsonPrimitive>(
    item: &P,
    count: u32,
    at: &mut Bits<'_>,
    text: &mut TextBuffer,
) -> Result<(), Stop>
    ensures put { OnOk result (PutsRow (Simple (P.kind item.now)) count 0
        at.old text.old at.new text.new) }
    ensures same { counted at.new ≡ counted at.old }
    ensures front { Begins (text_of text.old) (text_of text.new) }
{
    for index in 0..count {
        put_primitive(item, index, at, text)?;
    }
    Ok(())
}

/// Puts one item of a primitive type.
#[tactic(auto, using(value_put::proofs::Front::begins))]
#[inline(always)]
fn put_primitive<P: JsonPrimitive>(
    item: &P,
    index: u32,
    at: &mut Bits<'_>,
    text: &mut TextBuffer,
) -> Result<(), Stop>
    ensures put { OnOk result (PutsItem (Simple (P.kind item.now)) index
        at.old text.old at.new text.new) }
    ensures same { counted at.new ≡ counted at.old }
    ensures front { Begins (text_of text.old) (text_of text.new) }
{
    put_lead(index == 0, text)?;
    item.put_json(at, text)
}

/// Puts items of another type.
#[tactic(auto, using(value_put::proofs::Front::begins))]
#[cycle(put)]
fn put_parts(
    item: &Schema,
    count: u32,
    at: &mut Bits<'_>,
    text: &mut TextBuffer,
) -> Result<(), Stop>
    ensures put { OnOk result (PutsRow (sch item.now) count 0
        at.old text.old at.new text.new) }
    ensures same { counted at.new ≡ counted at.old }
    ensures front { Begins (text_of text.old) (text_of text.new) }
{
    for index in 0..count {
        put_item(item, index, at, text)?;
    }
    Ok(())
}

/// Puts one item of another type.
#[tactic(auto, using(value_put::proofs::Front::begins))]
#[cycle(put)]
fn put_item(item: &Schema, index: u32, at: &mut Bits<'_>, text: &mut TextBuffer) -> Result<(), Stop>
    ensures put { OnOk result (PutsItem (sch item.now) index at.old text.old at.new text.new) }
    ensures same { counted at.new ≡ counted at.old }
    ensures front { Begins (text_of text.old) (text_of text.new) }
{
    put_lead(index == 0, text)?;
    put_part(item, at, text)
}
