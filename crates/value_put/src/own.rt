//! A type by its own bits, and as a part of another.
ghost use Rattle.std.specs.Prelude.{◌≡◌, ◌+◌, OnOk, true};
ghost use Rattle.dsdl_types.specs.Schemas.{is_aligned, is_delimited};
ghost use Rattle.dsdl_types.specs.Views.{sch};
ghost use Rattle.line_text.specs.Buffer.{text_of};
ghost use Rattle.wire_values.specs.Reads.{skipped};
ghost use Rattle.value_put.specs.Counted.{counted};
ghost use Rattle.value_put.specs.Parts.{own_told, part_told, window_told};
ghost use Rattle.value_put.specs.Told.{Begins, Puts};

use crate::array::{put_array, put_var};
use crate::bits::Bits;
use crate::marks::ROOM;
use crate::parts::{is_aligned, is_delimited};
use crate::primitive::put_simple;
use crate::stop::Stop;
use crate::structure::put_struct;
use crate::variant::put_union;
use dsdl_types::Schema;
use line_text::TextBuffer;

/// Puts the text of what a type's own bits read as, and goes behind them. Where it stops, the text begins as it was,
/// and nothing is said of the reader's place.
#[tactic(auto, using(crate::proofs::Front::begins))]
#[cycle(put)]
pub fn put_own(schema: &Schema, at: &mut Bits<'_>, text: &mut TextBuffer) -> Result<(), Stop>
    ensures told { OnOk result (Puts (own_told (sch schema.now)) at.old text.old at.new text.new) }
    ensures same { counted at.new ≡ counted at.old }
    ensures front { Begins (text_of text.old) (text_of text.new) }
{
    match schema {
        Schema::Struct(body) => put_struct(body, at, text),
        Schema::Union(body) => put_union(body, at, text),
        Schema::Fixed { item, len } => put_array(item.get(), *len, at, text),
        Schema::Var { item, cap } => put_var(item.get(), *cap, at, text),
        _ => put_alone(schema, at, text),
    }
}

/// Puts a primitive, and gives up any other type.
#[tactic(auto, using(crate::proofs::Front::begins))]
fn put_alone(schema: &Schema, at: &mut Bits<'_>, text: &mut TextBuffer) -> Result<(), Stop>
    ensures told { OnOk result (Puts (own_told (sch schema.now)) at.old text.old at.new text.new) }
    ensures same { counted at.new ≡ counted at.old }
    ensures front { Begins (text_of text.old) (text_of text.new) }
{
    text.reserve(ROOM)?;
    put_simple(schema, at, text)
}

/// Puts a type as a part of another.
#[tactic(auto, using(crate::proofs::Front::begins))]
#[cycle(put)]
pub fn put_part(schema: &Schema, at: &mut Bits<'_>, text: &mut TextBuffer) -> Result<(), Stop>
    ensures told { OnOk result (Puts (part_told (sch schema.now)) at.old text.old at.new text.new) }
    ensures same { counted at.new ≡ counted at.old }
    ensures front { Begins (text_of text.old) (text_of text.new) }
{
    if is_delimited(schema) {
        put_delimited(schema, at, text)
    } else {
        put_own(schema, at, text)
    }
}

/// Puts a delimited type, which stands behind the count of its bytes.
#[tactic(auto, using(crate::proofs::Front::begins))]
#[cycle(put)]
fn put_delimited(schema: &Schema, at: &mut Bits<'_>, text: &mut TextBuffer) -> Result<(), Stop>
    requires { is_delimited (sch schema.now) ≡ true }
    ensures told { OnOk result (Puts (part_told (sch schema.now)) at.old text.old at.new text.new) }
    ensures same { counted at.new ≡ counted at.old }
    ensures front { Begins (text_of text.old) (text_of text.new) }
{
    let count = at.take(32)?;
    put_window(schema, count, at, text)
}

/// Puts a type by the window of so many bytes that begins here, and goes behind the window.
#[tactic(auto, using(crate::proofs::Front::begins))]
#[cycle(put)]
fn put_window(
    schema: &Schema,
    count: u64,
    at: &mut Bits<'_>,
    text: &mut TextBuffer,
) -> Result<(), Stop>
    ensures told { OnOk result (Puts (window_told (sch schema.now) count)
        at.old text.old at.new text.new) }
    ensures same { counted at.new ≡ counted at.old }
    ensures front { Begins (text_of text.old) (text_of text.new) }
{
    let mut window = at.window(count)?;
    put_own(schema, &mut window, text)?;
    at.skip(8 * count)
}

/// Goes to the next multiple of 8 bits, where a type begins at one.
#[inline(always)]
pub fn go_to_begin(schema: &Schema, at: &mut Bits<'_>) -> Result<(), Stop>
    ensures place { OnOk result (at.new.place ≡ at.old.place
        + skipped (is_aligned (sch schema.now)) at.old.place) }
    ensures same { counted at.new ≡ counted at.old }
{
    if is_aligned(schema) {
        at.align()
    } else {
        Ok(())
    }
}
