//! A type by its own bits, and as a part of another, as JSON: its bits are read and its text is put
//! at once.
ghost use Rattle.std.specs.Prelude.{◌≡◌, OnOk, true};
ghost use Rattle.dsdl_types.specs.Schemas.{is_delimited};
ghost use Rattle.dsdl_types.specs.Views.{sch};
ghost use Rattle.line_text.specs.Buffer.{text_of};
ghost use Rattle.value_put.specs.Counted.{counted};
ghost use Rattle.value_put.specs.Told.{Begins};
ghost use Rattle.json_lines.specs.Typed.{PutsOwn, PutsPart, PutsWindow};

use crate::array::{put_array, put_var};
use crate::primitive::put_simple;
use crate::structure::put_struct;
use crate::variant::put_union;
use dsdl_types::Schema;
use line_text::TextBuffer;
use value_put::parts::is_delimited;
use value_put::{Bits, ROOM, Stop};

/// Puts the JSON text of what a type's own bits read as, and goes behind them. Where it stops, the
/// text begins as it was, and nothing is said of the reader's place.
#[tactic(auto, using(value_put::proofs::Front::begins))]
#[cycle(put)]
pub fn put_own(schema: &Schema, at: &mut Bits<'_>, text: &mut TextBuffer) -> Result<(), Stop>
    ensures put { OnOk result (PutsOwn (sch schema.now) at.old text.old at.new text.new) }
    ensures same { counted at.new ≡ counted at.old }
    ensures front { Begins (text_of text.old) (text_of text.new) }
{
    match schema {
        Schema::Struct(body) => put_struct(body, at, text),
        Schema::Union(body) => put_union(body, at, text),
        Schema::Fixed { item, len } => put_array(item.get(), *len, at, text),
        Schema::Var { item, cap } => put_var(item.get(), *cap, at, text),
        _ => put_alone(schema, at, text),
    }
}

/// Puts a primitive, and gives up any other type.
#[tactic(auto, using(value_put::proofs::Front::begins))]
fn put_alone(schema: &Schema, at: &mut Bits<'_>, text: &mut TextBuffer) -> Result<(), Stop>
    ensures put { OnOk result (PutsOwn (sch schema.now) at.old text.old at.new text.new) }
    ensures same { counted at.new ≡ counted at.old }
    ensures front { Begins (text_of text.old) (text_of text.new) }
{
    text.reserve(ROOM)?;
    put_simple(schema, at, text)
}

/// Puts a type as a part of another.
#[tactic(auto, using(value_put::proofs::Front::begins))]
#[cycle(put)]
pub fn put_part(schema: &Schema, at: &mut Bits<'_>, text: &mut TextBuffer) -> Result<(), Stop>
    ensures put { OnOk result (PutsPart (sch schema.now) at.old text.old at.new text.new) }
    ensures same { counted at.new ≡ counted at.old }
    ensures front { Begins (text_of text.old) (text_of text.new) }
{
    if is_delimited(schema) {
        put_delimited(schema, at, text)
    } else {
        put_own(schema, at, text)
    }
}

/// Puts a delimited type, which stands behind the count of its bytes.
#[tactic(auto, using(value_put::proofs::Front::begins))]
#[cycle(put)]
fn put_delimited(schema: &Schema, at: &mut Bits<'_>, text: &mut TextBuffer) -> Result<(), Stop>
    requires { is_delimited (sch schema.now) ≡ true }
    ensures put { OnOk result (PutsPart (sch schema.now) at.old text.old at.new text.new) }
    ensures same { counted at.new ≡ counted at.old }
    ensures front { Begins (text_of text.old) (text_of text.new) }
{
    let count = at.take(32)?;
    put_window(schema, count, at, text)
}

/// Puts a type by the window of so many bytes that begins here, and goes behind the window.
#[tactic(auto, using(value_put::proofs::Front::begins))]
#[cycle(put)]
fn put_window(
    schema: &Schema,
    count: u64,
    at: &mut Bits<'_>,
    text: &mut TextBuffer,
) -> Result<(), Stop>
    ensures put { OnOk result (PutsWindow (sch schema.now) count
        at.old text.old at.new text.new) }
    ensures same { counted at.new ≡ counted at.old }
    ensures front { Begins (text_of text.old) (text_of text.new) }
{
    let mut window = at.window(count)?;
    put_own(schema, &mut window, text)?;
    at.skip(8 * count)
}
