//! Unions (Cyphal Specification, section 3.4.5), as objects of one member.
ghost use Rattle.std.specs.Prelude.{◌≡◌, OnOk};
ghost use Rattle.dsdl_types.specs.Views.{body_of};
ghost use Rattle.line_text.specs.Buffer.{text_of};
ghost use Rattle.wire_values.specs.Forms.{union_of};
ghost use Rattle.value_put.specs.Counted.{counted};
ghost use Rattle.value_put.specs.Told.{Begins};
ghost use Rattle.json_lines.specs.Typed.{PutsOwn, PutsVariant};

use crate::name::put_name;
use crate::own::put_part;
use dsdl_types::Body;
use line_text::TextBuffer;
use value_put::parts::{holding_bits, variants};
use value_put::{Bits, Stop, put_mark};

/// Puts a union, and goes over the padding behind its variant.
#[tactic(auto, using(value_put::proofs::Front::begins))]
#[cycle(put)]
pub fn put_union(body: &Body, at: &mut Bits<'_>, text: &mut TextBuffer) -> Result<(), Stop>
    ensures put { OnOk result (PutsOwn (union_of body.now)
        at.old text.old at.new text.new) }
    ensures same { counted at.new ≡ counted at.old }
    ensures front { Begins (text_of text.old) (text_of text.new) }
{
    let tag = at.take(holding_bits(variants(body).saturating_sub(1)))?;
    put_mark(b'{', text)?;
    put_variant(body, tag, at, text)?;
    at.align()?;
    put_mark(b'}', text)
}

/// Puts the variant of a tag.
#[tactic(auto, using(value_put::proofs::Front::begins))]
#[cycle(put)]
fn put_variant(body: &Body, tag: u64, at: &mut Bits<'_>, text: &mut TextBuffer) -> Result<(), Stop>
    ensures put { OnOk result (PutsVariant (body_of body.now).0 tag tag
        at.old text.old at.new text.new) }
    ensures same { counted at.new ≡ counted at.old }
    ensures front { Begins (text_of text.old) (text_of text.new) }
{
    let mut left = tag;
    for field in body.fields.as_slice() {
        if !field.schema.is_padding() {
            if left == 0 {
                put_name(field, true, text)?;
                return put_part(&field.schema, at, text);
            }
            left -= 1;
        }
    }
    Err(Stop::GivesUp)
}
