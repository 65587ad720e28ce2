//! Unions (Cyphal Specification, section 3.4.5).
ghost use Rattle.std.specs.Prelude.{◌≡◌, OnOk};
ghost use Rattle.dsdl_types.specs.Views.{body_of};
ghost use Rattle.line_text.specs.Buffer.{text_of};
ghost use Rattle.wire_values.specs.Forms.{union_of};
ghost use Rattle.value_put.specs.Counted.{counted};
ghost use Rattle.value_put.specs.Parts.{own_told, variant_told};
ghost use Rattle.value_put.specs.Told.{Begins, Puts};

use crate::bits::Bits;
use crate::marks::put_mark;
use crate::name::put_name;
use crate::own::put_part;
use crate::parts::{holding_bits, variants};
use crate::stop::Stop;
use dsdl_types::Body;
use line_text::TextBuffer;

/// Puts a union, with the padding behind its variant.
#[tactic(auto, using(crate::proofs::Front::begins))]
#[cycle(put)]
pub fn put_union(body: &Body, at: &mut Bits<'_>, text: &mut TextBuffer) -> Result<(), Stop>
    ensures told { OnOk result (Puts (own_told (union_of body.now))
        at.old text.old at.new text.new) }
    ensures same { counted at.new ≡ counted at.old }
    ensures front { Begins (text_of text.old) (text_of text.new) }
{
    let tag = at.take(holding_bits(variants(body).saturating_sub(1)))?;
    put_mark(b'{', text)?;
    put_variant(body, tag, at, text)?;
    at.align()?;
    put_mark(b'}', text)
}

/// Puts the variant of a tag.
#[tactic(auto, using(crate::proofs::Front::begins))]
#[cycle(put)]
fn put_variant(body: &Body, tag: u64, at: &mut Bits<'_>, text: &mut TextBuffer) -> Result<(), Stop>
    ensures told { OnOk result (Puts (variant_told (body_of body.now).0 tag tag)
        at.old text.old at.new text.new) }
    ensures same { counted at.new ≡ counted at.old }
    ensures front { Begins (text_of text.old) (text_of text.new) }
{
    let mut left = tag;
    for field in body.fields.as_slice() {
        if !field.schema.is_padding() {
            if left == 0 {
                put_name(field, true, text)?;
                return put_part(&field.schema, at, text);
            }
            left -= 1;
        }
    }
    Err(Stop::GivesUp)
}
