//! The marks of a text: braces, brackets, and what stands between two parts.
ghost use Rattle.std.specs.Prelude.{◌≡◌, ◌≤◌, ◌+◌, ◌++◌, ◌∷◌, [], OnOk};
ghost use Rattle.line_text.specs.Buffer.{room_of, text_of};
ghost use Rattle.value_text.specs.Words.{lead};
ghost use Rattle.value_put.specs.Told.{Begins};

use crate::stop::Stop;
use line_text::TextBuffer;

/// The room, in bytes, in which any primitive is put.
pub const ROOM: usize = 40;

/// Puts a byte.
#[tactic(auto, using(crate::proofs::Front::begins))]
#[inline(always)]
pub fn put_mark(mark: u8, text: &mut TextBuffer) -> Result<(), Stop>
    ensures text { OnOk result (text_of text.new ≡ text_of text.old ++ mark ∷ []) }
    ensures front { Begins (text_of text.old) (text_of text.new) }
{
    text.reserve(1)?;
    text.put(&[mark], 1);
    Ok(())
}

/// Puts a comma and a space, but not in front of the first part. There is room for two bytes.
#[inline(always)]
pub fn put_comma(first: bool, text: &mut TextBuffer)
    requires room { 2 ≤ room_of text.old }
    ensures text { text_of text.new ≡ text_of text.old ++ lead first }
    ensures room { room_of text.old ≤ room_of text.new + 2 }
{
    text.put(b", ", if first { 0 } else { 2 });
}

/// Puts what stands in front of an item, and takes room for a primitive.
#[tactic(auto, using(crate::proofs::Front::begins))]
#[inline(always)]
pub fn put_lead(first: bool, text: &mut TextBuffer) -> Result<(), Stop>
    ensures text { OnOk result (text_of text.new ≡ text_of text.old ++ lead first) }
    ensures room { OnOk result (40 ≤ room_of text.new) }
    ensures front { Begins (text_of text.old) (text_of text.new) }
{
    text.reserve(ROOM + 2)?;
    put_comma(first, text);
    Ok(())
}
