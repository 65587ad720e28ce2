//! What stands between two items of an array.
ghost use Rattle.std.specs.Prelude.{◌≡◌, ◌≤◌, ◌++◌, OnOk};
ghost use Rattle.line_text.specs.Buffer.{room_of, text_of};
ghost use Rattle.value_put.specs.Told.{Begins};
ghost use Rattle.json_lines.specs.Typed.{comma};

use line_text::TextBuffer;
use value_put::{ROOM, Stop};

/// Puts a comma, but not in front of the first item, and takes room for a primitive.
#[tactic(auto, using(value_put::proofs::Front::begins))]
#[inline(always)]
pub fn put_lead(first: bool, text: &mut TextBuffer) -> Result<(), Stop>
    ensures text { OnOk result (text_of text.new ≡ text_of text.old ++ comma first) }
    ensures room { OnOk result (40 ≤ room_of text.new) }
    ensures front { Begins (text_of text.old) (text_of text.new) }
{
    text.reserve(ROOM + 1)?;
    text.put(b",", if first { 0 } else { 1 });
    Ok(())
}
