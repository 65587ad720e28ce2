//! The text of a value without the value.
ghost use Rattle.std.specs.Prelude.{◌≡◌, ◌≤◌, ◌^◌, ◌++◌, ◌∷◌, [], ℕ, length, OnErr, OnOk};
ghost use Rattle.dsdl_types.specs.Views.{sch};
ghost use Rattle.line_loop.specs.Heard.{IsHeard};
ghost use Rattle.line_text.specs.Buffer.{text_of};
ghost use Rattle.value_lines.specs.Decoded.{Decodes};
ghost use Rattle.value_put.specs.Told.{Begins};

use crate::hex_line::read_hex;
use dsdl_types::Schema;
use line_text::TextBuffer;
use value_put::{Bits, Stop, put_own};

/// Gathers the text of the value that the bytes read as whose hex a line is. Where it stops, nothing is said of the
/// line, and nothing is gathered.
pub fn decode_at_once(
    schema: &Schema,
    hex: &[u8],
    bytes: &mut TextBuffer,
    gathered: &mut TextBuffer,
) -> Result<(), Stop>
    requires { length hex.now ≤ 2 ^ 20 }
    ensures told { OnOk result ((line : ℕ) → IsHeard (Decodes (sch schema.now) line hex.now)
        (text_of gathered.old) (text_of gathered.new)) }
    ensures kept { OnErr result (text_of gathered.new ≡ text_of gathered.old) }
{
    let start = gathered.len();
    match put_answer(schema, hex, bytes, gathered) {
        Ok(()) => Ok(()),
        Err(stop) => {
            gathered.cut(start);
            Err(stop)
        }
    }
}

/// The same, where some of the text may be gathered when it stops.
fn put_answer(
    schema: &Schema,
    hex: &[u8],
    bytes: &mut TextBuffer,
    gathered: &mut TextBuffer,
) -> Result<(), Stop>
    requires { length hex.now ≤ 2 ^ 20 }
    ensures told { OnOk result ((line : ℕ) → IsHeard (Decodes (sch schema.now) line hex.now)
        (text_of gathered.old) (text_of gathered.new)) }
    ensures front { Begins (text_of gathered.old) (text_of gathered.new) }
{
    let count = read_hex(hex, bytes)?;
    let mut at = Bits::new(bytes.as_slice(), count);
    put_own(schema, &mut at, gathered)?;
    put_newline(gathered)
}

/// Gathers a newline.
fn put_newline(gathered: &mut TextBuffer) -> Result<(), Stop>
    ensures text { OnOk result (text_of gathered.new ≡ text_of gathered.old ++ 10 ∷ []) }
    ensures front { Begins (text_of gathered.old) (text_of gathered.new) }
{
    gathered.reserve(1)?;
    gathered.put(b"\n", 1);
    Ok(())
}
