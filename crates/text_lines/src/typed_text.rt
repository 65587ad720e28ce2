//! What a payload says, put at once: no value is made of it.
ghost use Rattle.std.specs.Prelude.{◌≡◌, ◌≤◌, ◌^◌, ◌++◌, ◌∷◌, [], Some, IfOk, OnOk};
ghost use Rattle.dsdl_types.specs.Views.{sch};
ghost use Rattle.line_text.specs.Buffer.{Puts, text_of};
ghost use Rattle.report_lines.specs.Readings.{IsKept, reading_of};
ghost use Rattle.text_lines.specs.Text.{reading_text};
ghost use Rattle.value_put.specs.Told.{Begins};

use dsdl_types::Shape;
use line_text::TextBuffer;
use report_lines::CompiledShape;
use value_put::{Bits, Stop, put_own};

/// A payload of which more bytes are read is read by its value.
const MANY: usize = 1 << 20;

/// Appends a space, what a payload says as a type, and a newline. The bytes that are read are
/// copied into a buffer that is used again. Where it stops, nothing is said of the payload, and
/// some of the text may be appended.
pub fn put_typed(
    shape: &CompiledShape,
    payload: &[u8],
    bytes: &mut TextBuffer,
    text: &mut TextBuffer,
) -> Result<(), Stop>
    ensures put { let read_as = Some (sch shape.now.schema) in OnOk result
        (Puts (32 ∷ reading_text (reading_of read_as payload.now) ++ 10 ∷ []) text.old text.new) }
    ensures front { Begins (text_of text.old) (text_of text.new) }
{
    let count = keep(shape, payload, bytes)?;
    put_one(b' ', text)?;
    let mut at = Bits::new(bytes.as_slice(), count);
    put_own(&shape.schema, &mut at, text)?;
    put_one(b'\n', text)
}

/// Copies the bytes of a payload that are read as a type, puts sixteen more behind them, and
/// answers how many they are.
#[inline(always)]
fn keep(shape: &CompiledShape, payload: &[u8], bytes: &mut TextBuffer) -> Result<u64, Stop>
    ensures kept { IfOk result (λ count.
        IsKept (sch shape.now.schema) payload.now count (text_of bytes.new)) }
    ensures few { IfOk result (λ count. count ≤ 2 ^ 20) }
{
    let read = &payload[..payload.len().min(shape.extent_bytes())];
    if read.len() > MANY {
        return Err(Stop::GivesUp);
    }
    bytes.clear();
    bytes.reserve(read.len() + 16)?;
    bytes.put_slice(read);
    bytes.put(&[0; 16], 16);
    Ok(read.len() as u64)
}

/// Appends a byte.
#[inline(always)]
fn put_one(byte: u8, text: &mut TextBuffer) -> Result<(), Stop>
    ensures put { OnOk result (Puts (byte ∷ []) text.old text.new) }
    ensures front { Begins (text_of text.old) (text_of text.new) }
{
    text.reserve(1)?;
    text.put(&[byte], 1);
    Ok(())
}
