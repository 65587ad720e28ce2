//! What a payload says, put as JSON at once: no value is made of it.
ghost use Rattle.std.specs.Prelude.{◌≡◌, ◌≤◌, ◌^◌, ◌++◌, Some, IfOk, OnOk, codes};
ghost use Rattle.dsdl_types.specs.Views.{sch};
ghost use Rattle.line_text.specs.Buffer.{text_of};
ghost use Rattle.report_lines.specs.Readings.{IsKept, reading_of};
ghost use Rattle.value_json.specs.Pieces.{Puts, exact};
ghost use Rattle.value_put.specs.Told.{Begins};
ghost use Rattle.json_lines.specs.Text.{line_end, reading_json};

use crate::own::put_own;
use dsdl_types::Shape;
use line_text::TextBuffer;
use report_lines::CompiledShape;
use value_put::{Bits, Stop};

/// A payload of which more bytes are read is read by its value.
const MANY: usize = 1 << 20;

/// Appends the member of what a payload says as a type, and the end of a line. The bytes that are
/// read are copied into a buffer that is used again. Where it stops, nothing is said of the
/// payload, and some of the text may be appended.
pub fn put_typed(
    shape: &CompiledShape,
    payload: &[u8],
    bytes: &mut TextBuffer,
    text: &mut TextBuffer,
) -> Result<(), Stop>
    ensures put { let read_as = Some (sch shape.now.schema) in OnOk result
        (Puts (reading_json read_as (reading_of read_as payload.now) ++ exact line_end)
        text.old text.new) }
    ensures front { Begins (text_of text.old) (text_of text.new) }
{
    let count = keep(shape, payload, bytes)?;
    put_label(text)?;
    let mut at = Bits::new(bytes.as_slice(), count);
    put_own(&shape.schema, &mut at, text)?;
    put_line_end(text)
}

/// Copies the bytes of a payload that are read as a type, puts sixteen more behind them, and
/// answers how many they are.
#[inline(always)]
fn keep(shape: &CompiledShape, payload: &[u8], bytes: &mut TextBuffer) -> Result<u64, Stop>
    ensures kept { IfOk result (λ count.
        IsKept (sch shape.now.schema) payload.now count (text_of bytes.new)) }
    ensures few { IfOk result (λ count. count ≤ 2 ^ 20) }
{
    let read = &payload[..payload.len().min(shape.extent_bytes())];
    if read.len() > MANY {
        return Err(Stop::GivesUp);
    }
    bytes.clear();
    bytes.reserve(read.len() + 16)?;
    bytes.put_slice(read);
    bytes.put(&[0; 16], 16);
    Ok(read.len() as u64)
}

/// Appends what stands in front of a value.
#[inline(always)]
fn put_label(text: &mut TextBuffer) -> Result<(), Stop>
    ensures text { OnOk result (text_of text.new ≡ text_of text.old ++ codes ",\"value\":") }
    ensures front { Begins (text_of text.old) (text_of text.new) }
{
    text.reserve(9)?;
    text.put(b",\"value\":", 9);
    Ok(())
}

/// Appends the end of a line.
#[inline(always)]
fn put_line_end(text: &mut TextBuffer) -> Result<(), Stop>
    ensures text { OnOk result (text_of text.new ≡ text_of text.old ++ line_end) }
    ensures front { Begins (text_of text.old) (text_of text.new) }
{
    text.reserve(2)?;
    text.put(b"}\n", 2);
    Ok(())
}
