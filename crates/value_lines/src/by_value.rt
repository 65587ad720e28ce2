//! The text of a value, by the value: it names the path and the cause where bytes can't be read.
ghost use Rattle.std.specs.Prelude.{◌≡◌, ◌≤◌, ◌^◌, ◌++◌, [], ◌∷◌, length, OnOk, OnErr};
ghost use Rattle.dsdl_types.specs.Definitions.{IsType};
ghost use Rattle.dsdl_types.specs.Views.{sch};
ghost use Rattle.line_loop.specs.Heard.{Hears};
ghost use Rattle.line_text.specs.Buffer.{text_of};
ghost use Rattle.value_lines.specs.Decoded.{Decodes, IsReadAnswer};

use crate::refusal::Refusal;
use cy_bits::NoMemory;
use dsdl_types::Schema;
use dsdl_types::laws::{readings_stored, rules_suffice};
use hex::FromHexError;
use line_loop::LineStop;
use line_text::TextBuffer;
use std::alloc::Global;
use value_text::print_value;
use wire_values::{ReadError, read_as};

/// Gathers the text of the value that the bytes read as whose hex a line is.
#[cold]
#[inline(never)]
pub fn decode_by_value(
    alloc: Global,
    schema: &Schema,
    line: u64,
    hex: &[u8],
    gathered: &mut TextBuffer,
) -> Result<(), LineStop<Refusal>>
    requires rules { IsType schema.now }
    requires short { length hex.now ≤ 2 ^ 20 }
    ensures { Hears (Decodes (sch schema.now) line hex.now)
        (text_of gathered.old) (text_of gathered.new) result }
{
    match hex::decode(alloc, hex) {
        Ok(bytes) => put_value(alloc, schema, line, bytes.as_slice(), gathered),
        Err(FromHexError::OutOfMemory) => Err(LineStop::NoMemory),
        Err(_) => Err(LineStop::Refused(Refusal::Text { line })),
    }
}

/// Gathers the text of the value that the bytes of a line read as.
fn put_value(
    alloc: Global,
    schema: &Schema,
    line: u64,
    bytes: &[u8],
    gathered: &mut TextBuffer,
) -> Result<(), LineStop<Refusal>>
    requires rules { IsType schema.now }
    requires short { length bytes.now ≤ 2 ^ 20 }
    ensures { Hears (IsReadAnswer (sch schema.now) line bytes.now)
        (text_of gathered.old) (text_of gathered.new) result }
{
    rules_suffice();
    readings_stored();
    match read_as(alloc, schema, bytes) {
        Ok(value) => {
            let Ok(text) = print_value(alloc, schema, &value) else {
                return Err(LineStop::NoMemory);
            };
            match put_line(text.as_str().as_bytes(), gathered) {
                Ok(()) => Ok(()),
                Err(_) => Err(LineStop::NoMemory),
            }
        }
        Err(ReadError::Bad { path, why }) => {
            Err(LineStop::Refused(Refusal::Unreadable { line, path, why }))
        }
        Err(ReadError::NoMemory) => Err(LineStop::NoMemory),
    }
}

/// Gathers a text and a newline.
fn put_line(text: &[u8], gathered: &mut TextBuffer) -> Result<(), NoMemory>
    ensures text { OnOk result
        (text_of gathered.new ≡ text_of gathered.old ++ (text.now ++ 10 ∷ [])) }
    ensures kept { OnErr result (text_of gathered.new ≡ text_of gathered.old) }
{
    let Some(room) = text.len().checked_add(1) else {
        return Err(NoMemory);
    };
    gathered.reserve(room)?;
    gathered.put_slice(text);
    gathered.put_slice(b"\n");
    Ok(())
}
