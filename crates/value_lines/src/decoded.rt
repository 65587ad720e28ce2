//! The hex of bytes as the text of the value that they read as.
ghost use Rattle.std.specs.Prelude.{◌≡◌, true};
ghost use Rattle.dsdl_types.specs.Definitions.{IsType};
ghost use Rattle.dsdl_types.specs.OneWay.{schema_prop};
ghost use Rattle.dsdl_types.specs.Rules.{IsSchema};
ghost use Rattle.dsdl_types.specs.Schemas.{is_composite};
ghost use Rattle.dsdl_types.specs.Views.{sch};
ghost use Rattle.line_loop.specs.Heard.{Hears};
ghost use Rattle.line_loop.specs.Reply.{by_number, no_words};
ghost use Rattle.line_text.specs.Buffer.{text_of};
ghost use Rattle.value_lines.specs.Decoded.{Decodes};

use crate::LONGEST_LINE;
use crate::at_once::decode_at_once;
use crate::by_value::decode_by_value;
use crate::refusal::Refusal;
use cy_bits::NoMemory;
use dsdl_types::Schema;
use line_loop::{LineListener, LineStop};
use line_text::TextBuffer;
use std::alloc::Global;

/// Answers each line, the hex of bytes, by the text of the value of a type that they read as: past
/// the end of the bytes zeros are read, and surplus bytes are ignored. An empty line is the hex of
/// no bytes. A line that is no hex or has more bytes than `LONGEST_LINE` is refused, and one whose
/// bytes can't be read. As a rule a line is read without its value, and takes no memory but for its
/// text, and for its bytes where it is the longest so far.
#[derive(Drop)]
pub struct Decoder<'a> {
    /// Where memory comes from.
    alloc: Global,
    /// The type: a structure or a union that keeps the rules.
    pub schema: &'a Schema,
    /// The bytes of the last line, and some behind them that don't count.
    bytes: TextBuffer,
    pub ghost rules: { IsSchema (sch schema.now) } by { schema_prop (sch schema.now) },
    pub ghost composite: { is_composite (sch schema.now) ≡ true },
}

impl<'a> Decoder<'a> {
    ghost use Rattle.std.specs.Prelude.{◌≡◌};
    ghost use Rattle.dsdl_types.specs.Definitions.{IsType};

    /// Answers lines by values of a type; takes no memory yet.
    pub fn new(alloc: Global, schema: &'a Schema) -> Decoder<'a>
        requires { IsType schema.now }
        ensures { result.schema.now ≡ schema.now }
    {
        Decoder {
            alloc,
            schema,
            bytes: TextBuffer::new(alloc),
        }
    }
}

impl LineListener for Decoder<'_> {
    ghost use Rattle.value_lines.specs.declared.refusal.Refusal.TheVariants as refusal;

    type Refusal = Refusal;

    ghost answers = { λ d. by_number (Decodes (sch d.schema.now)) };

    ghost last = { λ d. no_words };

    ghost long = { λ n. refusal.Text n };

    ghost heard = { λ first now past. now.schema.now ≡ first.schema.now };

    #[inline(always)]
    fn hear(
        &mut self,
        number: u64,
        line: &[u8],
        gathered: &mut TextBuffer,
    ) -> Result<(), LineStop<Refusal>> {
        decode_line(
            self.alloc,
            self.schema,
            &mut self.bytes,
            number,
            line,
            gathered,
        )
    }

    fn finish(&mut self, _gathered: &mut TextBuffer) -> Result<(), NoMemory> {
        Ok(())
    }

    fn too_long(&self, number: u64) -> Refusal {
        Refusal::Text { line: number }
    }
}

/// Gathers the text of the value that the bytes read as whose hex a line is. The bytes are written into a buffer that
/// is used again.
#[inline(always)]
fn decode_line(
    alloc: Global,
    schema: &Schema,
    bytes: &mut TextBuffer,
    line: u64,
    hex: &[u8],
    gathered: &mut TextBuffer,
) -> Result<(), LineStop<Refusal>>
    requires { IsType schema.now }
    ensures { Hears (Decodes (sch schema.now) line hex.now)
        (text_of gathered.old) (text_of gathered.new) result }
{
    if hex.len() > LONGEST_LINE {
        return Err(LineStop::Refused(Refusal::Text { line }));
    }
    match decode_at_once(schema, hex, bytes, gathered) {
        Ok(()) => Ok(()),
        Err(_) => decode_by_value(alloc, schema, line, hex, gathered),
    }
}
