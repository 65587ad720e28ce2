//! The text of a value as the hex of its bytes.
ghost use Rattle.std.specs.Prelude.{◌≡◌, ◌≤◌, ◌+◌, ◌*◌, ◌^◌, ◌%◌, ◌++◌, ℕ, length, take, true, OnOk, OnErr};
ghost use Rattle.cy_bits.specs.Bits.{bytes};
ghost use Rattle.dsdl_types.specs.Definitions.{IsType};
ghost use Rattle.dsdl_types.specs.OneWay.{schema_prop};
ghost use Rattle.dsdl_types.specs.Rules.{IsSchema};
ghost use Rattle.dsdl_types.specs.Schemas.{is_composite};
ghost use Rattle.dsdl_types.specs.Fits.{Fits};
ghost use Rattle.dsdl_types.specs.Laws.{encoding};
ghost use Rattle.dsdl_types.specs.Views.{sch, val};
ghost use Rattle.line_loop.specs.Heard.{Hears, IsHeard};
ghost use Rattle.line_loop.specs.Reply.{by_number, no_words};
ghost use Rattle.line_text.specs.Buffer.{text_of};
ghost use Rattle.value_lines.specs.Encoded.{hex_line, Encodes, IsEncoded};
ghost use Rattle.value_scan.specs.Written.{written};

use crate::LONGEST_LINE;
use crate::refusal::Refusal;
use cy_bits::{Bytes, NoMemory};
use dsdl_types::{Schema, Value};
use line_loop::{LineListener, LineStop};
use line_text::TextBuffer;
use std::alloc::Global;
use value_scan::{BitBuffer, GivesUp, scan_own};
use value_text::{TextError, read_value};
use wire_values::laws::{extent_has_room, fits_or_misfit};
use wire_values::{WriteError, write_as};

/// How many bytes behind the extent the bits of a line have, so that each number is put at once.
const SLACK: usize = 8;

/// Answers each line, the text of a value of a type, by the hex of the value's serialized form. A saturated number is
/// brought to the nearest end of its range, and a truncated one keeps its low bits. A line that is the text of no value
/// or has more bytes than `LONGEST_LINE` is refused.
#[derive(Drop)]
pub struct Encoder<'a> {
    /// Where memory comes from.
    pub alloc: Global,
    /// The type: a structure or a union that keeps the rules.
    pub schema: &'a Schema,
    /// The bits of a line; their memory is kept from line to line.
    bits: BitBuffer,
    pub ghost rules: { IsSchema (sch schema.now) } by { schema_prop (sch schema.now) },
    pub ghost composite: { is_composite (sch schema.now) ≡ true },
}

impl<'a> Encoder<'a> {
    /// Takes no memory yet.
    pub fn new(alloc: Global, schema: &'a Schema) -> Encoder<'a>
        requires { IsType schema.now }
        ensures { result.schema.now ≡ schema.now }
    {
        Encoder {
            alloc,
            schema,
            bits: BitBuffer::new(alloc),
        }
    }
}

impl LineListener for Encoder<'_> {
    ghost use Rattle.value_lines.specs.declared.refusal.Refusal.TheVariants as refusal;

    type Refusal = Refusal;

    ghost answers = { λ e. by_number (Encodes (sch e.schema.now)) };

    ghost last = { λ e. no_words };

    ghost long = { λ n. refusal.Text n };

    ghost heard = { λ first now past. now.schema.now ≡ first.schema.now };

    #[inline(always)]
    fn hear(
        &mut self,
        number: u64,
        line: &[u8],
        gathered: &mut TextBuffer,
    ) -> Result<(), LineStop<Refusal>> {
        encode_line(
            self.alloc,
            self.schema,
            &mut self.bits,
            number,
            line,
            gathered,
        )
    }

    fn finish(&mut self, _gathered: &mut TextBuffer) -> Result<(), NoMemory> {
        Ok(())
    }

    fn too_long(&self, number: u64) -> Refusal {
        Refusal::Text { line: number }
    }
}

/// Gathers the hex of the serialized form of the value of which a line is the text: in one pass, and where that says
/// nothing, by the value.
#[inline(always)]
fn encode_line(
    alloc: Global,
    schema: &Schema,
    bits: &mut BitBuffer,
    line: u64,
    text: &[u8],
    gathered: &mut TextBuffer,
) -> Result<(), LineStop<Refusal>>
    requires { IsType schema.now }
    ensures { Hears (Encodes (sch schema.now) line text.now)
        (text_of gathered.old) (text_of gathered.new) result }
{
    if text.len() > LONGEST_LINE {
        return Err(LineStop::Refused(Refusal::Text { line }));
    }
    if put_scanned(schema, bits, text, gathered).is_ok() {
        return Ok(());
    }
    encode_read(alloc, schema, line, text, gathered)
}

/// Gathers the hex of the serialized form of the value of which a line is the text, found in one pass. The error says
/// nothing of the line.
fn put_scanned(
    schema: &Schema,
    bits: &mut BitBuffer,
    text: &[u8],
    gathered: &mut TextBuffer,
) -> Result<(), GivesUp>
    requires { IsType schema.now }
    ensures text { OnOk result ((line : ℕ) → IsHeard (IsEncoded (sch schema.now) line text.now)
        (text_of gathered.old) (text_of gathered.new)) }
    ensures kept { OnErr result (text_of gathered.new ≡ text_of gathered.old) }
{
    bits.start(schema.extent_bytes().saturating_add(SLACK))?;
    let mut at = 0;
    scan_own(schema, text, &mut at, bits)?;
    if at != text.len() {
        return Err(GivesUp);
    }
    match put_bits_line(bits, gathered) {
        Ok(()) => Ok(()),
        Err(_) => Err(GivesUp),
    }
}

/// Gathers the line of the bytes of some bits, where they are whole bytes: by blocks, where eight more stand behind them.
#[inline(always)]
fn put_bits_line(bits: &BitBuffer, gathered: &mut TextBuffer) -> Result<(), NoMemory>
    ensures text { OnOk result (bits.now.place % 8 ≡ 0
        → text_of gathered.new ≡ text_of gathered.old ++ hex_line (bytes (written bits.now))) }
    ensures kept { OnErr result (text_of gathered.new ≡ text_of gathered.old) }
{
    let all = bits.room();
    let count = bits.place / 8;
    if all.len() < 8 || count > all.len() as u64 - 8 {
        return put_hex_line(bits.as_slice(), gathered);
    }
    put_front_line(all, count as usize, gathered)
}

/// Gathers the line of the first bytes, behind which at least eight more stand.
#[inline(always)]
fn put_front_line(bytes: &[u8], count: usize, gathered: &mut TextBuffer) -> Result<(), NoMemory>
    requires wide { count + 8 ≤ length bytes.now }
    requires few { length bytes.now ≤ 2 ^ 37 }
    ensures text { OnOk result
        (text_of gathered.new ≡ text_of gathered.old ++ hex_line (take count bytes.now)) }
    ensures kept { OnErr result (text_of gathered.new ≡ text_of gathered.old) }
{
    gathered.reserve(2 * count + 17)?;
    gathered.put_hex_of(bytes, count);
    gathered.put(b"\n", 1);
    Ok(())
}

/// Gathers the hex of the serialized form of the value that a line reads as.
#[cold]
#[inline(never)]
fn encode_read(
    alloc: Global,
    schema: &Schema,
    line: u64,
    text: &[u8],
    gathered: &mut TextBuffer,
) -> Result<(), LineStop<Refusal>>
    requires { IsType schema.now }
    ensures { Hears (IsEncoded (sch schema.now) line text.now)
        (text_of gathered.old) (text_of gathered.new) result }
{
    match read_value(alloc, schema, text, line) {
        Ok(value) => match put_encoding(alloc, schema, &value, gathered) {
            Ok(()) => Ok(()),
            Err(_) => Err(LineStop::NoMemory),
        },
        Err(TextError::Text { line }) => Err(LineStop::Refused(Refusal::Text { line })),
        Err(TextError::NoMemory) => Err(LineStop::NoMemory),
    }
}

/// Gathers the hex of the serialized form of a value.
fn put_encoding(
    alloc: Global,
    schema: &Schema,
    value: &Value,
    gathered: &mut TextBuffer,
) -> Result<(), NoMemory>
    requires rules { IsType schema.now }
    requires fits { Fits (sch schema.now) (val value.now) }
    ensures text { let line = hex_line (encoding (sch schema.now) (val value.now)) in
        OnOk result (text_of gathered.new ≡ text_of gathered.old ++ line) }
    ensures kept { OnErr result (text_of gathered.new ≡ text_of gathered.old) }
{
    extent_has_room();
    fits_or_misfit();
    let mut bytes = Bytes::zeros(alloc, schema.extent_bytes())?.into_vec();
    match write_as(alloc, schema, value, bytes.as_mut_slice()) {
        Ok(count) => put_hex_line(&bytes[..count], gathered),
        Err(WriteError::NoMemory) => Err(NoMemory),
        Err(WriteError::Misfit { .. }) => unreachable!(),
    }
}

/// Gathers the line of bytes.
fn put_hex_line(bytes: &[u8], gathered: &mut TextBuffer) -> Result<(), NoMemory>
    ensures text { OnOk result (text_of gathered.new ≡ text_of gathered.old ++ hex_line bytes.now) }
    ensures kept { OnErr result (text_of gathered.new ≡ text_of gathered.old) }
{
    let Some(digits) = bytes.len().checked_mul(2) else {
        return Err(NoMemory);
    };
    let Some(room) = digits.checked_add(17) else {
        return Err(NoMemory);
    };
    gathered.reserve(room)?;
    gathered.put_hex(bytes);
    gathered.put_slice(b"\n");
    Ok(())
}
