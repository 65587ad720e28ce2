//! The words of a line.
ghost use Rattle.std.specs.Prelude.{◌≡◌, ◌≤◌, ◌+◌, ◌*◌, ◌++◌, ◌∷◌, [], OnOk, codes, decimal, length};
ghost use Rattle.line_text.specs.Buffer.{Puts, room_of, text_of};
ghost use Rattle.line_text.specs.Text.{moment_text, spaced};
ghost use Rattle.text_lines.specs.Text.{bus_text, kind_text, source_text, payload_text, reading_text};
ghost use Rattle.text_lines.specs.Text.{key_words, transfer_words, received_words};
ghost use Rattle.text_lines.specs.Words.{long_part};
ghost use Rattle.report_lines.specs.declared.line.Reading.TheVariants.{Raw};
ghost use Rattle.value_text.specs.Unreadable.{unreadable_text};

use crate::bus_words::BusWords;
use crate::word::Word;
use can_id::{Key, Kind};
use cy_bits::NoMemory;
use dsdl_types::ReadWhy;
use line_text::TextBuffer;
use report_lines::{Numbers, Reading, RxRef};
use value_text::{read_why_number, read_why_word};

/// The most bytes of a line besides those of its payload and of what that says, and of those behind
/// them that are written too.
pub const LINE: usize = 512;

/// Takes memory for a line with this payload.
#[inline(always)]
pub fn reserve_for(text: &mut TextBuffer, payload: &[u8]) -> Result<(), NoMemory>
    ensures text { text_of text.new ≡ text_of text.old }
    ensures room { OnOk result (512 + 2 * length payload.now ≤ room_of text.new) }
{
    if payload.len() > (usize::MAX - LINE) / 2 {
        return Err(NoMemory);
    }
    text.reserve(LINE + 2 * payload.len())
}

/// Takes memory for a line with this payload and this reading.
pub fn reserve_with(
    text: &mut TextBuffer,
    payload: &[u8],
    reading: &Reading,
) -> Result<(), NoMemory>
    ensures text { text_of text.new ≡ text_of text.old }
    ensures room { let long = length (long_part reading.now) in
        OnOk result (512 + 2 * length payload.now + long ≤ room_of text.new) }
{
    let Some(digits) = payload.len().checked_mul(2) else {
        return Err(NoMemory);
    };
    let Some(bytes) = digits.checked_add(long_part(reading).len()) else {
        return Err(NoMemory);
    };
    let Some(room) = bytes.checked_add(LINE) else {
        return Err(NoMemory);
    };
    text.reserve(room)
}

/// What of a reading's text may be of any length: the text of a value, or a path.
fn long_part(reading: &Reading) -> &[u8]
    ensures { result.now ≡ long_part reading.now }
{
    match reading {
        Reading::Raw => &[],
        Reading::Good { text, .. } => text.as_str().as_bytes(),
        Reading::Bad { path, .. } => path.as_str().as_bytes(),
    }
}

/// Appends on which bus, at which port and from whom, with a space in front and one behind each
/// word.
#[inline(always)]
pub fn put_key(names: &mut BusWords, text: &mut TextBuffer, bus: u8, key: &Key)
    requires { 160 ≤ room_of text.old }
    ensures buses { names.new.buses ≡ names.old.buses }
    ensures text { Puts (32 ∷ spaced (key_words names.old.buses bus key.now)) text.old text.new }
    ensures room { room_of text.old ≤ room_of text.new + 68 }
{
    names.put(text, bus, key.kind, key.port);
    put_source(text, key.source);
}

/// Appends a moment and the name of a bus, each with a space behind.
pub fn put_place(names: &BusWords, text: &mut TextBuffer, moment: u64, bus: u8)
    requires { 64 ≤ room_of text.old }
    ensures text { let name = bus_text names.now.buses bus in
        Puts (spaced (moment_text moment ∷ name ∷ [])) text.old text.new }
    ensures room { room_of text.old ≤ room_of text.new + 38 }
{
    text.put_moment(moment);
    text.put_slice(b" ");
    names.put_name(text, bus);
    text.put_slice(b" ");
}

/// Appends priority, transfer-ID and the lines of the first and the last frame, each with a space
/// behind.
#[inline(always)]
pub fn put_transfer(text: &mut TextBuffer, rx: &RxRef<'_>)
    requires { 100 ≤ room_of text.old }
    ensures text { let t = rx.now in
        Puts (spaced (transfer_words t.priority t.tid t.first t.last)) text.old text.new }
    ensures room { room_of text.old ≤ room_of text.new + 72 }
{
    text.put_byte_word(rx.priority);
    text.put_byte_word(rx.tid);
    let last = Word::of_number(rx.last);
    if rx.first == rx.last {
        last.put(text);
    } else {
        Word::of_number(rx.first).put(text);
    }
    last.put(text);
}

/// Appends a payload in hex, or `-` where there is none.
#[inline(always)]
pub fn put_payload(text: &mut TextBuffer, payload: &[u8])
    requires { 2 * length payload.now + 32 ≤ room_of text.old }
    ensures text { Puts (payload_text payload.now) text.old text.new }
    ensures room { room_of text.old ≤ room_of text.new + 2 * length payload.now + 1 }
{
    match payload {
        [] => text.put_slice(b"-"),
        _ => text.put_hex(payload),
    }
}

/// Appends that the payload is bytes, and a newline.
#[inline(always)]
pub fn put_raw(text: &mut TextBuffer)
    requires { 5 ≤ room_of text.old }
    ensures { Puts (32 ∷ reading_text Raw ++ 10 ∷ []) text.old text.new }
{
    text.put_slice(b" raw\n");
}

/// Appends what the payload says, and a newline.
pub fn put_reading(text: &mut TextBuffer, reading: &Reading)
    requires { 64 + length (long_part reading.now) ≤ room_of text.old }
    ensures { Puts (32 ∷ reading_text reading.now ++ 10 ∷ []) text.old text.new }
{
    match reading {
        Reading::Raw => put_raw(text),
        Reading::Good { text: value, .. } => put_value(text, value.as_str()),
        Reading::Bad { path, why } => put_unreadable(text, path.as_str(), *why),
    }
}

/// Appends the text of a value, and a newline.
fn put_value(text: &mut TextBuffer, value: &str)
    requires { 64 + length value.now ≤ room_of text.old }
    ensures { Puts (32 ∷ value.now ++ 10 ∷ []) text.old text.new }
{
    text.put_slice(b" ");
    text.put_slice(value.as_bytes());
    text.put_slice(b"\n");
}

/// Appends why a payload can't be read, and a newline.
fn put_unreadable(text: &mut TextBuffer, path: &str, why: ReadWhy)
    requires { 64 + length path.now ≤ room_of text.old }
    ensures { Puts (codes " !" ++ (unreadable_text path.now why ++ 10 ∷ [])) text.old text.new }
{
    text.put_slice(b" !");
    text.put_slice(read_why_word(why));
    text.put_number(read_why_number(why));
    text.put_slice(b" at ");
    text.put_slice(path.as_bytes());
    text.put_slice(b"\n");
}

/// Appends the sender and a space.
#[inline(always)]
pub fn put_source(text: &mut TextBuffer, source: Option<u8>)
    requires { 8 ≤ room_of text.old }
    ensures text { Puts (source_text source ++ 32 ∷ []) text.old text.new }
    ensures room { room_of text.old ≤ room_of text.new + 4 }
{
    match source {
        Some(source) => text.put_byte_word(source),
        None => text.put_slice(b"- "),
    }
}

/// The word of a kind, with a space behind.
#[inline(always)]
pub fn kind_word(kind: Kind) -> &'static [u8]
    ensures text { result.now ≡ kind_text kind ++ 32 ∷ [] }
    ensures length { length result.now ≡ 4 }
{
    match kind {
        Kind::Message => b"msg ",
        Kind::Request => b"req ",
        Kind::Response => b"res ",
    }
}

/// Appends how much was received, each word with a space behind.
pub fn put_received(text: &mut TextBuffer, numbers: &Numbers)
    requires { 300 ≤ room_of text.old }
    ensures text { Puts (spaced (received_words numbers.now)) text.old text.new }
    ensures room { room_of text.old ≤ room_of text.new + 120 }
{
    put_label(text, b"records ", numbers.records);
    put_label(text, b"delivered ", numbers.delivered);
    put_label(text, b"badcrc ", numbers.badcrc);
    put_label(text, b"nosession ", numbers.nosession);
}

/// Appends a label, a number and a space.
pub fn put_label(text: &mut TextBuffer, label: &[u8], number: u64)
    requires { length label.now + 25 ≤ room_of text.old }
    ensures text { Puts (label.now ++ (decimal number ++ 32 ∷ [])) text.old text.new }
    ensures room { room_of text.old ≤ room_of text.new + length label.now + 21 }
{
    text.put_slice(label);
    text.put_number(number);
    text.put_slice(b" ");
}
