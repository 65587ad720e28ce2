//! Arrays of bytes, as objects of their hex and their text.
ghost use Rattle.std.specs.Prelude.{◌≡◌, ◌≤◌, ◌+◌, ◌*◌, ◌^◌, ◌++◌, ◌∷◌, [], OnOk, codes};
ghost use Rattle.std.specs.Prelude.{length, take, true};
ghost use Rattle.dsdl_types.specs.Views.{sch};
ghost use Rattle.line_text.specs.Buffer.{room_of, text_of};
ghost use Rattle.value_text.specs.Texts.{is_uint8};
ghost use Rattle.value_json.specs.Words.{are_printable, bytes_json, bytes_text, escaped, quoted};
ghost use Rattle.value_put.specs.Counted.{counted};
ghost use Rattle.value_put.specs.Told.{AreBytes, Begins};
ghost use Rattle.json_lines.specs.Typed.{IsPlain, PutsArray};

use dsdl_types::Schema;
use line_text::TextBuffer;
use value_json::{is_escaped, is_printable};
use value_put::{Bits, Stop};

/// Puts an array of so many bytes. It gives up one that doesn't begin at a multiple of 8 bits, and
/// one that isn't there as a whole.
#[tactic(auto, using(value_put::proofs::Front::begins))]
pub fn put_bytes(
    item: &Schema,
    count: u32,
    at: &mut Bits<'_>,
    text: &mut TextBuffer,
) -> Result<(), Stop>
    requires { is_uint8 (sch item.now) ≡ true }
    ensures put { OnOk result (PutsArray (sch item.now) count
        at.old text.old at.new text.new) }
    ensures same { counted at.new ≡ counted at.old }
    ensures front { Begins (text_of text.old) (text_of text.new) }
{
    let _ = item;
    let size = u64::from(count);
    let window = at.window(size)?;
    put_object(window.bytes, count as usize, text)?;
    at.skip(8 * size)
}

/// Puts the object of the first bytes, behind which at least 8 more stand.
#[tactic(auto, using(value_put::proofs::Front::begins))]
fn put_object(bytes: &[u8], count: usize, text: &mut TextBuffer) -> Result<(), Stop>
    requires few { count ≤ 2 ^ 32 }
    requires wide { count + 8 ≤ length bytes.now }
    ensures text { OnOk result (text_of text.new
        ≡ text_of text.old ++ bytes_json (take count bytes.now)) }
    ensures small { AreBytes (take count bytes.now) }
    ensures front { Begins (text_of text.old) (text_of text.new) }
{
    text.reserve(4 * count + 64)?;
    text.put(b"{\"hex\":\"", 8);
    text.put_hex_of(bytes, count);
    text.put(b"\"", 1);
    put_text(&bytes[..count], text);
    text.put(b"}", 1);
    Ok(())
}

/// Puts the text of bytes that are all printable, and nothing of others.
fn put_text(bytes: &[u8], text: &mut TextBuffer)
    requires room { 2 * length bytes.now + 32 ≤ room_of text.old }
    ensures text { text_of text.new ≡ text_of text.old ++ bytes_text bytes.now }
    ensures room { room_of text.old ≤ room_of text.new + 2 * length bytes.now + 16 }
{
    if are_plain(bytes) {
        put_plain(bytes, text);
    } else if are_printable(bytes) {
        put_printable(bytes, text);
    }
}

/// Puts the text of bytes that need no escape.
#[inline(always)]
fn put_plain(bytes: &[u8], text: &mut TextBuffer)
    requires room { length bytes.now + 32 ≤ room_of text.old }
    ensures text { text_of text.new
        ≡ text_of text.old ++ (codes ",\"text\":" ++ quoted bytes.now) }
    ensures room { room_of text.new + length bytes.now + 10 ≡ room_of text.old }
{
    text.put(b",\"text\":\"", 9);
    text.put_slice(bytes);
    text.put(b"\"", 1);
}

/// Puts the text of bytes, of which some may need an escape.
#[inline(always)]
fn put_printable(bytes: &[u8], text: &mut TextBuffer)
    requires room { 2 * length bytes.now + 32 ≤ room_of text.old }
    ensures text { text_of text.new
        ≡ text_of text.old ++ (codes ",\"text\":" ++ quoted (escaped bytes.now)) }
    ensures room { room_of text.old ≤ room_of text.new + 2 * length bytes.now + 10 }
{
    text.put(b",\"text\":\"", 9);
    put_escaped(bytes, text);
    text.put(b"\"", 1);
}

/// Whether all bytes are 20 to 7E hex, and none needs an escape.
fn are_plain(bytes: &[u8]) -> bool
    ensures { result ≡ true → IsPlain bytes.now }
{
    for byte in bytes {
        if !is_printable(*byte) || is_escaped(*byte) {
            return false;
        }
    }
    true
}

/// Whether all bytes are 20 to 7E hex.
fn are_printable(bytes: &[u8]) -> bool
    ensures { result ≡ are_printable bytes.now }
{
    for byte in bytes {
        if !is_printable(*byte) {
            return false;
        }
    }
    true
}

/// Puts bytes with `\` in front of `"` and of `\`.
fn put_escaped(bytes: &[u8], text: &mut TextBuffer)
    requires room { 2 * length bytes.now + 2 ≤ room_of text.old }
    ensures text { text_of text.new ≡ text_of text.old ++ escaped bytes.now }
    ensures room { room_of text.old ≤ room_of text.new + 2 * length bytes.now }
{
    for byte in bytes {
        put_one(*byte, text);
    }
}

/// Puts one byte of a string.
#[inline(always)]
fn put_one(byte: u8, text: &mut TextBuffer)
    requires room { 2 ≤ room_of text.old }
    ensures text { text_of text.new ≡ text_of text.old ++ escaped (byte ∷ []) }
    ensures room { room_of text.old ≤ room_of text.new + 2 }
{
    if is_escaped(byte) {
        text.put(&[b'\\', byte], 2);
    } else {
        text.put(&[byte], 1);
    }
}
