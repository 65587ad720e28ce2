//! Words, and strings with escapes, behind a text.
ghost use Rattle.std.specs.Prelude.{◌≡◌, ◌++◌, ◌∷◌, [], OnOk};
ghost use Rattle.dsdl_types.specs.Views.{named};
ghost use Rattle.line_text.specs.Buffer.{text_of};
ghost use Rattle.value_json.specs.Pieces.{Begins, Puts};
ghost use Rattle.value_json.specs.Words.{escaped, is_escaped, lead, name_text};

use cy_bits::NoMemory;
use dsdl_types::Field;
use line_text::TextBuffer;

/// Puts bytes as they are.
#[tactic(auto, using(crate::proofs::Front::begins))]
pub fn put_word(word: &[u8], text: &mut TextBuffer) -> Result<(), NoMemory>
    ensures text { OnOk result (text_of text.new ≡ text_of text.old ++ word.now) }
    ensures front { Begins (text_of text.old) (text_of text.new) }
{
    text.push(word)
}

/// Puts a comma, but not in front of the first part.
#[tactic(auto, using(crate::proofs::Front::begins))]
pub fn put_lead(first: bool, text: &mut TextBuffer) -> Result<(), NoMemory>
    ensures put { OnOk result (Puts (lead first) text.old text.new) }
    ensures front { Begins (text_of text.old) (text_of text.new) }
{
    if first { Ok(()) } else { put_word(b",", text) }
}

/// Puts a field's name between quotes, and a colon.
#[tactic(auto, using(crate::proofs::Front::begins))]
pub fn put_name(field: &Field, text: &mut TextBuffer) -> Result<(), NoMemory>
    ensures text { OnOk result (text_of text.new
        ≡ text_of text.old ++ name_text (named field.now).0) }
    ensures front { Begins (text_of text.old) (text_of text.new) }
{
    put_word(b"\"", text)?;
    put_word(field.name.as_str().as_bytes(), text)?;
    put_word(b"\":", text)
}

/// Whether a byte stands behind `\` in a string: `"` and `\`.
pub fn is_escaped(byte: u8) -> bool
    ensures { result ≡ is_escaped byte }
{
    byte == b'"' || byte == b'\\'
}

/// Puts one byte of a string.
#[tactic(auto, using(crate::proofs::Front::begins))]
pub fn put_escaped(byte: u8, text: &mut TextBuffer) -> Result<(), NoMemory>
    ensures text { OnOk result (text_of text.new ≡ text_of text.old ++ escaped (byte ∷ [])) }
    ensures front { Begins (text_of text.old) (text_of text.new) }
{
    if is_escaped(byte) {
        put_word(&[b'\\', byte], text)
    } else {
        put_word(&[byte], text)
    }
}
