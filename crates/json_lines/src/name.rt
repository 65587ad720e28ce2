//! The name of a member.
ghost use Rattle.std.specs.Prelude.{◌≡◌, ◌≤◌, ◌+◌, ◌*◌, ◌++◌, OnOk, codes, length};
ghost use Rattle.dsdl_types.specs.Views.{named};
ghost use Rattle.line_text.specs.Buffer.{room_of, text_of};
ghost use Rattle.value_json.specs.Words.{name_text};
ghost use Rattle.value_put.specs.Told.{Begins};
ghost use Rattle.json_lines.specs.Typed.{comma};

use dsdl_types::Field;
use line_text::TextBuffer;
use value_put::{ROOM, Stop};

/// Puts a comma but in front of the first member, the field's name between quotes and a colon,
/// and takes room for a primitive.
#[tactic(auto, using(value_put::proofs::Front::begins))]
#[inline(always)]
pub fn put_name(field: &Field, first: bool, text: &mut TextBuffer) -> Result<(), Stop>
    ensures text { OnOk result (text_of text.new
        ≡ (text_of text.old ++ comma first) ++ name_text (named field.now).0) }
    ensures room { OnOk result (40 ≤ room_of text.new) }
    ensures front { Begins (text_of text.old) (text_of text.new) }
{
    let name = field.name.as_str().as_bytes();
    text.reserve(name.len() + (ROOM + 4))?;
    put_quoted(name, first, text);
    Ok(())
}

/// Puts a comma but in front of the first member, a name between quotes and a colon.
#[inline(always)]
fn put_quoted(name: &[u8], first: bool, text: &mut TextBuffer)
    requires room { length name.now + 20 ≤ room_of text.old }
    ensures text { text_of text.new ≡ (text_of text.old ++ comma first) ++ name_text name.now }
    ensures room { room_of text.old ≤ room_of text.new + (length name.now + 4) }
{
    put_quote(first, text);
    put_word(name, text);
    text.put(b"\":", 2);
}

/// Puts a comma but in front of the first member, and a quote.
#[inline(always)]
fn put_quote(first: bool, text: &mut TextBuffer)
    requires room { 2 ≤ room_of text.old }
    ensures text { text_of text.new ≡ text_of text.old ++ (comma first ++ codes "\"") }
    ensures room { room_of text.old ≤ room_of text.new + 2 }
{
    let word = if first { b"\" " } else { b",\"" };
    text.put(word, if first { 1 } else { 2 });
}

/// Puts a word that is short as a rule: its front and its end as two blocks, which takes no call.
#[inline(always)]
fn put_word(word: &[u8], text: &mut TextBuffer)
    requires room { length word.now + 16 ≤ room_of text.old }
    ensures text { text_of text.new ≡ text_of text.old ++ word.now }
    ensures room { room_of text.new + length word.now ≡ room_of text.old }
{
    let size = word.len();
    if size >= 8 && size <= 16 {
        put_two_of::<8>(word, text);
    } else if size >= 4 && size < 8 {
        put_two_of::<4>(word, text);
    } else if size > 16 && size <= 32 {
        put_two_of::<16>(word, text);
    } else {
        text.put_slice(word);
    }
}

/// Puts N to twice N bytes as two blocks of N.
#[inline(always)]
fn put_two_of<const N: usize>(word: &[u8], text: &mut TextBuffer)
    requires some { N ≤ length word.now }
    requires few { length word.now ≤ 2 * N }
    requires room { length word.now + N ≤ room_of text.old }
    ensures text { text_of text.new ≡ text_of text.old ++ word.now }
    ensures room { room_of text.new + length word.now ≡ room_of text.old }
{
    let front = word.len() - N;
    let mut block = [0; N];
    block.copy_from_slice(&word[..N]);
    text.put(&block, front);
    block.copy_from_slice(&word[front..]);
    text.put(&block, N);
}
