//! The name in front of a field's value or of a variant's.
ghost use Rattle.std.specs.Prelude.{◌≡◌, ◌≤◌, ◌<◌, ◌+◌, ◌++◌, OnOk, codes, length};
ghost use Rattle.dsdl_types.specs.Views.{named};
ghost use Rattle.line_text.specs.Buffer.{room_of, text_of};
ghost use Rattle.value_text.specs.Words.{lead};
ghost use Rattle.value_put.specs.Told.{Begins};

use crate::marks::{ROOM, put_comma};
use crate::stop::Stop;
use dsdl_types::Field;
use line_text::TextBuffer;
use std::simd::prelude::*;

/// Puts a comma but in front of the first field, the field's name and a colon, and takes room for a primitive.
#[tactic(auto, using(crate::proofs::Front::begins))]
#[inline(always)]
pub fn put_name(field: &Field, first: bool, text: &mut TextBuffer) -> Result<(), Stop>
    ensures text { OnOk result (text_of text.new
        ≡ ((text_of text.old ++ lead first) ++ (named field.now).0) ++ codes ": ") }
    ensures room { OnOk result (40 ≤ room_of text.new) }
    ensures front { Begins (text_of text.old) (text_of text.new) }
{
    let name = field.name.as_str().as_bytes();
    text.reserve(name.len() + (ROOM + 4))?;
    put_comma(first, text);
    put_word(name, text);
    Ok(())
}

/// Puts a word that is short as a rule, a colon and a space: its front and its end as two blocks, which takes no call.
#[inline(always)]
fn put_word(word: &[u8], text: &mut TextBuffer)
    requires room { length word.now + 18 ≤ room_of text.old }
    ensures text { text_of text.new ≡ (text_of text.old ++ word.now) ++ codes ": " }
    ensures room { room_of text.new + (length word.now + 2) ≡ room_of text.old }
{
    let size = word.len();
    if size >= 8 && size <= 16 {
        put_two_of_eight(word, text);
    } else if size >= 4 && size < 8 {
        put_two_of_four(word, text);
    } else if size > 16 && size <= 32 {
        put_two_of_sixteen(word, text);
    } else {
        text.put_slice(word);
        text.put(b": ", 2);
    }
}

/// Puts 4 to 8 bytes, a colon and a space.
#[inline(always)]
fn put_two_of_four(word: &[u8], text: &mut TextBuffer)
    requires some { 4 ≤ length word.now }
    requires few { length word.now ≤ 8 }
    requires room { length word.now + 18 ≤ room_of text.old }
    ensures text { text_of text.new ≡ (text_of text.old ++ word.now) ++ codes ": " }
    ensures room { room_of text.new + (length word.now + 2) ≡ room_of text.old }
{
    let front = word.len() - 4;
    text.put(&u8x4::from_slice(word).to_array(), front);
    let end = u8x4::from_slice(&word[front..]);
    let both = joined_of_four(end, u8x4::from_array(*b": : "));
    text.put(&both.to_array(), 6);
}

/// Puts 8 to 16 bytes, a colon and a space.
#[inline(always)]
fn put_two_of_eight(word: &[u8], text: &mut TextBuffer)
    requires some { 8 ≤ length word.now }
    requires few { length word.now ≤ 16 }
    requires room { length word.now + 18 ≤ room_of text.old }
    ensures text { text_of text.new ≡ (text_of text.old ++ word.now) ++ codes ": " }
    ensures room { room_of text.new + (length word.now + 2) ≡ room_of text.old }
{
    let front = word.len() - 8;
    text.put(&u8x8::from_slice(word).to_array(), front);
    let end = u8x8::from_slice(&word[front..]);
    let both = joined_of_eight(end, u8x8::from_array(*b": : : : "));
    text.put(&both.to_array(), 10);
}

/// Puts 16 to 32 bytes, a colon and a space.
#[inline(always)]
fn put_two_of_sixteen(word: &[u8], text: &mut TextBuffer)
    requires some { 16 ≤ length word.now }
    requires few { length word.now ≤ 32 }
    requires room { length word.now + 18 ≤ room_of text.old }
    ensures text { text_of text.new ≡ (text_of text.old ++ word.now) ++ codes ": " }
    ensures room { room_of text.new + (length word.now + 2) ≡ room_of text.old }
{
    let front = word.len() - 16;
    text.put(&u8x16::from_slice(word).to_array(), front);
    text.put(&u8x16::from_slice(&word[front..]).to_array(), 16);
    text.put(b": ", 2);
}

/// Two halves as one block.
#[inline(always)]
fn joined_of_four(first: u8x4, last: u8x4) -> u8x8
    ensures { result ≡ first ++ last }
{
    first.shuffle(last, [0, 1, 2, 3, 4, 5, 6, 7])
}

/// Two halves as one block.
#[inline(always)]
fn joined_of_eight(first: u8x8, last: u8x8) -> u8x16
    ensures { result ≡ first ++ last }
{
    first.shuffle(last, [0, 1, 2, 3, 4, 5, 6, 7, 8, 9, 10, 11, 12, 13, 14, 15])
}
