//! The words of a reason.
ghost use Rattle.std.specs.Prelude.{◌≡◌, ◌≤◌, ◌+◌, ◌++◌, ◌∷◌, [], decimal, length};
ghost use Rattle.line_text.specs.Buffer.{Puts, room_of};
ghost use Rattle.line_text.specs.Text.{line_of};
ghost use Rattle.log_explain.specs.Text.{before, change_words, reason_words, silence_words};

use crate::bus_words::BusWords;
use crate::reasons::{Change, Reason, Silence};
use line_text::TextBuffer;
use tail_frame::Discard;

/// Puts the words of a reason, and the end of the line.
#[inline(always)]
pub fn put_reason(buses: &BusWords, text: &mut TextBuffer, reason: Reason)
    requires { 224 ≤ room_of text.old }
    ensures { Puts (line_of (reason_words buses.now.names reason)) text.old text.new }
{
    match reason {
        Reason::Discarded(why) => text.put_slice(discard_line(why)),
        Reason::Own => text.put_slice(b"own\n"),
        Reason::Elsewhere(node) => put_last(text, b"elsewhere ", u64::from(node)),
        Reason::Unsubscribed => text.put_slice(b"unsubscribed\n"),
        Reason::Unknown => text.put_slice(b"unknown\n"),
        Reason::NoSession => text.put_slice(b"nosession\n"),
        Reason::Standby(silence) => put_standby(buses, text, silence),
        Reason::Copy(line) => put_last(text, b"copy ", line),
        Reason::Begun(change) => put_begun(buses, text, change),
        Reason::Delivered { first, change } => put_delivered(buses, text, first, change),
        Reason::BadCrc(first) => put_last(text, b"badcrc ", first),
        Reason::Taken(first) => put_last(text, b"taken ", first),
        Reason::StrayNone => text.put_slice(b"stray none\n"),
        Reason::StrayTid(tid) => put_last(text, b"stray tid ", u64::from(tid)),
        Reason::StrayToggle(first) => put_last(text, b"stray toggle ", first),
    }
}

/// Puts what is said of a frame on another bus than the active one.
#[inline(always)]
fn put_standby(buses: &BusWords, text: &mut TextBuffer, silence: Silence)
    requires { 224 ≤ room_of text.old }
    ensures { let words = reason_words buses.now.names (Reason.Standby silence) in
        Puts (line_of words) text.old text.new }
{
    text.put_slice(b"standby");
    put_silence(buses, text, silence);
    text.put_slice(b"\n");
}

/// Puts what is said of a frame that begins a transfer of several.
#[inline(always)]
fn put_begun(buses: &BusWords, text: &mut TextBuffer, change: Change)
    requires { 224 ≤ room_of text.old }
    ensures { let words = reason_words buses.now.names (Reason.Begun change) in
        Puts (line_of words) text.old text.new }
{
    text.put_slice(b"begun");
    put_change(buses, text, change);
}

/// Puts what is said of a frame that ends a transfer which is delivered.
#[inline(always)]
fn put_delivered(buses: &BusWords, text: &mut TextBuffer, first: u64, change: Change)
    requires { 224 ≤ room_of text.old }
    ensures { let words = reason_words buses.now.names (Reason.Delivered first change) in
        Puts (line_of words) text.old text.new }
{
    put_number(text, b"delivered ", first);
    put_change(buses, text, change);
}

/// Puts what changes with a frame, and the end of the line.
#[inline(always)]
fn put_change(buses: &BusWords, text: &mut TextBuffer, change: Change)
    requires { 192 ≤ room_of text.old }
    ensures { Puts (before (change_words buses.now.names change) ++ 10 ∷ []) text.old text.new }
{
    if let Some(first) = change.over {
        put_number(text, b" over ", first);
    }
    if let Some(silence) = change.from {
        text.put_slice(b" from");
        put_silence(buses, text, silence);
    }
    text.put_slice(b"\n");
}

/// Puts the name of a bus, and for how long it has been silent, with a space before each.
#[inline(always)]
fn put_silence(buses: &BusWords, text: &mut TextBuffer, silence: Silence)
    requires { 64 ≤ room_of text.old }
    ensures text { Puts (before (silence_words buses.now.names silence)) text.old text.new }
    ensures room { room_of text.old ≤ room_of text.new + 52 }
{
    buses.put(text, silence.bus);
    text.put_number(silence.micros);
}

/// What is said of a record that is no frame.
fn discard_line(why: Discard) -> &'static [u8]
    ensures text { result.now ≡ line_of (reason_words [] (Reason.Discarded why)) }
    ensures length { length result.now ≤ 24 }
{
    match why {
        Discard::Identifier => b"discarded identifier\n",
        Discard::Empty => b"discarded empty\n",
        Discard::Toggle => b"discarded toggle\n",
        Discard::Anonymous => b"discarded anonymous\n",
        Discard::Short => b"discarded short\n",
        Discard::Bare => b"discarded bare\n",
    }
}

/// Puts a word and a number.
#[inline(always)]
fn put_number(text: &mut TextBuffer, word: &[u8], number: u64)
    requires { length word.now + 24 ≤ room_of text.old }
    ensures text { Puts (word.now ++ decimal number) text.old text.new }
    ensures room { room_of text.old ≤ room_of text.new + length word.now + 20 }
{
    text.put_slice(word);
    text.put_number(number);
}

/// Puts a word and a number, and the end of the line.
#[inline(always)]
fn put_last(text: &mut TextBuffer, word: &[u8], number: u64)
    requires { length word.now + 32 ≤ room_of text.old }
    ensures { Puts (word.now ++ (decimal number ++ 10 ∷ [])) text.old text.new }
{
    put_number(text, word, number);
    text.put_slice(b"\n");
}
