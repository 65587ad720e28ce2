//! The line on a session, and the last line.
ghost use Rattle.std.specs.Prelude.{◌≡◌, ◌++◌, ◌∷◌, OnOk, decimal};
ghost use Rattle.line_text.specs.Buffer.{text_of};
ghost use Rattle.line_text.specs.Text.{line_of};
ghost use Rattle.log_explain.specs.SessionLines.{session_in};
ghost use Rattle.log_explain.specs.Text.{end_text, kind_word, name_of, name_or, session_text, tally_words};

use crate::tally::Tally;
use can_id::Kind;
use cy_bits::{BusName, NoMemory, ShortList};
use line_text::TextBuffer;

/// What is said of a session.
#[derive(Clone, Copy)]
pub struct SessionLine {
    /// What its transfers are for.
    pub kind: Kind,
    /// The subject-ID or the service-ID.
    pub port: u16,
    /// The sender's node-ID, 0 to 127.
    pub source: u8,
    /// The bus that is active: its place among the buses of the plan, counted from 0.
    pub bus: Option<u8>,
    /// What is counted of its lines.
    pub tally: Tally,
}

/// Appends the line on a session.
pub(crate) fn put_session(
    text: &mut TextBuffer,
    names: &ShortList<BusName, 3>,
    line: &SessionLine,
) -> Result<(), NoMemory>
    ensures { OnOk result
        (text_of text.new ≡ text_of text.old ++ session_text names.now (session_in line.now)) }
{
    text.push(b"session ")?;
    text.push(kind_word(line.kind))?;
    put_count(text, b" ", u64::from(line.port))?;
    put_count(text, b" ", u64::from(line.source))?;
    text.push(b" ")?;
    text.push(name_or(names, line.bus))?;
    put_tally(text, &line.tally)?;
    Ok(())
}

/// Appends what is counted of a session's lines, and the end of the line.
fn put_tally(text: &mut TextBuffer, tally: &Tally) -> Result<(), NoMemory>
    ensures { OnOk result
        (text_of text.new ≡ text_of text.old ++ 32 ∷ line_of (tally_words tally.now)) }
{
    put_count(text, b" delivered ", tally.delivered)?;
    put_count(text, b" badcrc ", tally.badcrc)?;
    put_count(text, b" copies ", tally.copies)?;
    put_count(text, b" standby ", tally.standby)?;
    put_count(text, b" stray ", tally.stray)?;
    put_count(text, b" abandoned ", tally.abandoned)?;
    put_count(text, b" handovers ", tally.handovers)?;
    put_count(text, b" gaps ", tally.gaps)?;
    text.push(b"\n")?;
    Ok(())
}

/// The name of a bus, or `-` for none.
fn name_or(names: &ShortList<BusName, 3>, bus: Option<u8>) -> &[u8]
    ensures { result.now ≡ name_or names.now bus }
{
    match bus {
        Some(bus) => name_of(names, bus),
        None => b"-",
    }
}

/// Appends the last line.
pub(crate) fn put_end(text: &mut TextBuffer, records: u64, sessions: u64) -> Result<(), NoMemory>
    ensures { OnOk result (text_of text.new ≡ text_of text.old ++ end_text records sessions) }
{
    put_count(text, b"end records ", records)?;
    put_count(text, b" sessions ", sessions)?;
    text.push(b"\n")?;
    Ok(())
}

/// The word of what a transfer is for.
fn kind_word(kind: Kind) -> &'static [u8]
    ensures { result.now ≡ kind_word kind }
{
    match kind {
        Kind::Message => b"msg",
        Kind::Request => b"req",
        Kind::Response => b"res",
    }
}

/// The name of a bus, by its place.
fn name_of(names: &ShortList<BusName, 3>, bus: u8) -> &[u8]
    ensures { result.now ≡ name_of names.now bus }
{
    match names.get(bus as usize) {
        Some(name) => name.as_str().as_bytes(),
        None => b"",
    }
}

/// Appends a word and a number.
fn put_count(text: &mut TextBuffer, word: &[u8], count: u64) -> Result<(), NoMemory>
    ensures { OnOk result
        (text_of text.new ≡ text_of text.old ++ (word.now ++ decimal count)) }
{
    text.push(word)?;
    text.reserve(24)?;
    text.put_number(count);
    Ok(())
}
