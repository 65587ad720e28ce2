//! The lines on a fetch.
ghost use Rattle.std.specs.Prelude.{◌≡◌, ◌≤◌, ◌<◌, ◌^◌, ◌++◌, ◌∷◌, [], OnOk, decimal, length};
ghost use Rattle.line_text.specs.Buffer.{text_of};
ghost use Rattle.node_reach.specs.Fetched.{ask_line, file_line, end_text};

use cy_bits::NoMemory;
use file_client::FetchOut;
use line_text::TextBuffer;

/// Appends the line of a request.
pub(crate) fn put_ask(
    text: &mut TextBuffer,
    moment: u64,
    tid: u8,
    offset: u64,
) -> Result<(), NoMemory>
    ensures { OnOk result (text_of text.new ≡ text_of text.old ++ ask_line moment tid offset) }
{
    text.reserve(128)?;
    text.put_slice(b"ask ");
    text.put_moment(moment);
    text.put_slice(b" ");
    text.put_byte_word(tid);
    text.put_number(offset);
    text.put_slice(b"\n");
    Ok(())
}

/// Appends the last line: what became of a file of which there are these bytes.
pub(crate) fn put_outcome(
    text: &mut TextBuffer,
    file: &[u8],
    end: Option<FetchOut>,
) -> Result<(), NoMemory>
    requires { length file.now < 2 ^ 32 }
    ensures { OnOk result
        (text_of text.new ≡ text_of text.old ++ end_text (length file.now) file.now end) }
{
    match end {
        Some(FetchOut::Done) => put_file(text, file),
        Some(FetchOut::Refused { code }) => put_counted(text, b"refused ", u64::from(code)),
        Some(FetchOut::GaveUp { offset }) => put_counted(text, b"gave up ", offset),
        Some(FetchOut::TooLong { length }) => put_counted(text, b"too long ", length),
        Some(FetchOut::Ask { .. } | FetchOut::Wait) | None => {
            put_counted(text, b"open ", file.len() as u64)
        }
    }
}

/// Appends a line of words, with a space behind them, and a number.
fn put_counted(text: &mut TextBuffer, words: &[u8], number: u64) -> Result<(), NoMemory>
    requires { length words.now ≤ 16 }
    ensures { OnOk result
        (text_of text.new ≡ text_of text.old ++ (words.now ++ (decimal number ++ 10 ∷ []))) }
{
    text.reserve(64)?;
    text.put_slice(words);
    text.put_number(number);
    text.put_slice(b"\n");
    Ok(())
}

/// Appends the line of a file.
fn put_file(text: &mut TextBuffer, file: &[u8]) -> Result<(), NoMemory>
    requires { length file.now < 2 ^ 32 }
    ensures { OnOk result (text_of text.new ≡ text_of text.old ++ file_line file.now) }
{
    text.reserve(2 * file.len() + 64)?;
    text.put_slice(b"file ");
    text.put_number(file.len() as u64);
    text.put_slice(b" ");
    if file.is_empty() {
        text.put_slice(b"-");
    } else {
        text.put_hex(file);
    }
    text.put_slice(b"\n");
    Ok(())
}
