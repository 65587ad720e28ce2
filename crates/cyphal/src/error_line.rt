//! The line that is written of a status. It takes no memory.
ghost use Rattle.std.specs.Prelude.{◌≡◌, OnOk, OnErr};
ghost use Rattle.std.specs.List.{flat_map};
ghost use Rattle.cy_outside.specs.Outside.{Rose};
ghost use Rattle.cy_outside.specs.Written.{behind, Begins};
ghost use Rattle.cyphal.specs.ErrorLine.{plan_why_text, log_why_text, read_why_word, read_why_number, numbered, unreadable, not_newer, missing, error_line};

use crate::dsdl_line::put_refused_file;
use cy_outside::{Failed, Sink, put_all};
use dsdl_types::ReadWhy;
use frame_log::LogWhy;
use itoa::Buffer;
use node_plan::PlanWhy;
use node_run::Status;
use type_versions::compat_why_text;

/// Writes the line of a status, in pieces; of `Ok` there is none.
pub fn put_error<E: Sink>(err: &mut E, status: &Status) -> Result<(), Failed>
    ensures written { OnOk result
        (E.written err.new ≡ behind (E.written err.old) (error_line status.now)) }
    ensures begins { OnErr result
        (Begins (error_line status.now) (E.written err.old) (E.written err.new)) }
    ensures fault { OnErr result (Rose (E.faults err.old) (E.faults err.new)) }
    ensures quiet { status.now ≡ Status.Ok → err.new ≡ err.old }
{
    match status {
        Status::Ok => Ok(()),
        Status::Usage => put_all(err, b"cyphal: usage\n"),
        Status::Dsdl { file, line, why } => put_refused_file(err, file.as_str(), *line, why),
        Status::Plan { line, why } => {
            put_numbered(
                err,
                b"cyphal: plan line ",
                *line as u64,
                plan_why_text(*why),
            )
        }
        Status::Log { line, why } => put_numbered(
            err,
            b"cyphal: log line ",
            *line,
            log_why_text(*why),
        ),
        Status::Text { line } => put_numbered(err, b"cyphal: line ", *line, b"no value"),
        Status::Unreadable { line, path, why } => {
            let word = read_why_word(*why);
            put_unreadable(err, *line, path.as_str(), word, read_why_number(*why))
        }
        Status::NotNewer { path, why } => {
            put_not_newer(err, path.as_str(), compat_why_text(*why))
        }
        Status::LogLong => put_all(err, b"cyphal: input too long\n"),
        Status::NoFile { path } => put_missing(err, path.as_str()),
        Status::ReadFault => put_all(err, b"cyphal: read fault\n"),
        Status::WriteFault => put_all(err, b"cyphal: write fault\n"),
        Status::NoMemory => put_all(err, b"cyphal: out of memory\n"),
    }
}

/// Writes the line of a file, folder or type that isn't there.
fn put_missing<E: Sink>(err: &mut E, path: &str) -> Result<(), Failed>
    ensures written { OnOk result
        (E.written err.new ≡ behind (E.written err.old) (missing path.now)) }
    ensures begins { OnErr result
        (Begins (missing path.now) (E.written err.old) (E.written err.new)) }
    ensures fault { OnErr result (Rose (E.faults err.old) (E.faults err.new)) }
{
    let parts = [
        b"cyphal: not found: ".as_slice(),
        path.as_bytes(),
        b"\n".as_slice(),
    ];
    put_parts(err, &parts)
}

/// Writes the line of bytes that can't be read: a word says why, and with it stands the number that
/// was read.
fn put_unreadable<E: Sink>(
    err: &mut E,
    line: u64,
    path: &str,
    word: &[u8],
    number: u64,
) -> Result<(), Failed>
    ensures written { let text = unreadable line path.now word.now number in
        OnOk result (E.written err.new ≡ behind (E.written err.old) text) }
    ensures begins { let text = unreadable line path.now word.now number in
        OnErr result (Begins text (E.written err.old) (E.written err.new)) }
    ensures fault { OnErr result (Rose (E.faults err.old) (E.faults err.new)) }
{
    let mut line_buffer = Buffer::new();
    let line_digits = line_buffer.format(line).as_bytes();
    let mut number_buffer = Buffer::new();
    let number_digits = number_buffer.format(number).as_bytes();
    let parts = [
        b"cyphal: line ".as_slice(),
        line_digits,
        b": ".as_slice(),
        word,
        number_digits,
        b" at ".as_slice(),
        path.as_bytes(),
        b"\n".as_slice(),
    ];
    put_parts(err, &parts)
}

/// Writes the line of a type that isn't newer.
fn put_not_newer<E: Sink>(err: &mut E, path: &str, why: &[u8]) -> Result<(), Failed>
    ensures written { OnOk result
        (E.written err.new ≡ behind (E.written err.old) (not_newer path.now why.now)) }
    ensures begins { OnErr result
        (Begins (not_newer path.now why.now) (E.written err.old) (E.written err.new)) }
    ensures fault { OnErr result (Rose (E.faults err.old) (E.faults err.new)) }
{
    let parts = [
        b"cyphal: not newer at ".as_slice(),
        path.as_bytes(),
        b": ".as_slice(),
        why,
        b"\n".as_slice(),
    ];
    put_parts(err, &parts)
}

/// Writes the line of an input's line that is refused.
fn put_numbered<E: Sink>(err: &mut E, head: &[u8], n: u64, why: &[u8]) -> Result<(), Failed>
    ensures written { OnOk result
        (E.written err.new ≡ behind (E.written err.old) (numbered head.now n why.now)) }
    ensures begins { OnErr result
        (Begins (numbered head.now n why.now) (E.written err.old) (E.written err.new)) }
    ensures fault { OnErr result (Rose (E.faults err.old) (E.faults err.new)) }
{
    let mut buffer = Buffer::new();
    let digits = buffer.format(n).as_bytes();
    let parts = [head, digits, b": ".as_slice(), why, b"\n".as_slice()];
    put_parts(err, &parts)
}

/// Writes parts, one behind another.
pub fn put_parts<E: Sink>(err: &mut E, parts: &[&[u8]]) -> Result<(), Failed>
    ensures written { OnOk result
        (E.written err.new ≡ behind (E.written err.old) (flat_map (λ part. part.now) parts.now)) }
    ensures begins { OnErr result
        (Begins (flat_map (λ part. part.now) parts.now) (E.written err.old) (E.written err.new)) }
    ensures fault { OnErr result (Rose (E.faults err.old) (E.faults err.new)) }
{
    for part in parts {
        let Ok(()) = put_all(err, part) else {
            return Err(Failed);
        };
    }
    Ok(())
}

/// The word of why a line of a plan is refused.
fn plan_why_text(why: PlanWhy) -> &'static [u8]
    ensures { result.now ≡ plan_why_text why }
{
    match why {
        PlanWhy::Line => b"Line",
        PlanWhy::UnknownType => b"UnknownType",
        PlanWhy::Repeated => b"Repeated",
        PlanWhy::Range => b"Range",
    }
}

/// The word of why a line of a log is refused.
fn log_why_text(why: LogWhy) -> &'static [u8]
    ensures { result.now ≡ log_why_text why }
{
    match why {
        LogWhy::BadLine => b"BadLine",
        LogWhy::TimeBack => b"TimeBack",
        LogWhy::UnknownBus => b"UnknownBus",
        LogWhy::TooFar => b"TooFar",
    }
}

/// The word of why bytes can't be read, with a space behind it.
fn read_why_word(why: ReadWhy) -> &'static [u8]
    ensures { result.now ≡ read_why_word why }
{
    match why {
        ReadWhy::BadTag(_) => b"BadTag ",
        ReadWhy::BadLength(_) => b"BadLength ",
        ReadWhy::BadDelimiter(_) => b"BadDelimiter ",
    }
}

/// The number that was read where bytes can't be read.
fn read_why_number(why: ReadWhy) -> u64
    ensures { result ≡ read_why_number why }
{
    match why {
        ReadWhy::BadTag(n) | ReadWhy::BadLength(n) | ReadWhy::BadDelimiter(n) => n,
    }
}
