//! The line that is written of a DSDL file that is refused. It takes no memory.
ghost use Rattle.std.specs.Prelude.{◌≡◌, ◌++◌, OnOk, OnErr, codes, decimal};
ghost use Rattle.cy_outside.specs.Outside.{Rose};
ghost use Rattle.cy_outside.specs.Written.{behind, Begins};
ghost use Rattle.cyphal.specs.ErrorLine.{name_error_text, expr_why_text, type_text, dsdl_why_text, in_file};

use crate::error_line::put_parts;
use cy_outside::{Failed, Sink};
use dsdl_names::{NameError, TypeId};
use dsdl_resolve::{DsdlWhy, ExprWhy};
use itoa::Buffer;

/// Writes the line of a DSDL file that is refused.
pub fn put_refused_file<E: Sink>(
    err: &mut E,
    file: &str,
    line: u32,
    why: &DsdlWhy,
) -> Result<(), Failed>
    ensures written { let text = in_file file.now line (dsdl_why_text why.now) in
        OnOk result (E.written err.new ≡ behind (E.written err.old) text) }
    ensures begins { let text = in_file file.now line (dsdl_why_text why.now) in
        OnErr result (Begins text (E.written err.old) (E.written err.new)) }
    ensures fault { OnErr result (Rose (E.faults err.old) (E.faults err.new)) }
{
    match why {
        DsdlWhy::Name(error) => put_in_file(err, file, line, b"Name ", name_error_text(*error)),
        DsdlWhy::Syntax => put_in_file(err, file, line, b"Syntax", b""),
        DsdlWhy::Unresolved(id) => put_unresolved(err, file, line, id),
        DsdlWhy::Cycle => put_in_file(err, file, line, b"Cycle", b""),
        DsdlWhy::Rule(rule) => put_rule(err, file, line, *rule),
        DsdlWhy::Expr(why) => put_in_file(err, file, line, b"Expr ", expr_why_text(*why)),
        DsdlWhy::Assert => put_in_file(err, file, line, b"Assert", b""),
        DsdlWhy::VersionClash => put_in_file(err, file, line, b"VersionClash", b""),
        DsdlWhy::PortClash => put_in_file(err, file, line, b"PortClash", b""),
        DsdlWhy::Long(bits) => put_long(err, file, line, *bits),
        DsdlWhy::TooBig => put_in_file(err, file, line, b"TooBig", b""),
    }
}

/// Writes the line of a rule that is broken.
fn put_rule<E: Sink>(err: &mut E, file: &str, line: u32, rule: u8) -> Result<(), Failed>
    ensures written { let text = in_file file.now line (codes "Rule " ++ decimal rule) in
        OnOk result (E.written err.new ≡ behind (E.written err.old) text) }
    ensures begins { let text = in_file file.now line (codes "Rule " ++ decimal rule) in
        OnErr result (Begins text (E.written err.old) (E.written err.new)) }
    ensures fault { OnErr result (Rose (E.faults err.old) (E.faults err.new)) }
{
    put_in_file(
        err,
        file,
        line,
        b"Rule ",
        Buffer::new().format(rule).as_bytes(),
    )
}

/// Writes the line of a type whose greatest length or whose extent is so many bits.
fn put_long<E: Sink>(err: &mut E, file: &str, line: u32, bits: u64) -> Result<(), Failed>
    ensures written { let text = in_file file.now line (codes "Long " ++ decimal bits) in
        OnOk result (E.written err.new ≡ behind (E.written err.old) text) }
    ensures begins { let text = in_file file.now line (codes "Long " ++ decimal bits) in
        OnErr result (Begins text (E.written err.old) (E.written err.new)) }
    ensures fault { OnErr result (Rose (E.faults err.old) (E.faults err.new)) }
{
    put_in_file(
        err,
        file,
        line,
        b"Long ",
        Buffer::new().format(bits).as_bytes(),
    )
}

/// Writes the line of a reference to a type that no file defines.
fn put_unresolved<E: Sink>(err: &mut E, file: &str, line: u32, id: &TypeId) -> Result<(), Failed>
    ensures written { let text = in_file file.now line (codes "Unresolved " ++ type_text id.now) in
        OnOk result (E.written err.new ≡ behind (E.written err.old) text) }
    ensures begins { let text = in_file file.now line (codes "Unresolved " ++ type_text id.now) in
        OnErr result (Begins text (E.written err.old) (E.written err.new)) }
    ensures fault { OnErr result (Rose (E.faults err.old) (E.faults err.new)) }
{
    let mut buffer = Buffer::new();
    let digits = buffer.format(line).as_bytes();
    let mut buffer = Buffer::new();
    let major = buffer.format(id.major).as_bytes();
    let mut buffer = Buffer::new();
    let minor = buffer.format(id.minor).as_bytes();
    let parts = [
        b"cyphal: ".as_slice(),
        file.as_bytes(),
        b":".as_slice(),
        digits,
        b": ".as_slice(),
        b"Unresolved ".as_slice(),
        id.name.as_bytes(),
        b".".as_slice(),
        major,
        b".".as_slice(),
        minor,
        b"\n".as_slice(),
    ];
    put_parts(err, &parts)
}

/// Writes the line of a line of a DSDL file: a word says why, and what stands behind it.
fn put_in_file<E: Sink>(
    err: &mut E,
    file: &str,
    line: u32,
    word: &'static [u8],
    detail: &[u8],
) -> Result<(), Failed>
    ensures written { let text = in_file file.now line (word.now ++ detail.now) in
        OnOk result (E.written err.new ≡ behind (E.written err.old) text) }
    ensures begins { let text = in_file file.now line (word.now ++ detail.now) in
        OnErr result (Begins text (E.written err.old) (E.written err.new)) }
    ensures fault { OnErr result (Rose (E.faults err.old) (E.faults err.new)) }
{
    let mut buffer = Buffer::new();
    let digits = buffer.format(line).as_bytes();
    let parts = [
        b"cyphal: ".as_slice(),
        file.as_bytes(),
        b":".as_slice(),
        digits,
        b": ".as_slice(),
        word,
        detail,
        b"\n".as_slice(),
    ];
    put_parts(err, &parts)
}

/// The word of why a path is no name of a type.
fn name_error_text(error: NameError) -> &'static [u8]
    ensures { result.now ≡ name_error_text error }
{
    match error {
        NameError::BadName => b"BadName",
        NameError::Reserved => b"Reserved",
        NameError::BadVersion => b"BadVersion",
        NameError::BadPort => b"BadPort",
        NameError::TooLong => b"TooLong",
        NameError::NoMemory => b"NoMemory",
    }
}

/// The word of why an expression is worth nothing.
fn expr_why_text(why: ExprWhy) -> &'static [u8]
    ensures { result.now ≡ expr_why_text why }
{
    match why {
        ExprWhy::Kind => b"Kind",
        ExprWhy::Range => b"Range",
        ExprWhy::Zero => b"Zero",
        ExprWhy::Unknown => b"Unknown",
        ExprWhy::Large => b"Large",
    }
}
