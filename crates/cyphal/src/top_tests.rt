//! `top` over an outside in memory, which the program itself never calls: a command of each kind, a
//! refusal of each kind. A call that gives up answers none of them.
use crate::code_of;
use crate::top::top;
use cy_bits::{List, NoMemory};
use cy_outside::{File, MemSink, MemSource, MemTree};
use std::alloc::{AllocError, Global};
use std::test::Fail;

/// What words come to: what is written and said, the number of their status, and how many lines
/// their report has.
struct Row {
    words: &'static [&'static str],
    input: &'static [u8],
    written: &'static [u8],
    said: &'static [u8],
    code: u8,
    lines: usize,
}

/// The files of the tree.
const FILES: &[(&str, &[u8])] = &[
    (
        "hears",
        b"plan 1\nnode 10\nbus can0\nsilent\nsub 100 1 raw 4\n",
    ),
    ("serves", b"plan 1\nnode 42\nbus can0\nsilent\nserve srv\n"),
    ("refused", b"plan 1\nnode 128\n"),
    ("srv/a", b"abc"),
    ("types/demo/A.1.0.dsdl", b"uint8 a\n@sealed\n"),
    ("wrong/demo/A.1.0.dsdl", b"uint0 a\n@sealed\n"),
];

const ROWS: &[Row] = &[
    Row {
        words: &["run", "none", "hears"],
        input: b"(1.000000) can0 10606401#AAE0\n",
        written: b"rx 1.000000 can0 msg 100 1 4 0 1 1 AA raw\n\
            end records 1 delivered 1 badcrc 0 nosession 0 sent 0 held 4 bound 4\n",
        said: b"",
        code: 0,
        lines: 1,
    },
    Row {
        words: &["run", "none", "serves"],
        input: b"(5.000000) can0 1366157B#00000000000161E0\n",
        written: b"rx 5.000000 can0 req 408 123 4 0 1 1 00000000000161 {offset: 0, path: {path: #61}}\n\
            tx 5.000000 can0 12663DAA 00000300616263E0\n\
            end records 1 delivered 1 badcrc 0 nosession 0 sent 1 held 300 bound 3600\n",
        said: b"",
        code: 0,
        lines: 2,
    },
    Row {
        words: &["encode", "types", "demo.A.1.0"],
        input: b"{a: 7}\n",
        written: b"07\n",
        said: b"",
        code: 0,
        lines: 0,
    },
    Row {
        words: &["gen"],
        input: b"",
        written: b"",
        said: b"cyphal: usage\n",
        code: 1,
        lines: 0,
    },
    Row {
        words: &["compile", "wrong"],
        input: b"",
        written: b"",
        said: b"cyphal: demo/A.1.0.dsdl:1: Rule 11\n",
        code: 2,
        lines: 0,
    },
    Row {
        words: &["run", "none", "refused"],
        input: b"",
        written: b"",
        said: b"cyphal: plan line 2: Range\n",
        code: 3,
        lines: 0,
    },
    Row {
        words: &["run", "none", "hears"],
        input: b"bad\n",
        written: b"",
        said: b"cyphal: log line 1: BadLine\n",
        code: 4,
        lines: 0,
    },
    Row {
        words: &["compile", "nowhere"],
        input: b"",
        written: b"",
        said: b"cyphal: not found: nowhere\n",
        code: 12,
        lines: 0,
    },
];

#[test]
fn words_come_to_what_they_ask_for(rt: HostRuntime) -> Result<(), Fail> {
    for row in ROWS {
        assert!(rt; comes_of(rt.alloc(), row)?);
    }
    Ok(())
}

/// Whether a row's words come to what it says.
fn comes_of(alloc: Global, row: &Row) -> Result<bool, Fail> {
    let words = words_of(alloc, row.words)?;
    let mut tree = MemTree::new(files(alloc)?, &[]).ok_or("apart")?;
    let mut input = MemSource::new(row.input, &[]);
    let mut out = MemSink::new(alloc, &[]);
    let mut err = MemSink::new(alloc, &[]);
    let done = top(
        alloc,
        words.as_slice(),
        &mut tree,
        &mut input,
        &mut out,
        &mut err,
    );
    Ok(
        out.written.as_slice() == row.written
            && err.written.as_slice() == row.said
            && code_of(&done.status) == row.code
            && done.report.lines.len() == row.lines,
    )
}

/// The words of a command.
fn words_of(alloc: Global, words: &[&str]) -> Result<Vec<String>, AllocError> {
    let mut all = Vec::new(alloc);
    for word in words {
        all.push(String::from_str(alloc, word)?)?;
    }
    Ok(all)
}

/// The files of the tree.
fn files(alloc: Global) -> Result<List<File>, NoMemory> {
    let mut all = List::empty(alloc);
    for &(path, bytes) in FILES {
        all.push(File::new(alloc, path, bytes)?)?;
    }
    Ok(all)
}
