//! Runs over an outside in memory.
ghost use Rattle.dsdl_types.specs.Definitions.{IsNamespace};

use crate::narrow::{NarrowSink, NarrowSource};
use cy_bits::{Bytes, List, NoMemory};
use cy_outside::{File, MemTree};
use dsdl_types::Namespace;
use node_plan::read_plan;
use node_run::{Report, Status, run_log};
use std::alloc::Global;
use std::test::Fail;

/// A plan, the files of the tree by their paths, the log, and the numbers of the calls that are to
/// fail, of the tree, the input and the output, each counted from 0.
#[derive(Clone, Copy)]
pub struct Run<'a> {
    pub plan: &'static str,
    pub files: &'static [(&'static str, &'static [u8])],
    pub log: &'a [u8],
    pub tree: &'a [u64],
    pub input: &'a [u64],
    pub out: &'a [u64],
}

/// A plan of node 42 that serves a folder with a file of three bytes, over a log without a line.
pub const SERVES: Run<'static> = Run {
    plan: "plan 1\nnode 42\nbus can0\nsilent\nserve srv\n",
    files: &[("srv/a", b"abc")],
    log: b"",
    tree: &[],
    input: &[],
    out: &[],
};

/// A plan of node 10 that tells its heartbeat and hears subject 100 of two sources, over a log with
/// two transfers, each of two frames.
pub const HEARS: Run<'static> = Run {
    plan: "plan 1\nnode 10\nbus can0\nbus can1\nsub 100 2 raw 300\n",
    files: &[],
    log: b"(0.000002) can0 10606401#050068656C6C6FA1\n\
        (0.000003) can0 10606401#4B0B41\n\
        (1.500000) can1 10606402#050068656C6C6FA1\n\
        (1.500001) can1 10606402#4B0B41\n",
    ..SERVES
};

/// What came of a run.
#[derive(Drop)]
pub struct Done {
    pub status: Status,
    pub report: Report,
    pub written: Bytes,
    /// How many calls of the tree there were.
    pub asked: u64,
    /// How many calls failed.
    pub faults: u64,
}

/// Runs the plan's node over the log, of which the input gives a few bytes at a time, and of whose
/// text the output takes a few bytes at a time.
pub fn come_of(alloc: Global, run: &Run<'_>) -> Result<Done, Fail> {
    let plan = read_plan(alloc, run.plan.as_bytes(), &no_types(alloc))?;
    let mut tree = MemTree::new(files_of(alloc, run.files)?, run.tree).ok_or("apart")?;
    let mut input = NarrowSource::new(run.log, run.input);
    let mut out = NarrowSink::new(alloc, run.out);
    let mut report = Report::empty(alloc);
    let status = run_log(alloc, plan, &mut tree, &mut input, &mut out, &mut report);
    Ok(Done {
        status,
        report,
        written: out.written,
        asked: tree.calls.next,
        faults: tree.calls.faults | input.calls.faults | out.calls.faults,
    })
}

/// The namespace without types.
fn no_types(alloc: Global) -> Namespace
    ensures { IsNamespace result }
{
    Namespace {
        definitions: List::empty(alloc),
        prints: List::empty(alloc),
    }
}

/// The files of a tree.
fn files_of(alloc: Global, files: &[(&str, &[u8])]) -> Result<List<File>, NoMemory> {
    let mut all = List::empty(alloc);
    for (path, bytes) in files {
        all.push(File::new(alloc, path, bytes)?)?;
    }
    Ok(all)
}
