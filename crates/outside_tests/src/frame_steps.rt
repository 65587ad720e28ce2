//! A frame that a node takes at once, with the lines on it.
ghost use Rattle.dsdl_types.specs.Definitions.{IsNamespace};

use cy_bits::{List, NoMemory};
use cy_outside::MemTree;
use dsdl_types::Namespace;
use node_core::Node;
use node_plan::read_plan;
use std::alloc::Global;
use std::process::Abort;
use tail_frame::{FrameData, Record};

/// The namespace without types.
fn no_types(alloc: Global) -> Namespace
    ensures { IsNamespace result }
{
    Namespace {
        definitions: List::empty(alloc),
        prints: List::empty(alloc),
    }
}

/// A tree without files.
fn no_files(rt: &impl Abort, alloc: Global) -> MemTree<'static> {
    let Some(tree) = MemTree::new(List::empty(alloc), &[]) else {
        panic!(rt; "no tree");
    };
    tree
}

/// The record of a frame of the first bus at five seconds.
fn record(rt: &impl Abort, ident: u32, data: &[u8]) -> Record {
    let mut bytes = FrameData::new();
    for byte in data.iter().take(64) {
        assert!(rt; bytes.as_slice().len() < 64);
        bytes.push(*byte);
    }
    Record {
        line: 1,
        moment: 5_000_000,
        bus: 0,
        ident,
        bytes,
    }
}

/// The number of lines on a frame of the node of a plan, which is no bad transfer, and asks no tree.
fn lines_on(
    rt: &impl Abort,
    alloc: Global,
    plan: &str,
    (ident, data): (u32, &[u8]),
) -> Result<usize, NoMemory> {
    let Ok(plan) = read_plan(alloc, plan.as_bytes(), &no_types(alloc)) else {
        panic!(rt; "no plan");
    };
    let mut node = Node::open(alloc, plan)?;
    let mut lines = List::empty(alloc);
    let rec = record(rt, ident, data);
    assert!(rt; node.latest <= rec.moment);
    let stepped = node.frame(&rec, &mut no_files(rt, alloc), &mut lines)?;
    assert!(rt; !stepped.badcrc && !stepped.failed && node.waiting() == 0);
    Ok(lines.len())
}

/// A message, and a request whose reply finds no room.
#[test]
fn frames_give_their_lines(rt: HostRuntime) -> Result<(), NoMemory> {
    let hears = "plan 1\nnode 10\nbus can0\nsilent\nsub 7509 2 raw 7\n";
    let message: (u32, &[u8]) = (0x107D_552A, &[1, 0, 0, 0, 0, 0, 0, 0xE0]);
    assert_eq!(rt; lines_on(&rt, rt.alloc(), hears, message)?, 1);
    let answers = "plan 1\nnode 42\nbus can0\nqueue 4\n";
    let request: (u32, &[u8]) = (0x136B_957B, &[0xE1]);
    assert_eq!(rt; lines_on(&rt, rt.alloc(), answers, request)?, 2);
    Ok(())
}
