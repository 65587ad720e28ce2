//! Compiles the types of a rover, which lie beside it, and writes their layouts.
#![tactic(auto)]

use cy_outside::{RealSink, RealTree};
use node_run::{Status, compile, load};
use std::process::ExitCode;

fn main(rt: HostRuntime) -> ExitCode {
    let alloc = rt.alloc();
    let mut tree = RealTree::new(&rt);
    let mut out = RealSink::new(rt.stdout());
    let status = match load(alloc, &mut tree, "types") {
        Ok(names) => compile(alloc, &names, &mut out),
        Err(status) => status,
    };
    match status {
        Status::Ok => ExitCode::SUCCESS,
        _ => ExitCode::FAILURE,
    }
}
