//! `fetch NODE SERVER PATH`: a file of another node, over the log of the input.
ghost use Rattle.std.specs.Prelude.{◌≡◌, ℕ, true, false};
ghost use Rattle.node_reach.specs.Buses.{bus_names};
ghost use Rattle.node_reach.specs.Fetched.{client_of};
ghost use Rattle.node_run.specs.ValueLines.{flow};
ghost use Rattle.cyphal.specs.Cause.{outside, HasCauseOver};
ghost use Rattle.cyphal.specs.Job.{is_fault};
ghost use Rattle.cyphal.specs.LogEnds.{EndsAsLog};
ghost use Rattle.cyphal.specs.jobs.Fetch.{HasFetched};

use crate::remote_file::RemoteFile;
use cy_outside::{Sink, Source};
use node_reach::fetch;
use node_run::{Status, status_of};
use std::alloc::Global;

/// Hears the log of the input as the node that fetches a file, and writes what it asks of the other
/// node, and behind the log the file or what became of it. It is given no tree, so each count of a
/// tree's faults stays.
pub fn fetch_file<L: Source, O: Sink>(
    alloc: Global,
    file: RemoteFile<'_>,
    input: &mut L,
    out: &mut O,
) -> Status
    ensures answer { is_fault result ≡ false → EndsAsLog bus_names (L.left input.old) result }
    ensures usage { ¬ (result ≡ Status.Usage) }
    ensures cause { (tree : ℕ)
        → (let old = outside tree (L.faults input.old) (O.faults out.old) input.old in
        let new = outside tree (L.faults input.new) (O.faults out.new) input.new in
        HasCauseOver true false result old new) }
    ensures ran { let asked = file.entry in
        let told = flow (L.left input.old) (L.left input.new)
        (O.written out.old) (O.written out.new) in
        HasFetched (client_of asked.own.number asked.server.number asked.path.now) result told }
{
    let path = file.path.as_bytes();
    status_of(fetch(alloc, file.own.number, file.server.number, path, input, out))
}
