//! A file of another node, over a log.
ghost use Rattle.std.specs.Prelude.{◌≡◌, ◌≢◌, ◌≤◌, length};
ghost use Rattle.cy_outside.specs.Outside.{Rose};
ghost use Rattle.tail_frame.specs.declared.logged.Record.{Record};
ghost use Rattle.log_loop.specs.Gone.{any_stages};
ghost use Rattle.log_loop.specs.Listened.{HasListened};
ghost use Rattle.node_reach.specs.Buses.{bus_names};
ghost use Rattle.node_reach.specs.Fetched.{client_of, fetch_voice};
ghost use Rattle.node_reach.specs.FetchedFile.{WritesFile};

use crate::buses::bus_names;
use crate::client::Client;
use crate::fetching::Fetching;
use cy_bits::Bytes;
use cy_outside::{Sink, Source};
use file_client::fetch_laws;
use log_loop::{Ended, listen};
use std::alloc::Global;

/// Fetches a file of at most 2^20 bytes of the node `server` for the node `own`, by the service
/// `uavcan.file.Read` over a log of the buses `can0`, `can1` and `can2`.
///
/// The first request is made at the first record. At each whole second behind it the request that
/// is out is late: it is made anew, but for the eighth time at one offset, which ends the fetch. A
/// response with 256 bytes is followed by the next request; fewer bytes end the fetch, and so do an
/// error of the server and bytes above the limit. Each request is written with its frames, and at
/// the log's end the file, why there is none, or that a request is still out.
///
/// The node-IDs are at most 127 and differ; the path has at most 255 bytes.
pub fn fetch<L: Source, O: Sink>(
    alloc: Global,
    own: u8,
    server: u8,
    path: &[u8],
    input: &mut L,
    out: &mut O,
) -> Ended
    requires own { own ≤ 127 }
    requires server { server ≤ 127 }
    requires other { server ≢ own }
    requires path { length path.now ≤ 255 }
    ensures listened { let voice = fetch_voice (client_of own server path.now) in
        HasListened bus_names voice (any_stages Record)
        (L.left input.old) (L.left input.new) result (O.written out.old) (O.written out.new) }
    ensures fetched { WritesFile (client_of own server path.now)
        (L.left input.old) result (O.written out.old) (O.written out.new) }
    ensures read { result ≡ Ended.ReadFault → Rose (L.faults input.old) (L.faults input.new) }
    ensures write { result ≡ Ended.WriteFault → Rose (O.faults out.old) (O.faults out.new) }
    ensures unread { result ≢ Ended.ReadFault → L.faults input.new ≡ L.faults input.old }
    ensures unwritten { result ≢ Ended.WriteFault → O.faults out.new ≡ O.faults out.old }
{
    fetch_laws();
    let Ok(path) = Bytes::from_slice(alloc, path) else {
        return Ended::NoMemory;
    };
    let client = Client { own, server, path };
    let Ok(mut fetching) = Fetching::new(alloc, client) else {
        return Ended::NoMemory;
    };
    listen(alloc, &mut fetching, bus_names(), input, out)
}
