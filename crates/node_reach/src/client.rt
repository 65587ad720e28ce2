use crate::fetch_lines::put_ask;
use crate::lines::{Outgoing, put_transfer};
use crate::request::{MOST, write_request};
use can_id::{Ident, make};
use cy_bits::{Bytes, NoMemory};
use line_text::TextBuffer;
use std::alloc::Global;
use std_types::ports;

/// A client of a file server, and the file that it reads.
#[derive(Drop)]
pub struct Client {
    /// Its node-ID, 0 to 127.
    pub own: u8,
    /// The node-ID of the server, 0 to 127, another one.
    pub server: u8,
    /// The path of the file on the server, of at most 255 bytes.
    pub path: Bytes,
}

impl Client {
    ghost use Rattle.std.specs.Prelude.{◌≡◌, ◌<◌, ◌++◌, OnOk};
    ghost use Rattle.line_text.specs.Buffer.{text_of};
    ghost use Rattle.node_reach.specs.Clients.{IsClient};
    ghost use Rattle.node_reach.specs.Fetched.{request_text};

    /// Gathers the line of a request for the bytes from an offset on, and the lines of its frames.
    pub(crate) fn put_request(
        &self,
        alloc: Global,
        moment: u64,
        tid: u8,
        offset: u64,
        gathered: &mut TextBuffer,
    ) -> Result<(), NoMemory>
        requires client { IsClient self.now }
        requires tid { tid < 32 }
        ensures { OnOk result (text_of gathered.new
            ≡ text_of gathered.old ++ request_text self.now moment tid offset) }
    {
        let mut payload = [0; MOST];
        let size = write_request(alloc, offset, self.path.as_slice(), &mut payload)?;
        put_ask(gathered, moment, tid, offset)?;
        let ident = make(Ident::Service {
            priority: 4,
            request: true,
            service: ports::FILE_READ,
            destination: self.server,
            source: self.own,
        });
        put_transfer(
            gathered,
            Outgoing {
                moment,
                ident,
                tid,
                payload: &payload[..size],
            },
        )
    }
}
