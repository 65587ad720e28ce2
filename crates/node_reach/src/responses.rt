//! The responses of a file server that a node hears.
ghost use Rattle.std.specs.Prelude.{◌≤◌, length};

use crate::ear::{Ear, TIMEOUT};
use crate::transfer::Transfer;
use can_id::Kind;
use cy_bits::NoMemory;
use file_client::FetchEvent;
use std::alloc::Global;
use std_types::file::ReadReply;
use std_types::{Standard, StdName, ports, std_type};
use tail_frame::Record;
use wire_values::payload_value;

/// A response to a request to read.
#[derive(Drop)]
pub struct Response {
    /// Its transfer-ID, 0 to 31.
    pub tid: u8,
    /// What it says.
    pub reply: ReadReply,
    ghost short: { length reply.data ≤ 256 },
}

/// A node that hears the responses of file servers.
#[derive(Drop)]
pub struct Responses {
    alloc: Global,
    /// The node.
    pub ear: Ear,
}

impl Response {
    ghost use Rattle.std.specs.Prelude.{◌≡◌};
    ghost use Rattle.file_client.specs.Stands.{event_of, IsShort};
    ghost use Rattle.node_reach.specs.Fetches.{event_in};

    /// What it is to the client.
    pub(crate) fn event(&self) -> FetchEvent<'_>
        ensures event { event_of result ≡ event_in self.now }
        ensures short { IsShort (event_of result) }
    {
        FetchEvent::Reply {
            tid: self.tid,
            code: self.reply.error.value,
            bytes: self.reply.data.as_slice(),
        }
    }
}

impl Responses {
    ghost use Rattle.std.specs.Prelude.{◌≡◌, [], IfOk, OnOk, option_map};
    ghost use Rattle.node_reach.specs.Ears.{Hears, Takes};
    ghost use Rattle.node_reach.specs.Fetched.{file_ears, reply_of};
    ghost use Rattle.node_reach.specs.Fetches.{event_in, TellsReply};

    /// A node with this node-ID, at most 127, that heard nothing yet.
    pub(crate) fn new(alloc: Global, own: u8) -> Result<Responses, NoMemory>
        requires { own ≤ 127 }
        ensures hears { IfOk result (λ it. Hears (file_ears own) it.ear []) }
        ensures latest { IfOk result (λ it. it.ear.latest ≡ 0) }
    {
        let mut ear = Ear::new(alloc, own, TIMEOUT)?;
        ear.subscribe(alloc, Kind::Response, ports::FILE_READ, StdName::ReadReply)?;
        Ok(Responses { alloc, ear })
    }

    /// Takes the next record of a log, at a moment not before the last one, and answers the response
    /// of a server that ends at it, if one does and it can be read.
    pub(crate) fn hear(&mut self, rec: &Record, server: u8) -> Result<Option<Response>, NoMemory>
        requires { self.old.ear.latest ≤ rec.now.moment }
        ensures latest { self.new.ear.latest ≤ rec.now.moment }
        ensures hears { OnOk result (Takes rec.now self.old.ear self.new.ear) }
        ensures reply { IfOk result (TellsReply self.old.ear server rec.now) }
    {
        let heard = self.ear.hear(rec)?;
        let Some(transfer) = self.ear.transfer(heard) else {
            return Ok(None);
        };
        if transfer.source == server {
            self.read(transfer)
        } else {
            Ok(None)
        }
    }

    /// The response that a transfer is, if it can be read.
    fn read(&self, transfer: Transfer<'_>) -> Result<Option<Response>, NoMemory>
        ensures { let t = transfer.entry in IfOk result (λ response.
            option_map event_in response ≡ reply_of t.tid t.payload.now) }
    {
        let standard = std_type(self.alloc, StdName::ReadReply)?;
        let Some(value) = payload_value(self.alloc, &standard.schema, transfer.payload)? else {
            return Ok(None);
        };
        let reply = ReadReply::of_value(self.alloc, &value)?;
        Ok(Some(Response {
            tid: transfer.tid,
            reply,
        }))
    }
}
