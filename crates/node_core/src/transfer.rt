//! The transfers that a node sends.
ghost use Rattle.std.specs.Prelude.{◌≡◌, ◌<◌};
ghost use Rattle.can_id.specs.Identifiers.{bits};
ghost use Rattle.can_id.specs.declared.ident.Ident.TheVariants.{Message};
ghost use Rattle.std_types.specs.Ports.{heartbeat_subject};

use can_id::{Ident, make};
use std_types::ports;

/// A transfer that a node sends on every bus.
#[derive(Clone, Copy)]
pub struct Transfer<'a> {
    /// The identifier of its frames, of 29 bits.
    pub ident: u32,
    /// The transfer-ID, 0 to 31.
    pub tid: u8,
    /// The subject-ID or the service-ID.
    pub port: u16,
    /// The payload.
    pub payload: &'a [u8],
}

/// The identifier of a node's heartbeats.
pub fn beat_ident(node: u8) -> u32
    requires { node < 128 }
    ensures { result ≡ bits (Message 4 heartbeat_subject node) }
{
    make(Ident::Message {
        priority: 4,
        subject: ports::HEARTBEAT,
        source: node,
    })
}
