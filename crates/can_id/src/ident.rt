ghost use Rattle.std.specs.Prelude.{◌≡◌};
ghost use Rattle.can_id.specs.Identifiers.{key_of, priority_of, destination_of};

use crate::key::{Key, Kind};

/// What an identifier says of its frame (Cyphal Specification, section 4.2).
///
/// A priority is 0 (exceptional) to 7 (optional), a node-ID 0 to 127.
#[derive(Clone, Copy, Debug, PartialEq, Eq)]
pub enum Ident {
    /// A message of a node.
    Message {
        /// 0 to 7.
        priority: u8,
        /// The subject-ID, 0 to 8191.
        subject: u16,
        /// The sender's node-ID.
        source: u8,
    },
    /// A message of a node that has no node-ID.
    Anonymous {
        /// 0 to 7.
        priority: u8,
        /// The subject-ID, 0 to 8191.
        subject: u16,
        /// A number, 0 to 127, by which the sender avoids collisions. It names nobody.
        pseudo: u8,
    },
    /// A request to a server or a response to a client.
    Service {
        /// 0 to 7.
        priority: u8,
        /// Whether it is a request.
        request: bool,
        /// The service-ID, 0 to 511.
        service: u16,
        /// The receiver's node-ID.
        destination: u8,
        /// The sender's node-ID, unlike the receiver's.
        source: u8,
    },
}

impl Ident {
    /// The key of the session that the frame belongs to.
    #[inline(always)]
    pub fn key(self) -> Key
        ensures { result ≡ key_of self }
    {
        match self {
            Ident::Message {
                subject,
                source,
                ..
            } => Key {
                kind: Kind::Message,
                port: subject,
                source: Some(source),
            },
            Ident::Anonymous { subject, .. } => Key {
                kind: Kind::Message,
                port: subject,
                source: None,
            },
            Ident::Service {
                request,
                service,
                source,
                ..
            } => Key {
                kind: if request {
                    Kind::Request
                } else {
                    Kind::Response
                },
                port: service,
                source: Some(source),
            },
        }
    }

    /// The priority (Cyphal Specification, section 4.1.1): 0 (exceptional) to 7 (optional).
    #[inline(always)]
    pub fn priority(self) -> u8
        ensures { result ≡ priority_of self }
    {
        match self {
            Ident::Message { priority, .. } => priority,
            Ident::Anonymous { priority, .. } => priority,
            Ident::Service { priority, .. } => priority,
        }
    }

    /// The receiver's node-ID. A message has none.
    #[inline(always)]
    pub fn destination(self) -> Option<u8>
        ensures { result ≡ destination_of self }
    {
        match self {
            Ident::Service { destination, .. } => Some(destination),
            _ => None,
        }
    }
}
