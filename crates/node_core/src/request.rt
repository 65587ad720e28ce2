ghost use Rattle.std.specs.Prelude.{◌≡◌, ◌<◌, IfOk, OnErr, false};
ghost use Rattle.can_id.specs.Identifiers.{bits};
ghost use Rattle.can_id.specs.declared.ident.Ident.TheVariants.{Service};
ghost use Rattle.node_core.specs.Sending.{IsReadRequest, IsRequestTo, request_with};

use crate::question::Question;
use can_id::{Ident, make};
use cy_bits::NoMemory;
use std::alloc::Global;

/// A request to the node, which a frame ended.
#[derive(Drop)]
pub struct Request {
    /// The service-ID, below 512.
    pub service: u16,
    /// The node-ID of the one who asks, below 128.
    pub client: u8,
    /// The priority of its last frame, 0 (exceptional) to 7 (optional).
    pub priority: u8,
    /// Its transfer-ID, 0 to 31.
    pub tid: u8,
    /// What it asks.
    pub question: Question,
}

impl Request {
    /// The request that a frame with this transfer-ID and this identifier ended, where this is the
    /// transfer's payload; `None` where the node doesn't answer it. Memory may be wanting only for
    /// a request that is answered by what the payload says.
    #[inline(always)]
    pub(crate) fn with(
        alloc: Global,
        tid: u8,
        ident: Ident,
        payload: &[u8],
    ) -> Result<Option<Request>, NoMemory>
        ensures request { IfOk result (λ request.
            request ≡ request_with tid ident payload.now) }
        ensures memory { OnErr result (IsReadRequest ident) }
    {
        let Ident::Service {
            priority,
            request: true,
            service,
            source,
            ..
        } = ident
        else {
            return Ok(None);
        };
        match Question::of(alloc, service, payload)? {
            Some(question) => Ok(Some(Request {
                service,
                client: source,
                priority,
                tid,
                question,
            })),
            None => Ok(None),
        }
    }

    /// The identifier of a node's reply: the one who asks is its receiver.
    pub(crate) fn reply_ident(&self, node: u8) -> u32
        requires node { node < 128 }
        requires request { IsRequestTo node self.now }
        ensures { let r = self.now in
            result ≡ bits (Service r.priority false r.service r.client node) }
    {
        make(Ident::Service {
            priority: self.priority,
            request: false,
            service: self.service,
            destination: self.client,
            source: node,
        })
    }
}
