ghost use Rattle.std.specs.Prelude.{◌≡◌, ◌<◌, IfSome, option_map};
ghost use Rattle.rx_table.specs.Admitted.{key_of};
ghost use Rattle.rx_table.specs.Table.{fed_answer};
ghost use Rattle.node_reach.specs.Told.{owned, of_answer};

use can_id::Kind;
use rx_session::Outcome;
use rx_table::Fed;

/// A transfer that a node received from a source.
#[derive(Clone, Copy, Debug)]
pub struct Transfer<'a> {
    /// What it is for.
    pub kind: Kind,
    /// The subject-ID or the service-ID.
    pub port: u16,
    /// The sender's node-ID, 0 to 127.
    pub source: u8,
    /// The transfer-ID, 0 to 31.
    pub tid: u8,
    /// The moment of its first frame, in microseconds.
    pub moment: u64,
    /// Its payload, cut to the extent of the port's type.
    pub payload: &'a [u8],
}

/// The transfer that a table tells of a frame of a source, if it tells one.
pub(crate) fn transfer_of(kind: Kind, port: u16, source: u8, fed: Fed<'_>) -> Option<Transfer<'_>>
    requires { source < 128 }
    ensures told { option_map owned result
        ≡ of_answer (key_of kind port source) (fed_answer fed.entry) }
    ensures source { IfSome result (λ transfer. transfer.source < 128) }
{
    match fed {
        Fed::Session(Outcome::Delivered(delivery)) => Some(Transfer {
            kind,
            port,
            source,
            tid: delivery.tid,
            moment: delivery.moment,
            payload: delivery.payload,
        }),
        Fed::Session(Outcome::BadCrc) => None,
        Fed::Session(Outcome::Ignored) => None,
        Fed::Session(Outcome::Held) => None,
        Fed::Anonymous(_delivery) => None,
        Fed::NoPort => None,
        Fed::NoSession => None,
    }
}
