ghost use Rattle.std.specs.Prelude.{◌≡◌};
ghost use Rattle.tail_frame.specs.Frames.{seen};
ghost use Rattle.bus_survey.specs.Flows.{flow_of, kind_of, sender_of};

use can_id::Kind;
use tail_frame::Frame;

/// What the frames of a flow are for, in the order of the lines.
#[derive(Clone, Copy, PartialEq, Eq, PartialOrd, Ord)]
pub enum FlowKind {
    /// Published on a subject.
    Message,
    /// Asked of a server.
    Request,
    /// Answered to a client.
    Response,
}

/// Who sends a flow. Those that have no node-ID come last.
#[derive(Clone, Copy, PartialEq, Eq, PartialOrd, Ord)]
pub enum Sender {
    /// The node with this node-ID, 0 to 127.
    Node(u8),
    /// Nodes that have none.
    Anonymous,
}

/// The frames of a port, a sender, a receiver and a bus, and their place among the lines.
#[derive(Clone, Copy, PartialEq, Eq, PartialOrd, Ord)]
pub struct Flow {
    /// What the frames are for.
    pub kind: FlowKind,
    /// The subject-ID, 0 to 8191, or the service-ID, 0 to 511.
    pub port: u16,
    /// Who sends them.
    pub sender: Sender,
    /// The node-ID of the receiver, 0 to 127. Messages have none.
    pub destination: Option<u8>,
    /// The bus: its place among the buses of the log, counted from 0.
    pub bus: u8,
}

/// The flow of a frame.
pub fn flow_of(frame: &Frame<'_>) -> Flow
    ensures { result ≡ flow_of (seen frame.now) }
{
    let key = frame.ident.key();
    Flow {
        kind: kind_of(key.kind),
        port: key.port,
        sender: sender_of(key.source),
        destination: frame.ident.destination(),
        bus: frame.bus,
    }
}

/// What frames of this kind are for.
fn kind_of(kind: Kind) -> FlowKind
    ensures { result ≡ kind_of kind }
{
    match kind {
        Kind::Message => FlowKind::Message,
        Kind::Request => FlowKind::Request,
        Kind::Response => FlowKind::Response,
    }
}

/// Who sends frames with this source.
fn sender_of(source: Option<u8>) -> Sender
    ensures { result ≡ sender_of source }
{
    match source {
        Some(node) => Sender::Node(node),
        None => Sender::Anonymous,
    }
}
