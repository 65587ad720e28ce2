//! A number for each flow, so that flows come in the order of their numbers.
ghost use Rattle.std.specs.Prelude.{◌≡◌, ◌<◌};
ghost use Rattle.bus_survey.specs.Flows.{kind_number};
ghost use Rattle.bus_survey.specs.Ranks.{rank, receiver_number, sender_number, IsRanked, IsSender};

use crate::flow::{Flow, FlowKind, Sender};

/// The number of a flow. One comparison of two of them is cheaper than one of their parts.
#[inline(always)]
pub fn rank(flow: Flow) -> u64
    ensures value { result ≡ rank flow }
    ensures ranked { IsRanked flow }
{
    let port = kind_number(flow.kind) * 0x1_0000 + u64::from(flow.port);
    let sender = port * 0x200 + sender_number(flow.sender);
    let receiver = sender * 0x200 + receiver_number(flow.destination);
    receiver * 0x100 + u64::from(flow.bus)
}

/// The place of a kind among the three.
#[inline(always)]
fn kind_number(kind: FlowKind) -> u64
    ensures value { result ≡ kind_number kind }
    ensures small { result < 3 }
{
    match kind {
        FlowKind::Message => 0,
        FlowKind::Request => 1,
        FlowKind::Response => 2,
    }
}

/// The place of a sender: those that have no node-ID come last.
#[inline(always)]
fn sender_number(sender: Sender) -> u64
    ensures value { result ≡ sender_number sender }
    ensures small { result < 512 }
    ensures node { IsSender sender }
{
    match sender {
        Sender::Node(node) => u64::from(node),
        Sender::Anonymous => 256,
    }
}

/// The place of a receiver: none comes first.
#[inline(always)]
fn receiver_number(receiver: Option<u8>) -> u64
    ensures value { result ≡ receiver_number receiver }
    ensures small { result < 512 }
{
    match receiver {
        Some(node) => u64::from(node) + 1,
        None => 0,
    }
}
