ghost use Rattle.std.specs.Prelude.{◌≡◌, ◌≤◌, IfOk, length, take};
ghost use Rattle.node_reach.specs.Allocated.{answer_payload};

use cy_bits::{List, NoMemory};
use dsdl_types::laws::readings_stored;
use std::alloc::Global;
use std_types::allocation::{NodeId, NodeIdAllocation};
use std_types::{Standard, StdName, std_type};
use wire_values::laws::extent_has_room;
use wire_values::write_fitting;

/// The most bytes that the message of an answer has.
pub(crate) const MOST: usize = 48;

/// Writes the payload of the message by which a unique id is given a node-ID, and answers its length.
pub(crate) fn write_answer(
    alloc: Global,
    uid: u64,
    node: u8,
    out: &mut [u8; MOST],
) -> Result<usize, NoMemory>
    ensures size { IfOk result (λ size. size ≤ 48) }
    ensures payload { IfOk result (λ size. take size out.new ≡ answer_payload uid node) }
{
    extent_has_room();
    readings_stored();
    let standard = std_type(alloc, StdName::NodeIdAllocation)?;
    let id = NodeId {
        value: u16::from(node),
    };
    let message = NodeIdAllocation {
        unique_id_hash: uid,
        allocated_node_id: List::new(vec![in alloc; id]?),
    };
    let value = message.to_value(alloc)?;
    Ok(write_fitting(&standard.schema, &value, out))
}
