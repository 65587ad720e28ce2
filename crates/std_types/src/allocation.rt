//! The standard types by which nodes get node-IDs.
ghost use Rattle.std.specs.Prelude.{◌≡◌, IfOk};
ghost use Rattle.dsdl_types.specs.Views.{val};
ghost use Rattle.std_types.specs.Allocation.{node_ids_of, node_ids_value};

use crate::Standard;
use crate::held::{alone, items, number, number_value, part, structure};
use cy_bits::{List, NoMemory};
use dsdl_types::Value;
use std::alloc::Global;

/// `uavcan.node.ID.1.0` (Cyphal Specification, section 5.3).
#[derive(Clone, Copy)]
pub struct NodeId {
    /// The node-ID, 0 to 65535; on Cyphal/CAN at most 127.
    pub value: u16,
}

/// `uavcan.pnp.NodeIDAllocationData.1.0`, with the port 8166 (Cyphal Specification,
/// section 5.3.12): a node asks for a node-ID, or is given one.
#[derive(Drop)]
pub struct NodeIdAllocation {
    /// The number that tells the node from all others, written in its low 48 bits.
    pub unique_id_hash: u64,
    /// The node-ID that it is given: at most 1.
    pub allocated_node_id: List<NodeId>,
}

impl Standard for NodeId {
    ghost use Rattle.std_types.specs.Allocation.{node_id_value, node_id_of, FitsNodeId};
    ghost use Rattle.std_types.specs.AllocationLaws.{node_id_back, node_id_forth};
    ghost use Rattle.std_types.specs.Schemas.{node_id};

    ghost schema = { node_id };

    ghost fits = { FitsNodeId };

    ghost value = { node_id_value };

    ghost made_of = { node_id_of };

    ghost back = { node_id_back };

    ghost forth = { node_id_forth };

    fn to_value(&self, alloc: Global) -> Result<Value, NoMemory> {
        alone(alloc, number_value(self.value))
    }

    fn of_value(_alloc: Global, from: &Value) -> Result<NodeId, NoMemory> {
        Ok(NodeId {
            value: number(part(from, 0)),
        })
    }
}

impl Standard for NodeIdAllocation {
    ghost use Rattle.std_types.specs.Allocation.{node_id_allocation_value, node_id_allocation_of, FitsNodeIdAllocation};
    ghost use Rattle.std_types.specs.AllocationLaws.{node_id_allocation_back, node_id_allocation_forth};
    ghost use Rattle.std_types.specs.Schemas.{node_id_allocation};

    ghost schema = { node_id_allocation };

    ghost fits = { FitsNodeIdAllocation };

    ghost value = { node_id_allocation_value };

    ghost made_of = { node_id_allocation_of };

    ghost back = { node_id_allocation_back };

    ghost forth = { node_id_allocation_forth };

    fn to_value(&self, alloc: Global) -> Result<Value, NoMemory> {
        let allocated_node_id = node_ids_value(alloc, self.allocated_node_id.as_slice())?;
        Ok(structure(vec![in alloc; number_value(self.unique_id_hash), allocated_node_id]?))
    }

    fn of_value(alloc: Global, from: &Value) -> Result<NodeIdAllocation, NoMemory> {
        Ok(NodeIdAllocation {
            unique_id_hash: number(part(from, 0)),
            allocated_node_id: node_ids(alloc, part(from, 1))?,
        })
    }
}

/// The value of an array of node-IDs.
#[tactic(auto, using(crate::proofs::Rows::written_next, crate::proofs::Rows::written_all))]
fn node_ids_value(alloc: Global, ids: &[NodeId]) -> Result<Value, NoMemory>
    ensures { IfOk result (λ v. val v ≡ node_ids_value ids.now) }
{
    let mut items = Vec::new(alloc);
    for id in ids {
        items.push(id.to_value(alloc)?)?;
    }
    Ok(Value::Items(List::new(items)))
}

/// The node-IDs of an array's value.
#[tactic(auto, using(crate::proofs::Rows::taken_next, crate::proofs::Rows::taken_all))]
fn node_ids(alloc: Global, value: &Value) -> Result<List<NodeId>, NoMemory>
    ensures { IfOk result (λ ids. ids ≡ node_ids_of (val value.now)) }
{
    let mut ids = Vec::new(alloc);
    for item in items(value) {
        ids.push(NodeId::of_value(alloc, item)?)?;
    }
    Ok(List::new(ids))
}
