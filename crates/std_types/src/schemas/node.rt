//! The schemas of the standard types: a node (Cyphal Specification, chapter 5).
ghost use Rattle.std.specs.Prelude.{◌≡◌, IfOk};
ghost use Rattle.dsdl_types.specs.Views.{Typed, kind_of};
ghost use Rattle.std_types.specs.Schemas.{health, heartbeat, mode, node_id, node_id_allocation, node_info, node_info_request, synchronization, synchronized_timestamp, version};

use super::words::{Fields, array, bytes, fixed, single, truncated, uint};
use cy_bits::NoMemory;
use dsdl_types::Schema;
use std::alloc::Global;

/// `uavcan.node.Health.1.0`.
pub fn health(alloc: Global) -> Result<Schema, NoMemory>
    ensures { IfOk result (λ s. kind_of s ≡ Typed health) }
{
    single(alloc, "value", uint(2), 8)
}

/// `uavcan.node.Mode.1.0`.
pub fn mode(alloc: Global) -> Result<Schema, NoMemory>
    ensures { IfOk result (λ s. kind_of s ≡ Typed mode) }
{
    single(alloc, "value", uint(3), 8)
}

/// `uavcan.node.Version.1.0`.
pub fn version(alloc: Global) -> Result<Schema, NoMemory>
    ensures { IfOk result (λ s. kind_of s ≡ Typed version) }
{
    let fields = Fields::new(alloc)
        .with("major", uint(8))?
        .with("minor", uint(8))?;
    fields.sealed(16)
}

/// `uavcan.node.Heartbeat.1.0`, with the port 7509.
pub fn heartbeat(alloc: Global) -> Result<Schema, NoMemory>
    ensures { IfOk result (λ s. kind_of s ≡ Typed heartbeat) }
{
    let fields = Fields::new(alloc)
        .with("uptime", uint(32))?
        .with("health", health(alloc)?)?
        .with("mode", mode(alloc)?)?
        .with("vendor_specific_status_code", uint(8))?;
    fields.of_extent(96)
}

/// `uavcan.node.GetInfo.1.0, with the port 430`.
pub fn node_info_request(alloc: Global) -> Result<Schema, NoMemory>
    ensures { IfOk result (λ s. kind_of s ≡ Typed node_info_request) }
{
    Fields::new(alloc).sealed(0)
}

/// Its reply.
pub fn node_info(alloc: Global) -> Result<Schema, NoMemory>
    ensures { IfOk result (λ s. kind_of s ≡ Typed node_info) }
{
    let fields = Fields::new(alloc)
        .with("protocol_version", version(alloc)?)?
        .with("hardware_version", version(alloc)?)?
        .with("software_version", version(alloc)?)?
        .with("software_vcs_revision_id", uint(64))?
        .with("unique_id", fixed(alloc, uint(8), 16)?)?
        .with("name", bytes(alloc, 50)?)?
        .with("software_image_crc", array(alloc, uint(64), 1)?)?
        .with("certificate_of_authenticity", bytes(alloc, 222)?)?;
    fields.of_extent(3584)
}

/// `uavcan.node.ID.1.0`.
pub fn node_id(alloc: Global) -> Result<Schema, NoMemory>
    ensures { IfOk result (λ s. kind_of s ≡ Typed node_id) }
{
    single(alloc, "value", uint(16), 16)
}

/// `uavcan.pnp.NodeIDAllocationData.1.0`, with the port 8166.
pub fn node_id_allocation(alloc: Global) -> Result<Schema, NoMemory>
    ensures { IfOk result (λ s. kind_of s ≡ Typed node_id_allocation) }
{
    let fields = Fields::new(alloc)
        .with("unique_id_hash", truncated(48))?
        .with("allocated_node_id", array(alloc, node_id(alloc)?, 1)?)?;
    fields.of_extent(384)
}

/// `uavcan.time.SynchronizedTimestamp.1.0`.
pub fn synchronized_timestamp(alloc: Global) -> Result<Schema, NoMemory>
    ensures { IfOk result (λ s. kind_of s ≡ Typed synchronized_timestamp) }
{
    single(alloc, "microsecond", truncated(56), 56)
}

/// `uavcan.time.Synchronization.1.0`, with the port 7168.
pub fn synchronization(alloc: Global) -> Result<Schema, NoMemory>
    ensures { IfOk result (λ s. kind_of s ≡ Typed synchronization) }
{
    single(
        alloc,
        "previous_transmission_timestamp_microsecond",
        truncated(56),
        56,
    )
}
