ghost use Rattle.std.specs.Prelude.{◌≡◌, ◌≤◌, ◌+◌, ◌++◌, length, IfOk};
ghost use Rattle.dsdl_types.specs.Laws.{encoding};
ghost use Rattle.node_status.specs.Status.{info_bytes, info_of, info_payload, version_bytes};
ghost use Rattle.std_types.specs.Node.{FitsNodeInfo, node_info_value};
ghost use Rattle.std_types.specs.Schemas.{node_info};

use cy_bits::{Bytes, List, NoMemory, ShortList, TryCopy};
use std::alloc::Global;
use std_types::node::{NodeInfo, Version};

/// The version of the protocol that the node speaks.
const PROTOCOL: Version = Version { major: 1, minor: 0 };

/// What a node answers to `uavcan.node.GetInfo.1.0` (Cyphal Specification, section 5.3.3): the
/// versions of hardware and software, the revision, the unique id and the name are those of
/// `info`. The protocol is 1.0, and there is neither a CRC of the software nor a certificate.
///
/// Want of memory is the only refusal.
pub fn info_reply(alloc: Global, info: &NodeInfo) -> Result<NodeInfo, NoMemory>
    ensures reply { IfOk result (λ reply. reply ≡ info_of info.now) }
    ensures fits { FitsNodeInfo info.now → IfOk result FitsNodeInfo }
    ensures bytes { FitsNodeInfo info.now → IfOk result (λ reply.
        encoding node_info (node_info_value reply) ≡ info_bytes info.now) }
{
    let name = info.name.copy(alloc)?;
    Ok(NodeInfo {
        protocol_version: PROTOCOL,
        hardware_version: info.hardware_version,
        software_version: info.software_version,
        software_vcs_revision_id: info.software_vcs_revision_id,
        unique_id: info.unique_id,
        name,
        software_image_crc: List::empty(alloc),
        certificate_of_authenticity: Bytes::new(Vec::new(alloc)),
    })
}

/// The payload of the reply to `uavcan.node.GetInfo.1.0` (Cyphal Specification, section 5.3.3) of a
/// node that is as `info` says, but for what `info_reply` sets. The fields of `info` are within
/// their limits. At most 83 bytes; takes no memory.
pub fn info_payload(info: &NodeInfo) -> ShortList<u8, 128>
    requires { FitsNodeInfo info.now }
    ensures { result ≡ info_payload info.now }
{
    let mut payload = ShortList::new();
    put_version(&mut payload, PROTOCOL);
    put_version(&mut payload, info.hardware_version);
    put_version(&mut payload, info.software_version);
    put(&mut payload, &info.software_vcs_revision_id.to_le_bytes());
    put(&mut payload, &info.unique_id);
    payload.push(info.name.len() as u8);
    put(&mut payload, info.name.as_slice());
    put(&mut payload, &[0, 0]);
    payload
}

/// Appends a version: the major number, then the minor one.
fn put_version(payload: &mut ShortList<u8, 128>, version: Version)
    requires { length payload.old + 2 ≤ 128 }
    ensures { payload.new ≡ payload.old ++ version_bytes version }
{
    payload.push(version.major);
    payload.push(version.minor);
}

/// Appends bytes.
fn put(payload: &mut ShortList<u8, 128>, bytes: &[u8])
    requires { length payload.old + length bytes.now ≤ 128 }
    ensures { payload.new ≡ payload.old ++ bytes.now }
{
    for byte in bytes {
        payload.push(*byte);
    }
}
