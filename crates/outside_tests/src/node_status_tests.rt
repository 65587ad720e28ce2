//! What a node says of itself.
use cy_bits::{Bytes, List};
use node_status::{heartbeat_at, heartbeat_payload, info_payload, info_reply};
use std::test::Fail;
use std_types::node::{NodeInfo, Version};

#[test]
fn heartbeats(rt: HostRuntime) {
    for (health, mode, code, tick) in [(0, 0, 0, 0), (0, 0, 0, 1), (3, 3, 255, u32::MAX as u64)] {
        let heartbeat = heartbeat_at(health, mode, code, tick);
        assert_eq!(rt; heartbeat.uptime as u64, tick);
        assert_eq!(rt; heartbeat.health.value, health);
        assert_eq!(rt; heartbeat.mode.value, mode);
        assert_eq!(rt; heartbeat.vendor_specific_status_code, code);
    }
}

/// The numbers of a version.
fn numbers(version: Version) -> (u8, u8) {
    (version.major, version.minor)
}

#[test]
fn the_reply_is_the_nodes_own(rt: HostRuntime) -> Result<(), Fail> {
    let alloc = rt.alloc();
    let info = NodeInfo {
        protocol_version: Version { major: 9, minor: 9 },
        hardware_version: Version { major: 2, minor: 3 },
        software_version: Version { major: 4, minor: 5 },
        software_vcs_revision_id: 6,
        unique_id: [7; 16],
        name: Bytes::from_slice(alloc, b"rover")?,
        software_image_crc: List::empty(alloc),
        certificate_of_authenticity: Bytes::from_slice(alloc, b"none")?,
    };
    let reply = info_reply(alloc, &info)?;
    assert_eq!(rt; numbers(reply.protocol_version), (1, 0));
    assert_eq!(rt; numbers(reply.hardware_version), (2, 3));
    assert_eq!(rt; numbers(reply.software_version), (4, 5));
    assert_eq!(rt; reply.software_vcs_revision_id, 6);
    assert_eq!(rt; reply.unique_id, [7; 16]);
    assert_eq!(rt; reply.name.as_slice(), b"rover".as_slice());
    assert!(rt; reply.software_image_crc.is_empty());
    assert!(rt; reply.certificate_of_authenticity.is_empty());
    Ok(())
}

#[test]
fn payloads(rt: HostRuntime) -> Result<(), Fail> {
    let blank = NodeInfo {
        protocol_version: Version { major: 1, minor: 0 },
        hardware_version: Version { major: 0, minor: 0 },
        software_version: Version { major: 0, minor: 0 },
        software_vcs_revision_id: 0,
        unique_id: [0; 16],
        name: Bytes::from_slice(rt.alloc(), b"")?,
        software_image_crc: List::empty(rt.alloc()),
        certificate_of_authenticity: Bytes::from_slice(rt.alloc(), b"")?,
    };
    let mut reply = [0; 33];
    reply[0] = 1;
    assert_eq!(rt; info_payload(&blank).as_slice(), reply.as_slice());
    for (seconds, want) in [
        (0, [0, 0, 0, 0, 1, 2, 3]),
        (258, [2, 1, 0, 0, 1, 2, 3]),
        (u32::MAX as u64, [255, 255, 255, 255, 1, 2, 3]),
        (u64::MAX, [255, 255, 255, 255, 1, 2, 3]),
    ] {
        assert_eq!(rt; heartbeat_payload(1, 2, 3, seconds), want);
    }
    Ok(())
}
