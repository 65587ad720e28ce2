//! The standard types.
use cy_bits::NoMemory;
use dsdl_types::Shape;
use std::alloc::Global;
use std_types::laws::through_value;
use std_types::node::{Health, Heartbeat, Mode};
use std_types::{StdName, std_type};

/// The extents of the standard types, in bytes.
const EXTENTS: &[(StdName, usize)] = &[
    (StdName::Heartbeat, 12),
    (StdName::NodeInfoRequest, 0),
    (StdName::NodeInfo, 448),
    (StdName::AccessRequest, 515),
    (StdName::AccessReply, 267),
    (StdName::ListRequest, 2),
    (StdName::ListReply, 256),
    (StdName::InfoRequest, 300),
    (StdName::InfoReply, 48),
    (StdName::FileListRequest, 300),
    (StdName::FileListReply, 300),
    (StdName::ReadRequest, 300),
    (StdName::ReadReply, 300),
];

/// The extent of a standard type, in bytes.
fn extent_of(alloc: Global, name: StdName) -> Result<usize, NoMemory> {
    Ok(std_type(alloc, name)?.extent_bytes())
}

#[test]
fn extents(rt: HostRuntime) -> Result<(), NoMemory> {
    for &(name, bytes) in EXTENTS {
        assert!(rt; extent_of(rt.alloc(), name)? == bytes, "at {bytes}");
    }
    Ok(())
}

#[test]
fn both_ways(rt: HostRuntime) {
    let heartbeat = Heartbeat {
        uptime: 5,
        health: Health { value: 1 },
        mode: Mode { value: 2 },
        vendor_specific_status_code: 9,
    };
    let made = through_value(rt.alloc(), &heartbeat).expect(&rt, "memory");
    assert!(rt; made.uptime == 5, "uptime");
    assert!(rt; made.health.value == 1, "health");
    assert!(rt; made.mode.value == 2, "mode");
    assert!(rt; made.vendor_specific_status_code == 9, "code");
}
