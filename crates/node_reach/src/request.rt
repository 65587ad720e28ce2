ghost use Rattle.std.specs.Prelude.{◌≡◌, ◌≤◌, IfOk, length, take};
ghost use Rattle.node_reach.specs.Fetched.{request_payload};

use cy_bits::{Bytes, NoMemory};
use dsdl_types::laws::readings_stored;
use std::alloc::Global;
use std_types::file::ReadRequest;
use std_types::{Standard, StdName, std_type};
use wire_values::laws::extent_has_room;
use wire_values::write_fitting;

/// The most bytes that a request to read has, which is its extent.
pub(crate) const MOST: usize = 300;

/// Writes the payload of a request for the bytes of a file from an offset on, and answers its length.
pub(crate) fn write_request(
    alloc: Global,
    offset: u64,
    path: &[u8],
    out: &mut [u8; MOST],
) -> Result<usize, NoMemory>
    requires { length path.now ≤ 255 }
    ensures size { IfOk result (λ size. size ≤ 300) }
    ensures payload { IfOk result (λ size. take size out.new ≡ request_payload offset path.now) }
{
    extent_has_room();
    readings_stored();
    let standard = std_type(alloc, StdName::ReadRequest)?;
    let request = ReadRequest {
        offset,
        path: Bytes::from_slice(alloc, path)?,
    };
    let value = request.to_value(alloc)?;
    Ok(write_fitting(&standard.schema, &value, out))
}
