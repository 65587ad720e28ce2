//! What a request to a node asks.
ghost use Rattle.std.specs.Prelude.{◌≡◌, IfOk, OnErr, option_map};
ghost use Rattle.std.specs.Option.{ForSome};
ghost use Rattle.node_core.specs.Questions.{FitsQuestion, IsReadService, question_in};
ghost use Rattle.wire_values.specs.Payloads.{payload_value};
ghost use Rattle.std_types.specs.Types.{schema_of};

use cy_bits::NoMemory;
use std::alloc::Global;
use std_types::file::{FileListRequest, InfoRequest, ReadRequest};
use std_types::register::{AccessRequest, ListRequest};
use std_types::{Standard, StdName, ports, std_type};
use wire_values::payload_value;

/// What a request asks that a node answers.
#[derive(Drop)]
pub enum Question {
    /// What the node is (Cyphal Specification, section 5.3.3).
    Info,
    /// A register's value, which is written first where the request bears one (Cyphal
    /// Specification, section 5.3.10).
    Access(AccessRequest),
    /// The name of the register with a number.
    Listing(ListRequest),
    /// What stands at a path below the served folder.
    FileInfo(InfoRequest),
    /// A name of a folder below it.
    FileName(FileListRequest),
    /// Bytes of a file below it.
    FileBytes(ReadRequest),
    /// A change of a file: it is answered that this isn't supported.
    Unsupported,
}

impl Question {
    /// What a request of a service asks, by its payload; `None` where it has no answer. Memory may
    /// be wanting only for a service that is answered by what the payload says.
    #[inline(never)]
    pub(crate) fn of(
        alloc: Global,
        service: u16,
        payload: &[u8],
    ) -> Result<Option<Question>, NoMemory>
        ensures value { IfOk result (λ question. question ≡ question_in service payload.now) }
        ensures fits { IfOk result (λ question. ForSome question FitsQuestion) }
        ensures memory { OnErr result (IsReadService service) }
    {
        match service {
            ports::GET_INFO => Ok(Some(Question::Info)),
            ports::REGISTER_ACCESS => {
                let request = request_as(alloc, StdName::AccessRequest, payload)?;
                Ok(request.map(Question::Access))
            }
            ports::REGISTER_LIST => {
                let request = request_as(alloc, StdName::ListRequest, payload)?;
                Ok(request.map(Question::Listing))
            }
            ports::FILE_GET_INFO => {
                let request = request_as(alloc, StdName::InfoRequest, payload)?;
                Ok(request.map(Question::FileInfo))
            }
            ports::FILE_LIST => {
                let request = request_as(alloc, StdName::FileListRequest, payload)?;
                Ok(request.map(Question::FileName))
            }
            ports::FILE_READ => {
                let request = request_as(alloc, StdName::ReadRequest, payload)?;
                Ok(request.map(Question::FileBytes))
            }
            ports::FILE_MODIFY | ports::FILE_WRITE => Ok(Some(Question::Unsupported)),
            _ => Ok(None),
        }
    }
}

/// The request that a payload is read as, by the name of its type; `None` where it can't be read.
fn request_as<S: Standard>(
    alloc: Global,
    name: StdName,
    payload: &[u8],
) -> Result<Option<S>, NoMemory>
    requires { schema_of name ≡ S.schema }
    ensures value { IfOk result (λ request.
        request ≡ option_map S.made_of (payload_value S.schema payload.now)) }
    ensures fits { IfOk result (λ request. ForSome request S.fits) }
{
    let standard = std_type(alloc, name)?;
    match payload_value(alloc, &standard.schema, payload)? {
        Some(value) => Ok(Some(S::of_value(alloc, &value)?)),
        None => Ok(None),
    }
}
