//! What a node answers to requests.
ghost use Rattle.std.specs.Prelude.{◌≡◌, ◌≤◌, IfOk, OnErr, OnOk, Some, length, take};
ghost use Rattle.dsdl_types.specs.Laws.{encoding};
ghost use Rattle.dsdl_types.specs.Schemas.{extent_of};
ghost use Rattle.register_service.specs.RegisterMap.{list_reply, listed};
ghost use Rattle.std_types.specs.Registers.{FitsListReply};
ghost use Rattle.std_types.specs.Types.{schema_of};
ghost use Rattle.node_core.specs.Files.{FitsFileReply, file_payload, name_reply};
ghost use Rattle.node_core.specs.Keeps.{keeps, questioned};
ghost use Rattle.node_core.specs.Questions.{FitsQuestion, IsOfContent};
ghost use Rattle.node_core.specs.Sending.{answer_to};
ghost use Rattle.node_core.specs.Stands.{StandsAsBefore};

use crate::file_reply::FileReply;
use crate::node::Node;
use crate::question::Question;
use cy_bits::{Bytes, NoMemory};
use dsdl_types::laws::readings_stored;
use file_service::ListDone;
use std::alloc::Global;
use std_types::file::FileListReply;
use std_types::register::{AccessRequest, ListReply, ListRequest};
use std_types::{Standard, StdName, std_type};
use wire_values::laws::extent_has_room;
use wire_values::write_fitting;

/// The most bytes of a reply's payload.
pub(crate) const MAX_REPLY: usize = 512;

/// The payload of a refusal: the code 38 of `uavcan.file.Error`, not supported.
const UNSUPPORTED: [u8; 2] = [38, 0];

impl Node {
    /// Does what a question asks, and writes the payload of the answer in front of a buffer: of a
    /// file it is what the tree told. Answers the number of its bytes. Memory may be wanting only
    /// for what is asked of registers and files.
    pub(crate) fn answer_with(
        &mut self,
        question: Question,
        file: &FileReply,
        out: &mut [u8; MAX_REPLY],
    ) -> Result<usize, NoMemory>
        requires question { FitsQuestion question }
        requires file { FitsFileReply file.now }
        ensures plan { self.new.plan ≡ self.old.plan }
        ensures latest { self.new.latest ≡ self.old.latest }
        ensures stands { StandsAsBefore self.old self.new }
        ensures keeps { OnOk result
            (keeps self.new ≡ questioned self.old.plan question (keeps self.old)) }
        ensures queues { (keeps self.new).queues ≡ (keeps self.old).queues }
        ensures size { IfOk result (λ n. n ≤ 512) }
        ensures payload { let registers = (keeps self.old).registers in IfOk result (λ n.
            take n out.new ≡ answer_to self.old.plan registers file.now question) }
        ensures memory { OnErr result (IsOfContent question) }
    {
        match question {
            Question::Info => Ok(put(self.info.as_slice(), out)),
            Question::Access(AccessRequest { name, value }) => {
                let reply = self.registers.access(name.as_slice(), value)?;
                encoded(self.alloc, StdName::AccessReply, &reply, out)
            }
            Question::Listing(ListRequest { index }) => {
                let reply = self.listed(index)?;
                encoded(self.alloc, StdName::ListReply, &reply, out)
            }
            Question::FileInfo(_) | Question::FileName(_) | Question::FileBytes(_) => {
                encoded_file(self.alloc, file, out)
            }
            Question::Unsupported => Ok(put(&UNSUPPORTED, out)),
        }
    }

    /// The name of the register with a number; the empty one past the last.
    fn listed(&self, index: u16) -> Result<ListReply, NoMemory>
        ensures reply { IfOk result (λ reply. reply ≡ list_reply (keeps self.now).registers index) }
        ensures fits { IfOk result FitsListReply }
    {
        match self.registers.name(index) {
            Some(name) => named(self.alloc, name),
            None => Ok(ListReply {
                name: Bytes::new(Vec::new(self.alloc)),
            }),
        }
    }
}

/// The reply to a listing with this name.
fn named(alloc: Global, name: &[u8]) -> Result<ListReply, NoMemory>
    requires { length name.now ≤ 255 }
    ensures reply { IfOk result (λ reply. reply ≡ listed (Some name.now)) }
    ensures fits { IfOk result FitsListReply }
{
    Ok(ListReply {
        name: Bytes::from_slice(alloc, name)?,
    })
}

/// Writes a payload in front of a buffer. Answers the number of its bytes.
fn put(payload: &[u8], out: &mut [u8; MAX_REPLY]) -> usize
    requires { length payload.now ≤ 512 }
    ensures size { result ≤ 512 }
    ensures payload { take result out.new ≡ payload.now }
{
    out[..payload.len()].copy_from_slice(payload);
    payload.len()
}

/// Writes the payload of the reply to a request of a file in front of a buffer. Answers the number
/// of its bytes.
fn encoded_file(
    alloc: Global,
    file: &FileReply,
    out: &mut [u8; MAX_REPLY],
) -> Result<usize, NoMemory>
    requires { FitsFileReply file.now }
    ensures size { IfOk result (λ n. n ≤ 512) }
    ensures payload { IfOk result (λ n. take n out.new ≡ file_payload file.now) }
{
    match file {
        FileReply::NoFile => Ok(0),
        FileReply::Info(reply) => encoded(alloc, StdName::InfoReply, reply, out),
        FileReply::Name(done) => {
            let reply = name_reply(alloc, done)?;
            encoded(alloc, StdName::FileListReply, &reply, out)
        }
        FileReply::Bytes(reply) => encoded(alloc, StdName::ReadReply, reply, out),
    }
}

/// The name that a listing gave, as its reply.
fn name_reply(alloc: Global, done: &ListDone) -> Result<FileListReply, NoMemory>
    ensures { IfOk result (λ reply. reply ≡ name_reply done.now) }
{
    Ok(FileListReply {
        entry_base_name: Bytes::from_slice(alloc, done.name.as_str().as_bytes())?,
    })
}

/// Writes the payload of a standard type in front of a buffer, by the name of the type. Answers the
/// number of its bytes.
fn encoded<S: Standard>(
    alloc: Global,
    name: StdName,
    given: &S,
    out: &mut [u8; MAX_REPLY],
) -> Result<usize, NoMemory>
    requires name { schema_of name ≡ S.schema }
    requires room { extent_of S.schema ≤ 4096 }
    requires fits { S.fits given.now }
    ensures size { IfOk result (λ n. n ≤ 512) }
    ensures payload { IfOk result (λ n. take n out.new ≡ encoding S.schema (S.value given.now)) }
{
    extent_has_room();
    readings_stored();
    let standard = std_type(alloc, name)?;
    let value = given.to_value(alloc)?;
    Ok(write_fitting(&standard.schema, &value, out))
}
