//! What a node asks its tree for a request.
ghost use Rattle.std.specs.Prelude.{◌≡◌, ◌+◌, ◌≤◌, ◌<◌, IfOk, OnErr, Some};
ghost use Rattle.file_service.specs.Causes.{IsKnown, TellsFault};
ghost use Rattle.file_service.specs.Paths.{place_of};
ghost use Rattle.file_service.specs.Replies.{read_of};
ghost use Rattle.std_types.specs.Files.{FitsReadReply};
ghost use Rattle.node_core.specs.Files.{AsksNothing, FitsFileReply, IsServed, TellsBytes};
ghost use Rattle.node_core.specs.Files.{is_failed, root_of};

use crate::file_reply::FileReply;
use crate::node::Node;
use crate::question::Question;
use crate::request::Request;
use cy_bits::{Bytes, NoMemory};
use cy_outside::Tree;
use file_service::{ReadDone, Served};
use std::alloc::Global;
use std_types::file::{FileError, ReadReply, ReadRequest};

impl Node {
    /// What the tree tells for a request: what stands at the path below the served folder, a name
    /// there, or bytes, or that it failed. Nothing is asked of it where the request is of no file,
    /// where its path is invalid, or where it is known what stands there; then memory is never
    /// wanting either.
    #[inline(never)]
    pub fn serve<T: Tree>(&self, request: &Request, tree: &mut T) -> Result<FileReply, NoMemory>
        ensures files { T.files tree.new ≡ T.files tree.old }
        ensures served { IfOk result (λ file.
            IsServed (T.files tree.old) self.now.plan (Some request.now) file) }
        ensures fits { IfOk result FitsFileReply }
        ensures cause { IfOk result (λ file.
            TellsFault (is_failed file) (T.faults tree.old) (T.faults tree.new)) }
        ensures unasked { AsksNothing (root_of self.now.plan.serve) request.now.question
            → tree.new ≡ tree.old }
        ensures memory { OnErr result (T.faults tree.new ≡ T.faults tree.old) }
        ensures wanted { OnErr result
            (AsksNothing (root_of self.now.plan.serve) request.now.question → ⊥) }
        ensures count { T.faults tree.old ≤ T.faults tree.new }
        ensures calls { T.calls tree.new ≤ T.calls tree.old + 1 }
    {
        let served = Served { root: self.root() };
        match &request.question {
            Question::FileInfo(asked) => {
                let reply = served.info(self.alloc, tree, asked.path.as_slice())?;
                Ok(FileReply::Info(reply))
            }
            Question::FileName(asked) => {
                let folder = asked.directory_path.as_slice();
                let done = served.list(self.alloc, tree, folder, asked.entry_index)?;
                Ok(FileReply::Name(done))
            }
            Question::FileBytes(asked) => bytes_of(self.alloc, served, tree, asked),
            Question::Info | Question::Access(_) | Question::Listing(_) | Question::Unsupported =>
                Ok(FileReply::NoFile),
        }
    }

    /// The folder that the node serves; the empty path where it serves none.
    fn root(&self) -> &str
        ensures { result.now ≡ root_of self.now.plan.serve }
    {
        match &self.plan.serve {
            Some(root) => root.as_str(),
            None => "",
        }
    }
}

/// The bytes of a file that a read asks for. Memory is never wanting where it is known what stands
/// at the path.
fn bytes_of<T: Tree>(
    alloc: Global,
    served: Served<'_>,
    tree: &mut T,
    asked: &ReadRequest,
) -> Result<FileReply, NoMemory>
    ensures files { T.files tree.new ≡ T.files tree.old }
    ensures told { IfOk result (TellsBytes (T.files tree.old)
        (place_of served.entry.root.now asked.now.path) asked.now.offset) }
    ensures fits { IfOk result FitsFileReply }
    ensures cause { IfOk result (λ file.
        TellsFault (is_failed file) (T.faults tree.old) (T.faults tree.new)) }
    ensures unasked { IsKnown (place_of served.entry.root.now asked.now.path)
        → tree.new ≡ tree.old }
    ensures memory { OnErr result (T.faults tree.new ≡ T.faults tree.old) }
    ensures wanted { OnErr result (IsKnown (place_of served.entry.root.now asked.now.path) → ⊥) }
    ensures count { T.faults tree.old ≤ T.faults tree.new }
    ensures calls { T.calls tree.new ≤ T.calls tree.old + 1 }
{
    let mut buf = [0; 256];
    let done = served.read(alloc, tree, asked.path.as_slice(), asked.offset, &mut buf)?;
    let reply = read_reply(alloc, done, &buf)?;
    Ok(FileReply::Bytes(reply))
}

/// The reply to a read whose bytes stand at the buffer's front. Memory is never wanting where there
/// are none.
fn read_reply(alloc: Global, done: ReadDone, buf: &[u8; 256]) -> Result<ReadReply, NoMemory>
    requires { done.count ≤ 256 }
    ensures reply { IfOk result (λ reply. reply ≡ read_of done buf.now) }
    ensures fits { IfOk result FitsReadReply }
    ensures memory { OnErr result (0 < done.count) }
{
    let bytes = &buf[..done.count];
    let data = if bytes.is_empty() {
        Bytes::new(Vec::new(alloc))
    } else {
        Bytes::from_slice(alloc, bytes)?
    };
    Ok(ReadReply {
        error: FileError { value: done.code },
        data,
    })
}
