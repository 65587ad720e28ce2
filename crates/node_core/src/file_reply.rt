ghost use Rattle.std.specs.Prelude.{◌≡◌};
ghost use Rattle.node_core.specs.Files.{is_failed};

use file_service::ListDone;
use file_service::codes::IO_ERROR;
use std_types::file::{InfoReply, ReadReply};

/// What the tree of a node told for a request.
#[derive(Drop)]
pub enum FileReply {
    /// It was asked nothing: the request, if there is one, is of no file.
    NoFile,
    /// What stands at a path.
    Info(InfoReply),
    /// A name of a folder.
    Name(ListDone),
    /// Bytes of a file.
    Bytes(ReadReply),
}

impl FileReply {
    /// Whether the tree failed.
    pub fn is_failed(&self) -> bool
        ensures { result ≡ is_failed self.now }
    {
        match self {
            FileReply::NoFile => false,
            FileReply::Info(reply) => reply.error.value == IO_ERROR,
            FileReply::Name(done) => done.failed,
            FileReply::Bytes(reply) => reply.error.value == IO_ERROR,
        }
    }
}
