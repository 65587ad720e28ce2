ghost use Rattle.std.specs.Prelude.{◌≡◌, ◌≤◌, ℕ, Option, length, drop, IfOk, IfErr};
ghost use Rattle.cy_outside.specs.Files.{Files, Lists, Reads, Sizes};
ghost use Rattle.cy_outside.specs.Calls.{one_more};
ghost use Rattle.cy_outside.specs.Causes.{CountsFault, HasTreeCause, IsWithin, IsLeft};

use cy_bits::{List, Text};
use std::alloc::Global;

/// Why a call of a tree has no answer.
#[derive(Clone, Copy, Debug, PartialEq, Eq)]
pub enum TreeError {
    /// The tree failed, and raised its count of faults.
    Failed,
    /// Want of memory.
    NoMemory,
}

/// A direct member of a folder.
#[derive(Drop)]
pub struct Entry {
    /// The member's name, without its folder's path.
    pub name: Text,
    /// Whether the member is a folder.
    pub folder: bool,
}

/// What a path lists.
#[derive(Drop)]
pub enum Listing {
    /// Each direct member of the folder once, in any order.
    Entries(List<Entry>),
    /// There is neither a file nor a folder.
    Absent,
    /// There is a file.
    NotFolder,
}

/// What a read of a file gave.
#[derive(Clone, Copy, Debug, PartialEq, Eq)]
pub enum Got {
    /// So many bytes stand at the buffer's front.
    Bytes(usize),
    /// There is neither a file nor a folder.
    Absent,
    /// There is a folder.
    Folder,
}

/// What stands at a path.
#[derive(Clone, Copy, Debug, PartialEq, Eq)]
pub enum Size {
    /// A file of so many bytes.
    File(u64),
    /// A folder.
    Folder,
    /// Neither.
    Absent,
}

/// Files under paths, with `/` between names. A path is a folder exactly where some file's path
/// begins with it and `/`. That nothing stands at a path is an answer, and no fault.
///
/// No call changes the files. A call that answers `TreeError::Failed` raises the count of faults by
/// one; every other answer leaves the count as it was. Each call raises the count of calls by one.
pub trait Tree {
    /// The files, where it tells them.
    ghost files: { Self → Option Files };

    /// How often it has failed. The count stays at 2^64 - 1 once it is there.
    ghost faults: { Self → ℕ };

    /// How many calls it has had. The count stays at 2^64 - 1 once it is there, and a tree that
    /// doesn't count stands there from the start.
    ghost calls: { Self → ℕ };

    /// The direct members of a folder.
    fn list(&mut self, alloc: Global, path: &str) -> Result<Listing, TreeError>
        ensures files { files self.new ≡ files self.old }
        ensures lists { IfOk result (λ listing. Lists (files self.old) path.now listing) }
        ensures faults { CountsFault (faults self.old) (faults self.new) result }
        ensures cause { HasTreeCause (faults self.old) (faults self.new) result }
        ensures count { faults self.old ≤ faults self.new }
        ensures calls { calls self.new ≡ one_more (calls self.old) };

    /// Puts as many bytes of a file, from an offset on, at the buffer's front as the file has and
    /// the buffer takes. The rest of the buffer stays. Takes no memory: it fails only as `Failed`.
    fn read_at(&mut self, path: &str, offset: u64, buf: &mut [u8]) -> Result<Got, TreeError>
        ensures files { files self.new ≡ files self.old }
        ensures within { IfOk result (λ got. IsWithin got (length buf.old)) }
        ensures reads { IfOk result (λ got. Reads (files self.old) path.now offset buf.new got) }
        ensures behind { IfOk result (λ got. IsLeft got buf.old buf.new) }
        ensures memory { IfErr result (λ error. error ≡ TreeError.Failed) }
        ensures faults { CountsFault (faults self.old) (faults self.new) result }
        ensures cause { HasTreeCause (faults self.old) (faults self.new) result }
        ensures count { faults self.old ≤ faults self.new }
        ensures calls { calls self.new ≡ one_more (calls self.old) };

    /// What stands at a path. Takes no memory: it fails only as `Failed`.
    fn size(&mut self, path: &str) -> Result<Size, TreeError>
        ensures files { files self.new ≡ files self.old }
        ensures sizes { IfOk result (λ size. Sizes (files self.old) path.now size) }
        ensures memory { IfErr result (λ error. error ≡ TreeError.Failed) }
        ensures faults { CountsFault (faults self.old) (faults self.new) result }
        ensures cause { HasTreeCause (faults self.old) (faults self.new) result }
        ensures count { faults self.old ≤ faults self.new }
        ensures calls { calls self.new ≡ one_more (calls self.old) };
}
