use cy_bits::{NoMemory, Text};
use cy_outside::TreeError;

/// Why the files of a folder were not read. The files of the tree are as they were.
#[derive(Drop)]
pub enum FolderError {
    /// The root is no folder of the tree.
    NotFolder,
    /// A limit was passed.
    TooBig {
        /// Where it was passed, below the root: the folder whose listing brought the entries of all
        /// folders together past `MAX_ENTRIES` (`.` for the root), or the first file in the order
        /// of paths that is past the count of `MAX_FILES` or has more than `MAX_FILE` bytes.
        path: Text,
    },
    /// The tree failed, and raised its count of faults.
    Failed,
    /// Want of memory.
    NoMemory,
}

impl From<NoMemory> for FolderError {
    ghost use Rattle.std.specs.Prelude.{◌≡◌};
    ghost use Rattle.dsdl_files.specs.declared.error.FolderError.TheVariants as error;

    ghost from_gives = { λ _ e. e ≡ error.NoMemory };

    fn from(_: NoMemory) -> FolderError {
        FolderError::NoMemory
    }
}

impl From<TreeError> for FolderError {
    ghost use Rattle.std.specs.Prelude.{◌≡◌};
    ghost use Rattle.dsdl_files.specs.Causes.{error_of};

    ghost from_gives = { λ cause e. e ≡ error_of cause };

    fn from(cause: TreeError) -> FolderError {
        match cause {
            TreeError::Failed => FolderError::Failed,
            TreeError::NoMemory => FolderError::NoMemory,
        }
    }
}
