ghost use Rattle.std.specs.Prelude.{◌≡◌, IfOk};

use cy_bits::{Bytes, NoMemory, Text};
use std::alloc::Global;

/// A file in memory.
#[derive(Drop)]
pub struct File {
    /// The file's path, with `/` between names.
    pub path: Text,
    /// What the file holds.
    pub bytes: Bytes,
}

impl File {
    /// A file of these bytes at this path, both copied.
    pub fn new(alloc: Global, path: &str, bytes: &[u8]) -> Result<File, NoMemory>
        ensures path { IfOk result (λ file. file.path ≡ path.now) }
        ensures bytes { IfOk result (λ file. file.bytes ≡ bytes.now) }
    {
        let path = Text::from_str(alloc, path)?;
        let bytes = Bytes::from_slice(alloc, bytes)?;
        Ok(File { path, bytes })
    }
}
