use cy_bits::Text;

/// How a read of a file ended.
#[derive(Clone, Copy, Debug, PartialEq, Eq)]
pub struct ReadDone {
    /// The code of `uavcan.file.Error`: 0, or 2, 5, 21 or 22 of `codes`.
    pub code: u16,
    /// How many bytes stand at the buffer's front, at most 256. None where the code isn't 0, and
    /// none past the file's end.
    pub count: usize,
}

/// How a listing of a folder ended.
#[derive(Drop)]
pub struct ListDone {
    /// The name of the entry, at most 255 bytes 20 to 7E hex. It is empty past the last entry, for
    /// an invalid path, where there is no folder, and where the tree failed.
    pub name: Text,
    /// Whether the tree failed.
    pub failed: bool,
}
