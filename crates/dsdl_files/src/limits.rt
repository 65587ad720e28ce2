/// How many DSDL files a folder may have below it.
pub const MAX_FILES: usize = 4096;

/// How many bytes a DSDL file may have.
pub const MAX_FILE: usize = 1 << 20;

/// How many entries the root and all folders below it may have together. A folder's entries are its
/// direct members, files and folders alike, whatever their names are.
pub const MAX_ENTRIES: usize = 65_536;

/// How much is read of a folder.
#[derive(Clone, Copy)]
pub struct Limits {
    /// How many entries the root and all folders below it may have together.
    pub entries: usize,
    /// How many DSDL files there may be.
    pub files: usize,
    /// How many bytes each of them may have.
    pub bytes: u32,
}

/// How much is read of any folder.
pub const LIMITS: Limits = Limits {
    entries: MAX_ENTRIES,
    files: MAX_FILES,
    bytes: MAX_FILE as u32,
};
