//! The codes of `uavcan.file.Error` that are answered.

/// Ok.
pub const OK: u16 = 0;

/// There is neither a file nor a folder at the path.
pub const NOT_FOUND: u16 = 2;

/// The tree failed.
pub const IO_ERROR: u16 = 5;

/// There is a folder at the path, and a file is asked for.
pub const IS_DIRECTORY: u16 = 21;

/// The path is invalid.
pub const INVALID: u16 = 22;
