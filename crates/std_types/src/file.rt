//! The standard types of files.
use crate::Standard;
use crate::held::{
    alone, byte_array, byte_array_value, bytes, number, number_value, part, structure, truth,
};
use cy_bits::{Bytes, NoMemory};
use dsdl_types::Value;
use std::alloc::Global;

/// `uavcan.file.Path.2.0` (Cyphal Specification, section 5.3.7).
#[derive(Drop)]
pub struct Path {
    /// The path, of at most 255 bytes.
    pub path: Bytes,
}

/// `uavcan.file.Error.1.0` (Cyphal Specification, section 5.3.7): 0 Ok, 2 not found, 5 I/O, 13
/// denied, 21 directory, 22 invalid, 27 too large, 28 no space, 38 not supported, 65535 unknown.
#[derive(Clone, Copy)]
pub struct FileError {
    /// The code.
    pub value: u16,
}

/// The request of `uavcan.file.GetInfo`, with the port 405 (Cyphal Specification, section 5.3.7):
/// what is at a path.
#[derive(Drop)]
pub struct InfoRequest {
    /// The path, of at most 255 bytes.
    pub path: Bytes,
}

/// The reply of `uavcan.file.GetInfo` (Cyphal Specification, section 5.3.7).
#[derive(Clone, Copy)]
pub struct InfoReply {
    /// How the call ended.
    pub error: FileError,
    /// The size of a file in bytes, written in its low 40 bits.
    pub size: u64,
    /// When it was last changed, in seconds, written in its low 40 bits.
    pub unix_timestamp_of_last_modification: u64,
    /// Whether it is a file.
    pub is_file_not_directory: bool,
    /// Whether it is a link.
    pub is_link: bool,
    /// Whether it can be read.
    pub is_readable: bool,
    /// Whether it can be written.
    pub is_writeable: bool,
}

/// The request of `uavcan.file.List`, with the port 406 (Cyphal Specification, section 5.3.7).
#[derive(Drop)]
pub struct FileListRequest {
    /// The number of an entry of the folder, counted from 0.
    pub entry_index: u32,
    /// The path of the folder, of at most 255 bytes.
    pub directory_path: Bytes,
}

/// The reply of `uavcan.file.List` (Cyphal Specification, section 5.3.7).
#[derive(Drop)]
pub struct FileListReply {
    /// The name of the entry, of at most 255 bytes; empty past the last.
    pub entry_base_name: Bytes,
}

/// The request of `uavcan.file.Read`, with the port 408 (Cyphal Specification, section 5.3.7).
#[derive(Drop)]
pub struct ReadRequest {
    /// The place of the first byte, counted from 0; written in its low 40 bits.
    pub offset: u64,
    /// The path of the file, of at most 255 bytes.
    pub path: Bytes,
}

/// The reply of `uavcan.file.Read` (Cyphal Specification, section 5.3.7).
#[derive(Drop)]
pub struct ReadReply {
    /// How the call ended.
    pub error: FileError,
    /// The bytes from that place on, at most 256; none past the end.
    pub data: Bytes,
}

impl Standard for Path {
    ghost use Rattle.std_types.specs.Files.{path_value, path_of, FitsPath};
    ghost use Rattle.std_types.specs.FileLaws.{path_back, path_forth};
    ghost use Rattle.std_types.specs.Schemas.{path};

    ghost schema = { path };

    ghost fits = { FitsPath };

    ghost value = { path_value };

    ghost made_of = { path_of };

    ghost back = { path_back };

    ghost forth = { path_forth };

    fn to_value(&self, alloc: Global) -> Result<Value, NoMemory> {
        byte_array_value(alloc, &self.path)
    }

    fn of_value(alloc: Global, from: &Value) -> Result<Path, NoMemory> {
        Ok(Path {
            path: bytes(alloc, part(from, 0))?,
        })
    }
}

impl Standard for FileError {
    ghost use Rattle.std_types.specs.Files.{file_error_value, file_error_of, FitsFileError};
    ghost use Rattle.std_types.specs.FileLaws.{file_error_back, file_error_forth};
    ghost use Rattle.std_types.specs.Schemas.{file_error};

    ghost schema = { file_error };

    ghost fits = { FitsFileError };

    ghost value = { file_error_value };

    ghost made_of = { file_error_of };

    ghost back = { file_error_back };

    ghost forth = { file_error_forth };

    fn to_value(&self, alloc: Global) -> Result<Value, NoMemory> {
        alone(alloc, number_value(self.value))
    }

    fn of_value(_alloc: Global, from: &Value) -> Result<FileError, NoMemory> {
        Ok(FileError {
            value: number(part(from, 0)),
        })
    }
}

impl Standard for InfoRequest {
    ghost use Rattle.std_types.specs.Files.{info_request_value, info_request_of, FitsInfoRequest};
    ghost use Rattle.std_types.specs.FileLaws.{info_request_back, info_request_forth};
    ghost use Rattle.std_types.specs.Schemas.{info_request};

    ghost schema = { info_request };

    ghost fits = { FitsInfoRequest };

    ghost value = { info_request_value };

    ghost made_of = { info_request_of };

    ghost back = { info_request_back };

    ghost forth = { info_request_forth };

    fn to_value(&self, alloc: Global) -> Result<Value, NoMemory> {
        alone(alloc, byte_array_value(alloc, &self.path)?)
    }

    fn of_value(alloc: Global, from: &Value) -> Result<InfoRequest, NoMemory> {
        Ok(InfoRequest {
            path: byte_array(alloc, part(from, 0))?,
        })
    }
}

impl Standard for InfoReply {
    ghost use Rattle.std_types.specs.Files.{info_reply_value, info_reply_of, FitsInfoReply};
    ghost use Rattle.std_types.specs.FileLaws.{info_reply_back, info_reply_forth};
    ghost use Rattle.std_types.specs.Schemas.{info_reply};

    ghost schema = { info_reply };

    ghost fits = { FitsInfoReply };

    ghost value = { info_reply_value };

    ghost made_of = { info_reply_of };

    ghost back = { info_reply_back };

    ghost forth = { info_reply_forth };

    fn to_value(&self, alloc: Global) -> Result<Value, NoMemory> {
        let error = self.error.to_value(alloc)?;
        Ok(structure(vec![in alloc;
            error,
            number_value(self.size),
            number_value(self.unix_timestamp_of_last_modification),
            Value::Bool(self.is_file_not_directory),
            Value::Bool(self.is_link),
            Value::Bool(self.is_readable),
            Value::Bool(self.is_writeable),
        ]?))
    }

    fn of_value(alloc: Global, from: &Value) -> Result<InfoReply, NoMemory> {
        Ok(InfoReply {
            error: FileError::of_value(alloc, part(from, 0))?,
            size: number(part(from, 1)),
            unix_timestamp_of_last_modification: number(part(from, 2)),
            is_file_not_directory: truth(part(from, 3)),
            is_link: truth(part(from, 4)),
            is_readable: truth(part(from, 5)),
            is_writeable: truth(part(from, 6)),
        })
    }
}

impl Standard for FileListRequest {
    ghost use Rattle.std_types.specs.Files.{file_list_request_value, file_list_request_of, FitsFileListRequest};
    ghost use Rattle.std_types.specs.FileLaws.{file_list_request_back, file_list_request_forth};
    ghost use Rattle.std_types.specs.Schemas.{file_list_request};

    ghost schema = { file_list_request };

    ghost fits = { FitsFileListRequest };

    ghost value = { file_list_request_value };

    ghost made_of = { file_list_request_of };

    ghost back = { file_list_request_back };

    ghost forth = { file_list_request_forth };

    fn to_value(&self, alloc: Global) -> Result<Value, NoMemory> {
        let directory_path = byte_array_value(alloc, &self.directory_path)?;
        Ok(structure(vec![in alloc; number_value(self.entry_index), directory_path]?))
    }

    fn of_value(alloc: Global, from: &Value) -> Result<FileListRequest, NoMemory> {
        Ok(FileListRequest {
            entry_index: number(part(from, 0)),
            directory_path: byte_array(alloc, part(from, 1))?,
        })
    }
}

impl Standard for FileListReply {
    ghost use Rattle.std_types.specs.Files.{file_list_reply_value, file_list_reply_of, FitsFileListReply};
    ghost use Rattle.std_types.specs.FileLaws.{file_list_reply_back, file_list_reply_forth};
    ghost use Rattle.std_types.specs.Schemas.{file_list_reply};

    ghost schema = { file_list_reply };

    ghost fits = { FitsFileListReply };

    ghost value = { file_list_reply_value };

    ghost made_of = { file_list_reply_of };

    ghost back = { file_list_reply_back };

    ghost forth = { file_list_reply_forth };

    fn to_value(&self, alloc: Global) -> Result<Value, NoMemory> {
        alone(alloc, byte_array_value(alloc, &self.entry_base_name)?)
    }

    fn of_value(alloc: Global, from: &Value) -> Result<FileListReply, NoMemory> {
        Ok(FileListReply {
            entry_base_name: byte_array(alloc, part(from, 0))?,
        })
    }
}

impl Standard for ReadRequest {
    ghost use Rattle.std_types.specs.Files.{read_request_value, read_request_of, FitsReadRequest};
    ghost use Rattle.std_types.specs.FileLaws.{read_request_back, read_request_forth};
    ghost use Rattle.std_types.specs.Schemas.{read_request};

    ghost schema = { read_request };

    ghost fits = { FitsReadRequest };

    ghost value = { read_request_value };

    ghost made_of = { read_request_of };

    ghost back = { read_request_back };

    ghost forth = { read_request_forth };

    fn to_value(&self, alloc: Global) -> Result<Value, NoMemory> {
        let path = byte_array_value(alloc, &self.path)?;
        Ok(structure(vec![in alloc; number_value(self.offset), path]?))
    }

    fn of_value(alloc: Global, from: &Value) -> Result<ReadRequest, NoMemory> {
        Ok(ReadRequest {
            offset: number(part(from, 0)),
            path: byte_array(alloc, part(from, 1))?,
        })
    }
}

impl Standard for ReadReply {
    ghost use Rattle.std_types.specs.Files.{read_reply_value, read_reply_of, FitsReadReply};
    ghost use Rattle.std_types.specs.FileLaws.{read_reply_back, read_reply_forth};
    ghost use Rattle.std_types.specs.Schemas.{read_reply};

    ghost schema = { read_reply };

    ghost fits = { FitsReadReply };

    ghost value = { read_reply_value };

    ghost made_of = { read_reply_of };

    ghost back = { read_reply_back };

    ghost forth = { read_reply_forth };

    fn to_value(&self, alloc: Global) -> Result<Value, NoMemory> {
        let error = self.error.to_value(alloc)?;
        let data = byte_array_value(alloc, &self.data)?;
        Ok(structure(vec![in alloc; error, data]?))
    }

    fn of_value(alloc: Global, from: &Value) -> Result<ReadReply, NoMemory> {
        Ok(ReadReply {
            error: FileError::of_value(alloc, part(from, 0))?,
            data: byte_array(alloc, part(from, 1))?,
        })
    }
}
