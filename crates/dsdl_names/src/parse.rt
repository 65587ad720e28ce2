//! Reading the names of files and types.
ghost use Rattle.std.specs.Prelude.{◌≡◌, ◌≢◌, ◌≤◌, ◌∷◌, [], ◌++◌, Err, IfOk, IfSome};
ghost use Rattle.dsdl_names.specs.Parts.{parts_of, dotted};
ghost use Rattle.dsdl_names.specs.Words.{number_to};
ghost use Rattle.dsdl_names.specs.Types.{IsType, IsPort};
ghost use Rattle.dsdl_names.specs.Names.{version_in, some_port, with_name, type_file, ended, file_of, file_name_of, id_only, type_id_of};

use crate::number::number_to;
use crate::parts::{cut, cut_last, joined};
use crate::word::{all_names, any_reserved, is_name, is_reserved};
use crate::{FileName, NameError, TypeId};
use std::alloc::Global;

/// The type and the port of a file, by its path below the folder of all types (Cyphal
/// Specification, section 3.1): folders, and then `Short.major.minor.dsdl`, with `port.` before it
/// where the type has a port.
pub fn parse_file_name(alloc: Global, path: &str) -> Result<FileName, NameError>
    ensures answer { result ≢ Err NameError.NoMemory → result ≡ file_name_of path.now }
    ensures is_type { IfOk result (λ file. IsType file.id × IsPort file.port) }
{
    match cut_last(b'/', path.as_bytes()) {
        Some((folders, file)) => file_of(alloc, folders, file),
        None => Err(NameError::BadName),
    }
}

/// The type of a dotted name with its version (Cyphal Specification, section 3.1), as
/// `uavcan.node.Heartbeat.1.0`.
pub fn parse_type_id(alloc: Global, text: &str) -> Result<TypeId, NameError>
    ensures answer { result ≢ Err NameError.NoMemory → result ≡ type_id_of text.now }
    ensures is_type { IfOk result IsType }
{
    let Some((front, minor)) = cut_last(b'.', text.as_bytes()) else {
        return Err(NameError::BadName);
    };
    let Some((name, major)) = cut_last(b'.', front) else {
        return Err(NameError::BadName);
    };
    let Some((namespace, short)) = cut_last(b'.', name) else {
        return Err(NameError::BadName);
    };
    match type_file(
        alloc,
        b'.',
        namespace,
        short,
        version(major, minor),
        Some(None),
    ) {
        Ok(file) => Ok(file.id),
        Err(why) => Err(why),
    }
}

/// The type of a file in folders with `/` between each two.
fn file_of(alloc: Global, folders: &[u8], file: &[u8]) -> Result<FileName, NameError>
    ensures { result ≢ Err NameError.NoMemory
        → result ≡ file_of (parts_of 47 folders.now) (parts_of 46 file.now) }
{
    let Some((a, rest)) = cut(b'.', file) else {
        return Err(NameError::BadName);
    };
    let Some((b, rest)) = cut(b'.', rest) else {
        return Err(NameError::BadName);
    };
    let Some((c, rest)) = cut(b'.', rest) else {
        return Err(NameError::BadName);
    };
    match cut(b'.', rest) {
        None => ended(alloc, folders, a, version(b, c), Some(None), rest),
        Some((d, rest)) => match cut(b'.', rest) {
            None => ended(alloc, folders, b, version(c, d), port(a), rest),
            Some(_) => Err(NameError::BadName),
        },
    }
}

/// The type of a file whose name ends in `end`, which is to be `dsdl`.
fn ended(
    alloc: Global,
    folders: &[u8],
    short: &[u8],
    version: Option<(u8, u8)>,
    port: Option<Option<u16>>,
    end: &[u8],
) -> Result<FileName, NameError>
    ensures { result ≢ Err NameError.NoMemory
        → result ≡ ended (parts_of 47 folders.now ++ short.now ∷ []) version port end.now }
{
    if end == b"dsdl".as_slice() {
        type_file(alloc, b'/', folders, short, version, port)
    } else {
        Err(NameError::BadName)
    }
}

/// A version, which isn't 0.0.
fn version(major: &[u8], minor: &[u8]) -> Option<(u8, u8)>
    ensures { result ≡ version_in major.now minor.now }
{
    match number_to(255, major) {
        None => None,
        Some(major) => match number_to(255, minor) {
            None => None,
            Some(minor) => {
                if major == 0 && minor == 0 {
                    None
                } else {
                    Some((major as u8, minor as u8))
                }
            }
        },
    }
}

/// A port, or nothing where the text is none.
fn port(text: &[u8]) -> Option<Option<u16>>
    ensures { result ≡ some_port (number_to 8191 text.now) }
{
    match number_to(8191, text) {
        None => None,
        Some(port) => Some(Some(port as u16)),
    }
}

/// A type of folders, with the byte `b` between each two, and a short name.
fn type_file(
    alloc: Global,
    b: u8,
    folders: &[u8],
    short: &[u8],
    version: Option<(u8, u8)>,
    port: Option<Option<u16>>,
) -> Result<FileName, NameError>
    ensures { result ≢ Err NameError.NoMemory
        → result ≡ type_file (parts_of b folders.now ++ short.now ∷ []) version port }
{
    if !all_names(b, folders) || !is_name(short) {
        return Err(NameError::BadName);
    }
    if any_reserved(b, folders) || is_reserved(short) {
        return Err(NameError::Reserved);
    }
    match version {
        None => Err(NameError::BadVersion),
        Some(version) => match port {
            None => Err(NameError::BadPort),
            Some(port) => named(alloc, b, folders, short, version, port),
        },
    }
}

/// A type whose name may be too long.
fn named(
    alloc: Global,
    b: u8,
    folders: &[u8],
    short: &[u8],
    version: (u8, u8),
    port: Option<u16>,
) -> Result<FileName, NameError>
    ensures { result ≢ Err NameError.NoMemory
        → result ≡ with_name (dotted (parts_of b folders.now ++ short.now ∷ [])) version port }
{
    if folders.len() + 1 + short.len() > 255 {
        return Err(NameError::TooLong);
    }
    match joined(alloc, b, folders, short) {
        Ok(name) => Ok(FileName {
            id: TypeId {
                name,
                major: version.0,
                minor: version.1,
            },
            port,
        }),
        Err(_) => Err(NameError::NoMemory),
    }
}
