ghost use Rattle.std.specs.Prelude.{◌≡◌, ◌≤◌, ◌+◌, length, IfOk, IfSome};
ghost use Rattle.cy_outside.specs.Causes.{HasTreeCause};
ghost use Rattle.cy_outside.specs.Files.{ReadsFront, front_length, reads_of};

use crate::{Got, PIECE, Tree, TreeError};
use cy_bits::Bytes;
use std::alloc::Global;

/// The first `most` bytes of a file, or all that it has; `None` where there is no file.
///
/// `Failed` comes only where a read of the tree failed. Where bytes are answered, the tree is
/// called at most once for each whole piece of 8,192 of them, and once more. Where the tree tells
/// its files, so it is with the first `most` bytes of the file, whatever is answered.
pub fn read_file<T: Tree>(
    alloc: Global,
    tree: &mut T,
    path: &str,
    most: usize,
) -> Result<Option<Bytes>, TreeError>
    ensures files { T.files tree.new ≡ T.files tree.old }
    ensures file { IfOk result (λ file. ReadsFront (T.files tree.old) path.now most file) }
    ensures most { IfOk result (λ file. IfSome file (λ bytes. length bytes ≤ most)) }
    ensures cause { HasTreeCause (T.faults tree.old) (T.faults tree.new) result }
    ensures count { T.faults tree.old ≤ T.faults tree.new }
    ensures calls { T.calls tree.new
        ≤ T.calls tree.old + reads_of (front_length (T.files tree.old) path.now most) }
    ensures given { IfOk result (λ file. IfSome file (λ bytes.
        T.calls tree.new ≤ T.calls tree.old + reads_of (length bytes))) }
{
    let mut piece = [0u8; PIECE];
    let mut bytes = Vec::new(alloc);
    'pieces: loop {
        let offset = bytes.len();
        let room = PIECE.min(most - offset);
        match tree.read_at(path, offset as u64, &mut piece[..room]) {
            Err(error) => return Err(error),
            Ok(Got::Absent | Got::Folder) => return Ok(None),
            Ok(Got::Bytes(n)) => {
                let Ok(()) = bytes.extend_from_slice(&piece[..n]) else {
                    return Err(TreeError::NoMemory);
                };
                if n < room || bytes.len() == most {
                    return Ok(Some(Bytes::new(bytes)));
                }
            }
        }
    }
}
