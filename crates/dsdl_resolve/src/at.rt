//! Naming the file that is refused.
ghost use Rattle.std.specs.Prelude.{◌≡◌, ◌<◌, Some, length};
ghost use Rattle.dsdl_resolve.specs.Passes.{path_at};
ghost use Rattle.dsdl_resolve.specs.Refusals.{IsRefusal};

use crate::{DsdlError, DsdlWhy};
use cy_bits::TryCopy;
use dsdl_files::DsdlFile;
use std::alloc::Global;

/// The refusal of a file at a line.
pub fn at(alloc: Global, file: &DsdlFile, line: u32, why: DsdlWhy) -> DsdlError
    ensures { IsRefusal (λ path at cause. (path ≡ file.now.path) × (at ≡ line) ×
        (cause ≡ why)) result }
{
    match file.path.copy(alloc) {
        Ok(path) => DsdlError::At {
            file: path,
            line,
            why,
        },
        Err(_) => DsdlError::NoMemory,
    }
}

/// The refusal of the file of a number at a line.
pub fn at_number(
    alloc: Global,
    files: &[DsdlFile],
    number: usize,
    line: u32,
    why: DsdlWhy,
) -> DsdlError
    requires { number < length files.now }
    ensures { IsRefusal (λ path at cause.
        (path_at files.now number ≡ Some path) × (at ≡ line) × (cause ≡ why)) result }
{
    at(alloc, &files[number], line, why)
}
