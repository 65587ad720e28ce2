//! The first pass: each file's path is the name of a type.
ghost use Rattle.std.specs.Prelude.{◌≡◌, ◌≢◌, Ok, IfOk, IfErr};
ghost use Rattle.std.specs.List.{AllZip};
ghost use Rattle.dsdl_names.specs.Names.{file_name_of};
ghost use Rattle.dsdl_resolve.specs.Passes.{NameRefuses, IsFirst};
ghost use Rattle.dsdl_resolve.specs.Refusals.{IsRefusal};

use crate::at::at;
use crate::{DsdlError, DsdlWhy};
use cy_bits::List;
use dsdl_files::DsdlFile;
use dsdl_names::{FileName, NameError, parse_file_name};
use std::alloc::Global;

/// What the paths of the files say, or the first that is no name.
pub fn names_of(alloc: Global, files: &[DsdlFile]) -> Result<List<FileName>, DsdlError>
    ensures named { IfOk result (λ names. AllZip
        (λ file name. file_name_of file.path ≡ Ok name) files.now names) }
    ensures refused { IfErr result (IsRefusal (IsFirst NameRefuses files.now)) }
{
    let mut names = List::empty(alloc);
    for file in files {
        match parse_file_name(alloc, file.path.as_str()) {
            Ok(name) => names.push(name)?,
            Err(error) => return Err(refused(alloc, file, error)),
        }
    }
    Ok(names)
}

/// The refusal of a file whose path is no name.
fn refused(alloc: Global, file: &DsdlFile, error: NameError) -> DsdlError
    ensures { IsRefusal (λ path line why.
        (error ≢ NameError.NoMemory) × (path ≡ file.now.path) ×
        (line ≡ 0) × (why ≡ DsdlWhy.Name error)) result }
{
    match error {
        NameError::NoMemory => DsdlError::NoMemory,
        _ => at(alloc, file, 0, DsdlWhy::Name(error)),
    }
}
