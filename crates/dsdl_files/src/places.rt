ghost use Rattle.std.specs.Prelude.{◌≡◌, ◌++◌, ◌∷◌, string_bytes, IfOk};
ghost use Rattle.std.specs.Option.{option_copied};
ghost use Rattle.cy_outside.specs.Files.{rest_in};
ghost use Rattle.dsdl_files.specs.Folders.{name_below, is_dsdl};

use cy_bits::NoMemory;
use std::alloc::Global;

/// A path as it is named below the root, which is `.` itself.
pub fn name_below<'a>(root: &str, path: &'a str) -> &'a str
    ensures { result.now ≡ name_below root.now path.now }
{
    match rest_in(root, path) {
        Some(rest) => rest,
        None => ".",
    }
}

/// What stands in a path behind a folder's path and `/`, where it stands in the folder.
fn rest_in<'a>(folder: &str, path: &'a str) -> Option<&'a str>
    ensures { option_copied result ≡ rest_in folder.now path.now }
{
    match path.strip_prefix(folder) {
        Some(rest) => rest.strip_prefix('/'),
        None => None,
    }
}

/// The path of a folder's direct member.
pub fn inside(alloc: Global, folder: &str, name: &str) -> Result<String, NoMemory>
    ensures { IfOk result (λ path. string_bytes path ≡ folder.now ++ 47 ∷ name.now) }
{
    let mut path = String::with_capacity(alloc, folder.len() + 1 + name.len())?;
    path.push_str(folder)?;
    path.push_str("/")?;
    path.push_str(name)?;
    Ok(path)
}

/// Whether a path is that of a file that is compiled.
pub fn is_dsdl(path: &str) -> bool
    ensures { result ≡ is_dsdl path.now }
{
    path.ends_with(".dsdl")
}
