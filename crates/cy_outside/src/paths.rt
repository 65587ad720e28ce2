ghost use Rattle.std.specs.Prelude.{◌≡◌, ◌↔◌, IsTrue, is_some};
ghost use Rattle.std.specs.Option.{option_copied};
ghost use Rattle.std.specs.List.{Any};
ghost use Rattle.cy_outside.specs.Files.{rest_in, first_name};

use crate::Entry;

/// What stands in a path behind a folder's path and `/`, where it stands in the folder.
pub fn rest_in<'a>(folder: &str, path: &'a str) -> Option<&'a str>
    ensures { option_copied result ≡ rest_in folder.now path.now }
{
    match path.strip_prefix(folder) {
        Some(rest) => rest.strip_prefix('/'),
        None => None,
    }
}

/// Whether a path stands in a folder, or below one of its folders.
pub fn is_below(folder: &str, path: &str) -> bool
    ensures { result ≡ is_some (rest_in folder.now path.now) }
{
    rest_in(folder, path).is_some()
}

/// The first name of a path, and whether another follows.
pub fn first_name(path: &str) -> (&str, bool)
    ensures name { result.0.now ≡ (first_name path.now).name }
    ensures folder { result.1 ≡ (first_name path.now).folder }
{
    match path.split_once('/') {
        Some((name, _)) => (name, true),
        None => (path, false),
    }
}

/// Whether an entry has this name.
pub fn has_name(entries: &[Entry], name: &str) -> bool
    ensures { IsTrue result ↔ Any (λ entry. entry.name ≡ name.now) entries.now }
{
    entries.iter().any(|entry| entry.name.as_str() == name)
}
