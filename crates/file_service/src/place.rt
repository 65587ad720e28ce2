//! Where a path stands below the root.
ghost use Rattle.std.specs.Prelude.{◌≡◌, ◌++◌, ◌∷◌, true, IfOk, OnErr};
ghost use Rattle.std.specs.List.{list_all};
ghost use Rattle.file_service.specs.Causes.{IsKnown};
ghost use Rattle.file_service.specs.Paths.{is_legal, is_name, is_printable, parts_of, place_of, without_slash};

use cy_bits::{NoMemory, Text};
use std::alloc::Global;

/// Where a path stands.
#[derive(Drop)]
pub enum Place {
    /// Nowhere: the path is invalid.
    Invalid,
    /// At the root itself.
    Root,
    /// At this path of the tree, below the root.
    At(Text),
}

/// Where a path stands below a root. Memory is never wanting for an invalid path, nor for the root.
pub fn place_of(alloc: Global, root: &str, path: &[u8]) -> Result<Place, NoMemory>
    ensures place { IfOk result (λ place. place ≡ place_of root.now path.now) }
    ensures memory { OnErr result (IsKnown (place_of root.now path.now) → ⊥) }
{
    let path = without_slash(path);
    if path.is_empty() {
        return Ok(Place::Root);
    }
    if !is_legal(path) {
        return Ok(Place::Invalid);
    }
    Ok(Place::At(joined(alloc, root, path)?))
}

/// A path without one leading slash.
fn without_slash(path: &[u8]) -> &[u8]
    ensures { result.now ≡ without_slash path.now }
{
    match path {
        [b'/', rest @ ..] => rest,
        _ => path,
    }
}

/// Whether a path that isn't empty is of printable bytes, and each of its names names a member.
fn is_legal(path: &[u8]) -> bool
    ensures { result ≡ is_legal path.now }
{
    is_printable(path) && path.split(|b| *b == b'/').all(|name| is_name(name))
}

/// Whether each of these bytes is 20 to 7E hex.
pub fn is_printable(bytes: &[u8]) -> bool
    ensures { result ≡ list_all is_printable bytes.now }
{
    bytes.iter().all(|b| 32 <= *b && *b <= 126)
}

/// Whether a name isn't empty, nor `.`, nor `..`.
fn is_name(name: &[u8]) -> bool
    ensures { result ≡ is_name name.now }
{
    !(name.is_empty() || name == b".".as_slice() || name == b"..".as_slice())
}

/// The path of the tree at which a legal path stands below a root.
fn joined(alloc: Global, root: &str, path: &[u8]) -> Result<Text, NoMemory>
    requires { list_all is_printable path.now ≡ true }
    ensures { IfOk result (λ text. text ≡ root.now ++ 47 ∷ path.now) }
{
    let mut text = String::from_str(alloc, root)?;
    text.push('/')?;
    text.push_str(std::str::from_utf8(path).unwrap())?;
    Ok(Text::new(text))
}
