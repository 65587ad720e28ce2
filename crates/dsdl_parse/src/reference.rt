//! The references that tokens are (Cyphal Specification, section 3.2).
ghost use Rattle.std.specs.Prelude.{◌≡◌, ◌≤◌, ◌++◌, ◌∷◌, [], true, length, map, IfOk, Some};
ghost use Rattle.std.specs.List.{All};
ghost use Rattle.dsdl_lex.specs.Texts.{IsReference, is_name, is_version, number_of};
ghost use Rattle.dsdl_parse.specs.LeafReading.{parts_of, reference_of};

use crate::expr::Reference;
use cy_bits::{List, NoMemory, Text};
use std::alloc::{AllocError, Global};

/// The parts of a text between its points.
fn parts_of(alloc: Global, text: &[u8]) -> Result<Vec<&[u8]>, AllocError>
    ensures { IfOk result (λ parts. map (λ x. x.now) parts.items ≡ parts_of text.now) }
{
    text.split(|b| *b == b'.').collect(alloc)
}

/// Names as texts of their own.
fn texts_of(alloc: Global, names: &[&[u8]]) -> Result<List<Text>, NoMemory>
    requires { All (λ x. is_name x.now ≡ true) names.now }
    ensures { IfOk result (λ texts. texts ≡ map (λ x. x.now) names.now) }
{
    let mut texts = List::empty(alloc);
    for name in names {
        texts.push(Text::from_ascii(alloc, name)?)?;
    }
    Ok(texts)
}

/// The names, the major and the minor number of a version that are the parts of a reference.
fn split_version<'a>(parts: &'a [&'a [u8]]) -> (&'a [&'a [u8]], &'a [u8], &'a [u8])
    requires { 2 ≤ length parts.now }
    ensures { parts.now ≡ result.0.now ++ result.1 ∷ result.2 ∷ [] }
{
    let (minor, front) = parts.split_last().unwrap();
    let (major, names) = front.split_last().unwrap();
    (names, major, minor)
}

/// The number of a part of a version.
#[tactic(auto, using(crate::proofs::Versions::next_digit, crate::proofs::Versions::all_left))]
fn version(digits: &[u8]) -> u8
    requires { is_version digits.now ≡ true }
    ensures { result ≡ number_of digits.now }
{
    let mut number = 0;
    for b in digits {
        number = number * 10 + (*b - b'0');
    }
    number
}

/// The names and the version of a reference.
pub fn reference_of(alloc: Global, text: &[u8]) -> Result<Reference, NoMemory>
    requires { IsReference text.now }
    ensures { IfOk result (λ r. reference_of text.now ≡ Some r) }
{
    let parts = parts_of(alloc, text)?;
    let (names, major, minor) = split_version(&parts);
    Ok(Reference {
        names: texts_of(alloc, names)?,
        major: version(major),
        minor: version(minor),
    })
}
