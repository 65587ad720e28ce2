//! Cutting texts into parts, and joining parts to a dotted name.
ghost use Rattle.std.specs.Prelude.{◌≡◌, ◌<◌, ◌≤◌, ◌∷◌, ◌++◌, [], length, map, MatchOption, IfOk};
ghost use Rattle.dsdl_names.specs.Parts.{parts_of, cut_last, dotted, point_for};

use crate::FullName;
use cy_bits::{Bytes, NoMemory};
use std::alloc::{AllocError, Global};

/// What stands before the first byte `b`, and behind it.
pub fn cut(b: u8, text: &[u8]) -> Option<(&[u8], &[u8])>
    ensures parts { MatchOption result (parts_of b text.now ≡ text.now ∷ [])
        (λ p. parts_of b text.now ≡ p.0.now ∷ parts_of b p.1.now) }
    ensures shorter { MatchOption result (0 ≤ length text.now)
        (λ p. length p.1.now < length text.now) }
{
    for i in 0..text.len() {
        if text[i] == b {
            return Some((&text[..i], &text[i + 1..]));
        }
    }
    None
}

/// What stands before the last byte `b`, and behind it.
pub fn cut_last(b: u8, text: &[u8]) -> Option<(&[u8], &[u8])>
    ensures { MatchOption result (cut_last b text.now ≡ None)
        (λ p. cut_last b text.now ≡ Some (p.0.now, p.1.now)) }
{
    let mut i = text.len();
    while i > 0 {
        i -= 1;
        if text[i] == b {
            return Some((&text[..i], &text[i + 1..]));
        }
    }
    None
}

fn point_for(b: u8, x: u8) -> u8
    ensures { result ≡ point_for b x }
{
    if x == b { b'.' } else { x }
}

/// A text with a point in place of each byte `b`.
fn turned(alloc: Global, b: u8, text: &[u8]) -> Result<Vec<u8>, AllocError>
    ensures { IfOk result (λ v. v.items ≡ map (point_for b) text.now) }
{
    text.iter().map(|x| point_for(b, *x)).collect(alloc)
}

/// That text with a point and a short name behind it.
#[tactic(auto, using(std::proofs::Common::append_assoc))]
fn extended(alloc: Global, b: u8, folders: &[u8], short: &[u8]) -> Result<Vec<u8>, NoMemory>
    ensures { IfOk result (λ v. v.items ≡ map (point_for b) folders.now ++ 46 ∷ short.now) }
{
    let mut name = turned(alloc, b, folders)?;
    name.push(b'.')?;
    name.extend_from_slice(short)?;
    Ok(name)
}

/// The dotted name of folders, with the byte `b` between each two, and a short name.
#[tactic(auto, using(crate::proofs::PartLemmas::two_names, crate::proofs::PartLemmas::dotted_parts))]
pub fn joined(alloc: Global, b: u8, folders: &[u8], short: &[u8]) -> Result<FullName, NoMemory>
    ensures { IfOk result (λ name. name ≡ dotted (parts_of b folders.now ++ short.now ∷ [])) }
{
    let name = extended(alloc, b, folders, short)?;
    Ok(FullName::new(Bytes::new(name)))
}
