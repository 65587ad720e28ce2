//! The types that references mean (Cyphal Specification, section 3.4.5).
ghost use Rattle.std.specs.Prelude.{◌≡◌, ◌++◌, ◌∷◌, IfOk};
ghost use Rattle.dsdl_names.specs.Parts.{cut_last, dotted};
ghost use Rattle.dsdl_names.specs.Beside.{beside, in_namespace};

use crate::FullName;
use crate::parts::cut_last;
use cy_bits::{Bytes, NoMemory, Text};
use std::alloc::Global;

impl FullName {
    /// The full name that the names of a reference mean in the definition of this type: a short
    /// name alone is one of the type's own namespace, and no name means none.
    pub fn beside(&self, alloc: Global, names: &[Text]) -> Result<Option<FullName>, NoMemory>
        ensures { IfOk result (λ name. name ≡ beside self.now names.now) }
    {
        match names {
            [] => Ok(None),
            [short] => Ok(Some(in_namespace(alloc, self, short.as_str().as_bytes())?)),
            [first, second, names @ ..] => Ok(Some(joined(alloc, first, second, names)?)),
        }
    }
}

/// A short name in the namespace of a type.
fn in_namespace(alloc: Global, own: &FullName, short: &[u8]) -> Result<FullName, NoMemory>
    ensures { IfOk result (λ name. name ≡ in_namespace (cut_last 46 own.now) short.now) }
{
    match cut_last(b'.', own.as_bytes()) {
        Some((namespace, _)) => extended(alloc, namespace, short),
        None => unreachable!(),
    }
}

/// A namespace with a point and a name behind it.
#[tactic(auto, using(std::proofs::Common::append_assoc))]
fn extended(alloc: Global, namespace: &[u8], short: &[u8]) -> Result<FullName, NoMemory>
    ensures { IfOk result (λ name. name ≡ namespace.now ++ 46 ∷ short.now) }
{
    let mut name = Bytes::from_slice(alloc, namespace)?;
    name.extend(b".")?;
    name.extend(short)?;
    Ok(FullName::new(name))
}

/// Two names or more, with a point between each two.
fn joined(alloc: Global, first: &Text, second: &Text, names: &[Text]) -> Result<FullName, NoMemory>
    ensures { IfOk result (λ name. name ≡ dotted (first.now ∷ second.now ∷ names.now)) }
{
    let mut name = Bytes::from_slice(alloc, first.as_str().as_bytes())?;
    name.extend(b".")?;
    name.extend(second.as_str().as_bytes())?;
    for next in names {
        name.extend(b".")?;
        name.extend(next.as_str().as_bytes())?;
    }
    Ok(FullName::new(name))
}
