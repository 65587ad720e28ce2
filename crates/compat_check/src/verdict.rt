ghost use Rattle.std.specs.Prelude.{◌≡◌, ◌↔◌, IfOk, OnErr};
ghost use Rattle.dsdl_types.specs.Difference.{difference};
ghost use Rattle.dsdl_types.specs.Newer.{Newer};
ghost use Rattle.dsdl_types.specs.Views.{sch};
ghost use Rattle.compat_check.specs.Verdicts.{verdict_of};

use crate::compare::difference;
use crate::difference::Difference;
use crate::path::path_text;
use cy_bits::{NoMemory, Text};
use dsdl_types::Schema;
use std::alloc::Global;

/// Why a type isn't newer than another (Cyphal Specification, section 3.8). At each place the first five
/// are looked for in this order. The last two are of a type in two namespaces, where the path is its
/// name: no comparison of two schemas answers them.
#[derive(Clone, Copy, PartialEq, Eq, Debug)]
pub enum CompatWhy {
    /// The kinds, widths, casts or array lengths differ.
    Kind,
    /// One alone is sealed.
    Sealing,
    /// The extents differ.
    Extent,
    /// Both are sealed and differ, names aside.
    Sealed,
    /// A structure has fewer fields than the old one, or a union another number of variants.
    Count,
    /// The new namespace doesn't have the type.
    Gone,
    /// The type has a fixed port in the old namespace, and another or none in the new one.
    Port,
}

/// Whether a type is newer than another (Cyphal Specification, section 3.8).
#[derive(Drop)]
pub enum Verdict {
    /// It is.
    Yes,
    /// It isn't.
    No {
        /// The first place where it fails, in the order of the old type's fields: names of the new type's
        /// fields with `.` between them, `[]` for the items of an array, `.` alone for the whole. Padding has
        /// the empty name.
        path: Text,
        /// Why it fails there.
        why: CompatWhy,
    },
}

/// Whether values of the new type can be read as the old one and the other way round (Cyphal
/// Specification, section 3.8). It never answers `Gone` or `Port`. It takes time that is linear in the schemas' sizes, and memory only
/// where the new type isn't newer, for the path.
pub fn newer(alloc: Global, new: &Schema, old: &Schema) -> Result<Verdict, NoMemory>
    ensures yes { IfOk result (λ v. (v ≡ Verdict.Yes) ↔ Newer (sch new.now) (sch old.now)) }
    ensures no { IfOk result (λ v. v ≡ verdict_of (difference (sch new.now) (sch old.now))) }
    ensures memory { OnErr result (Newer (sch new.now) (sch old.now) → ⊥) }
{
    match difference(alloc, new, old)? {
        None => Ok(Verdict::Yes),
        Some(found) => {
            let Difference { turns, cause } = found;
            let mut turns = turns.into_vec();
            turns.reverse();
            let path = path_text(alloc, &turns)?;
            let why = cause.why();
            Ok(Verdict::No { path, why })
        }
    }
}
