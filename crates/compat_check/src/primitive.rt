ghost use Rattle.std.specs.Prelude.{◌≡◌};
ghost use Rattle.dsdl_types.specs.Views.{sch};
ghost use Rattle.compat_check.specs.Primitives.{same_simple, simple, simple_of};

use dsdl_types::{Cast, Schema};

/// A type without parts.
#[derive(Clone, Copy, PartialEq, Eq)]
enum Primitive {
    /// A truth value.
    Bool,
    /// An unsigned integer.
    Uint(u8, Cast),
    /// A signed integer.
    Int(u8),
    /// A floating-point number.
    Float(u8, Cast),
}

/// The primitive that a type is. Padding alone is an integer of no bits, as in the definitions.
fn primitive_of(schema: &Schema) -> Option<Primitive>
    ensures { simple_of result ≡ simple (sch schema.now) }
{
    match schema {
        Schema::Bool => Some(Primitive::Bool),
        Schema::Uint { bits, cast } => Some(Primitive::Uint(*bits, *cast)),
        Schema::Int { bits } => Some(Primitive::Int(*bits)),
        Schema::Float { bits, cast } => Some(Primitive::Float(*bits, *cast)),
        Schema::Void { .. } => Some(Primitive::Uint(0, Cast::Truncated)),
        _ => None,
    }
}

/// Whether two types are equal primitives.
pub fn same_primitives(a: &Schema, b: &Schema) -> bool
    ensures { result ≡ same_simple (simple (sch a.now)) (simple (sch b.now)) }
{
    match primitive_of(a) {
        Some(a) => primitive_of(b) == Some(a),
        None => false,
    }
}
