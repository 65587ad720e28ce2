ghost use Rattle.std.specs.Prelude.{◌≡◌};
ghost use Rattle.dsdl_types.specs.Rules.{IsFormed};
ghost use Rattle.dsdl_types.specs.Views.{sch};
ghost use Rattle.layout.specs.Layouts.{cast_of};

use bit_length::LengthSet;
use cy_bits::Text;
use dsdl_types::{Cast, Schema};

/// What is known of a field of a structure or a variant of a union (Cyphal Specification,
/// section 3.7), before any value is.
#[derive(Drop)]
pub struct Row {
    /// Its name.
    pub name: Text,
    /// Where it can stand, in bits from the beginning of the composite.
    pub offsets: LengthSet,
    /// Which lengths it can have, in bits. Those of a delimited type count its delimiter header
    /// (Cyphal Specification, section 3.7.5).
    pub lengths: LengthSet,
    /// What is done to a number that the type doesn't hold (Cyphal Specification, section 3.4.3):
    /// of an unsigned integer or a float, or of an array of such. All other types have none.
    pub cast: Option<Cast>,
}

/// The cast of an unsigned integer or a float (Cyphal Specification, section 3.4.3), or of an array
/// of such.
pub fn cast_of(schema: &Schema) -> Option<Cast>
    requires { IsFormed (sch schema.now) }
    ensures { result ≡ cast_of (sch schema.now) }
{
    match schema {
        Schema::Uint { cast, .. } | Schema::Float { cast, .. } => Some(*cast),
        Schema::Fixed { item, .. } | Schema::Var { item, .. } => cast_of(item.get()),
        Schema::Bool | Schema::Int { .. } | Schema::Struct(_) | Schema::Union(_) => None,
        Schema::Void { .. } => unreachable!(),
    }
}
