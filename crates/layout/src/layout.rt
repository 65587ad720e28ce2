ghost use Rattle.std.specs.Prelude.{◌≡◌, true};
ghost use Rattle.dsdl_types.specs.Schemas.{is_composite};
ghost use Rattle.dsdl_types.specs.Rules.{IsSchema};
ghost use Rattle.dsdl_types.specs.Views.{sch};
ghost use Rattle.dsdl_types.specs.OneWay.{schema_prop};

use crate::row::Row;
use bit_length::LengthSet;
use cy_bits::List;
use dsdl_types::{Schema, Shape};

/// The layout of a composite (Cyphal Specification, section 3.7): where its fields can stand, and
/// which lengths they and the whole can have.
#[derive(Drop)]
pub struct Layout {
    /// A row for each field or variant that isn't padding, in order.
    pub rows: List<Row>,
    /// Which lengths a value's serialized form can have, in bits, without a delimiter header.
    pub lengths: LengthSet,
    /// The schema.
    pub schema: Schema,
    pub ghost rules: { IsSchema (sch schema) } by { schema_prop (sch schema) },
    pub ghost composite: { is_composite (sch schema) ≡ true },
}

impl Shape for Layout {
    ghost shape = { λ layout. sch layout.schema };

    fn extent_bytes(&self) -> usize {
        self.schema.extent_bytes()
    }

    fn schema(&self) -> &Schema {
        &self.schema
    }
}
