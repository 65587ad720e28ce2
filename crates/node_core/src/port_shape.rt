ghost use Rattle.std.specs.Prelude.{◌≡◌, option_map};
ghost use Rattle.dsdl_types.specs.Views.{sch};
ghost use Rattle.node_core.specs.Shapes.{port_schema, port_type};

use crate::raw_shape::RawShape;
use dsdl_types::{Schema, Shape};
use report_lines::CompiledShape;

/// What the payloads of a port are.
#[derive(Drop)]
pub enum PortShape {
    /// Bytes: the port has no type.
    Raw(RawShape),
    /// Values of a message type.
    Compiled(CompiledShape),
}

impl Shape for PortShape {
    ghost shape = { port_schema };

    fn extent_bytes(&self) -> usize {
        match self {
            PortShape::Raw(raw) => raw.extent_bytes(),
            PortShape::Compiled(compiled) => compiled.extent_bytes(),
        }
    }

    fn schema(&self) -> &Schema {
        match self {
            PortShape::Raw(raw) => raw.schema(),
            PortShape::Compiled(compiled) => compiled.schema(),
        }
    }
}

impl PortShape {
    /// The type that payloads are read as, or `None` where they are bytes.
    #[inline(always)]
    pub fn compiled(&self) -> Option<&CompiledShape>
        ensures { option_map (λ shape. sch shape.now.schema) result ≡ port_type self.now }
    {
        match self {
            PortShape::Raw(_) => None,
            PortShape::Compiled(compiled) => Some(compiled),
        }
    }
}
