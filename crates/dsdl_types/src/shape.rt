ghost use Rattle.std.specs.Prelude.{◌≡◌, ℕ, ◌*◌, true};
ghost use Rattle.dsdl_types.specs.Schemas.{Sch, is_composite, extent_of};
ghost use Rattle.dsdl_types.specs.Rules.{IsSchema};
ghost use Rattle.dsdl_types.specs.Views.{sch};

use crate::Schema;

/// A composite type as its payloads are received (Cyphal Specification, section 3.4.5): its schema,
/// and to how many bytes they are cut. `laws::shape_laws` says what of a payload this keeps.
pub trait Shape {
    ghost shape: { Self → Sch };

    /// The extent in bytes. A longer payload is cut to it (Cyphal Specification, section 3.7.1).
    /// Takes no memory.
    fn extent_bytes(&self) -> usize
        ensures { 8 * result ≡ extent_of (shape self.now) };

    /// The schema. Takes no memory.
    fn schema(&self) -> &Schema
        ensures value { sch result.now ≡ shape self.now }
        ensures rules { IsSchema (shape self.now) }
        ensures composite { is_composite (shape self.now) ≡ true };
}
