ghost use Rattle.std.specs.Prelude.{◌≡◌, ℕ, true, Err, IfOk};
ghost use Rattle.dsdl_types.specs.Schemas.{is_composite};
ghost use Rattle.dsdl_types.specs.Rules.{IsSchema};
ghost use Rattle.dsdl_types.specs.Views.{sch};
ghost use Rattle.layout.specs.Layouts.{IsLayout};
ghost use Rattle.layout.specs.declared.error.LayoutError.TheVariants.{Long};

use crate::composite::{Composite, rows_of};
use crate::{Layout, LayoutError};
use cy_bits::{NoMemory, TryCopy};
use dsdl_types::Schema;
use std::alloc::Global;

/// The rows and the lengths of a structure or a union that keeps the rules (Cyphal Specification,
/// section 3.7.5), without a copy of its schema.
pub fn composite_of(alloc: Global, schema: &Schema) -> Result<Composite, NoMemory>
    requires rules { IsSchema (sch schema.now) }
    requires composite { is_composite (sch schema.now) ≡ true }
    ensures { IfOk result (λ c. IsLayout (sch schema.now) c.rows c.lengths) }
{
    rows_of(alloc, schema)
}

/// The layout of a structure or a union that keeps the rules: where each field can stand, which
/// lengths it and the whole can have (Cyphal Specification, section 3.7), and an equal schema. No
/// length is above 2^32 bits, so `Long` never comes.
pub fn layout_of(alloc: Global, schema: &Schema) -> Result<Layout, LayoutError>
    requires rules { IsSchema (sch schema.now) }
    requires composite { is_composite (sch schema.now) ≡ true }
    ensures layout { IfOk result (λ l. IsLayout (sch schema.now) l.rows l.lengths) }
    ensures schema { IfOk result (λ l. l.schema ≡ schema.now) }
    ensures never_long { (greatest : ℕ) → ¬ (result ≡ Err (Long greatest)) }
{
    let Composite { rows, lengths } = composite_of(alloc, schema)?;
    Ok(Layout {
        rows,
        lengths,
        schema: schema.copy(alloc)?,
    })
}
