ghost use Rattle.std.specs.Prelude.{◌≡◌, ◌*◌, true, Some, IfOk};
ghost use Rattle.dsdl_types.specs.Fits.{Fits};
ghost use Rattle.dsdl_types.specs.OneWay.{schema_prop};
ghost use Rattle.dsdl_types.specs.Rules.{IsSchema};
ghost use Rattle.dsdl_types.specs.Schemas.{is_composite};
ghost use Rattle.dsdl_types.specs.Views.{sch, val};
ghost use Rattle.value_text.specs.Texts.{value_text};
ghost use Rattle.report_lines.specs.Readings.{reading_of};
ghost use Rattle.report_lines.specs.declared.line.Reading.TheVariants.{Good};

use crate::line::Reading;
use cy_bits::NoMemory;
use dsdl_types::laws::{readings_stored, rules_suffice, same_values};
use dsdl_types::{Schema, Shape, Value};
use std::alloc::Global;
use value_text::print_value;
use wire_values::{ReadError, read_as};

/// A message type of a namespace, as its payloads are received.
#[derive(Drop)]
pub struct CompiledShape {
    /// A structure or a union that keeps the rules.
    pub schema: Schema,
    pub ghost rules: { IsSchema (sch schema) } by { schema_prop (sch schema) },
    pub ghost composite: { is_composite (sch schema) ≡ true },
}

impl Shape for CompiledShape {
    ghost shape = { λ compiled. sch compiled.schema };

    fn extent_bytes(&self) -> usize {
        self.schema.extent_bytes()
    }

    fn schema(&self) -> &Schema {
        &self.schema
    }
}

impl CompiledShape {
    /// What a payload says, of which the bytes up to the extent are read (Cyphal Specification,
    /// section 3.7). The one error is want of memory.
    pub fn reading(&self, alloc: Global, payload: &[u8]) -> Result<Reading, NoMemory>
        ensures { IfOk result (λ reading.
            reading ≡ reading_of (Some (sch self.now.schema)) payload.now) }
    {
        rules_suffice();
        readings_stored();
        same_values();
        let kept = &payload[..payload.len().min(self.extent_bytes())];
        match read_as(alloc, &self.schema, kept) {
            Ok(value) => self.good(alloc, value),
            Err(ReadError::Bad { path, why }) => Ok(Reading::Bad { path, why }),
            Err(ReadError::NoMemory) => Err(NoMemory),
        }
    }

    /// A value with its text.
    fn good(&self, alloc: Global, value: Value) -> Result<Reading, NoMemory>
        requires { Fits (sch self.now.schema) (val value) }
        ensures { IfOk result (λ reading.
            reading ≡ Good value (value_text (sch self.now.schema) (val value))) }
    {
        let text = print_value(alloc, &self.schema, &value)?;
        Ok(Reading::Good { value, text })
    }
}
