ghost use Rattle.std.specs.Prelude.{◌≤◌, ◌*◌, ◌^◌, length};
ghost use Rattle.dsdl_types.specs.Fits.{Fits};
ghost use Rattle.dsdl_types.specs.Greatest.{longest};
ghost use Rattle.dsdl_types.specs.Rules.{IsSchema};
ghost use Rattle.dsdl_types.specs.Views.{sch, val};
ghost use Rattle.wire_values.specs.Results.{IsWritten};

use crate::clear::clear_from;
use crate::writer::write_own;
use cy_bits::BitWriter;
use dsdl_types::{Schema, Value};

/// Writes the serialized form of a value that is one of the schema in front of a buffer that has
/// room for the greatest one, with zeros behind, and answers the number of its bytes (Cyphal
/// Specification, section 3.7). A saturated number is brought to the nearest end of its range, and
/// a truncated one keeps its low bits.
pub fn write_fitting(schema: &Schema, value: &Value, out: &mut [u8]) -> usize
    requires rules { IsSchema (sch schema.now) }
    requires fits { Fits (sch schema.now) (val value.now) }
    requires room { longest (sch schema.now) ≤ 8 * length out.old }
    requires small { length out.old ≤ 2 ^ 37 }
    ensures { IsWritten (sch schema.now) (val value.now) result out.new }
{
    let mut to = BitWriter::new();
    write_own(schema, value, out, &mut to);
    to.align(out);
    let len = (to.place / 8) as usize;
    clear_from(out, len);
    len
}
