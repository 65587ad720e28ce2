//! The law of lines of values.
ghost use Rattle.dsdl_types.specs.Rules.{IsSchema};
ghost use Rattle.dsdl_types.specs.Schemas.{Sch};
ghost use Rattle.value_lines.specs.Encoded.{HasOneEncoding};

use value_text::laws::one_value;

/// No line has two answers.
pub fn one_encoding()
    ensures { (s : Sch) → IsSchema s → HasOneEncoding s }
{
    one_value();
}
