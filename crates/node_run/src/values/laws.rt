//! The law of lines of values.
ghost use Rattle.value_lines.specs.Decoded.{Decodes};
ghost use Rattle.value_lines.specs.Encoded.{Encodes};
ghost use Rattle.node_run.specs.ValueLines.{HasOneStatus};

use value_lines::laws::one_encoding;

/// Whatever a name stands for, answering an input comes to one status.
pub fn one_status()
    ensures encode { HasOneStatus Encodes }
    ensures decode { HasOneStatus Decodes }
{
    one_encoding();
}
