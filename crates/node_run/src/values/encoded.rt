//! The texts of values of a type as the hex of their bytes.
ghost use Rattle.std.specs.Prelude.{◌≡◌, ◌≢◌, None};
ghost use Rattle.cy_outside.specs.Outside.{Rose};
ghost use Rattle.dsdl_types.specs.Definitions.{IsNamespace};
ghost use Rattle.value_lines.specs.Encoded.{Encodes};
ghost use Rattle.node_run.specs.NamedTypes.{message_named};
ghost use Rattle.node_run.specs.ValueLines.{flow, AreStreamed, AreTaken, HasAnsweredLines};

use crate::status::Status;
use crate::types::named::message;
use crate::values::ended::{bounds, status_of};
use cy_outside::{Sink, Source};
use dsdl_types::Namespace;
use line_loop::listen_lines;
use std::alloc::Global;
use value_lines::Encoder;

/// Writes of each line of the input, the text of a value of the type that a name stands for, the
/// hex of the value's bytes. The name is that of a message, or of a half of a service.
///
/// `NoFile` comes exactly where the namespace has no such message or half, and then nothing of the
/// input is taken. `Text` comes exactly where a line is the text of no value or has more than 2^20
/// bytes, with the first such line. `LogLong` comes exactly where the input has more than 2^28
/// bytes and no line before is refused. What answers the lines before is written.
pub fn encode<L: Source, O: Sink>(
    alloc: Global,
    names: &Namespace,
    name: &str,
    input: &mut L,
    out: &mut O,
) -> Status
    requires { IsNamespace names.now }
    ensures did { let told = flow (L.left input.old) (L.left input.new)
        (O.written out.old) (O.written out.new) in
        HasAnsweredLines Encodes (message_named names.now name.now) name.now result told }
    ensures taken { let told = flow (L.left input.old) (L.left input.new)
        (O.written out.old) (O.written out.new) in
        result ≡ Status.ReadFault → AreTaken Encodes (message_named names.now name.now) told }
    ensures streamed { let told = flow (L.left input.old) (L.left input.new)
        (O.written out.old) (O.written out.new) in
        AreStreamed Encodes (message_named names.now name.now) told }
    ensures untaken { message_named names.now name.now ≡ None → input.new ≡ input.old }
    ensures read { result ≡ Status.ReadFault → Rose (L.faults input.old) (L.faults input.new) }
    ensures write { result ≡ Status.WriteFault → Rose (O.faults out.old) (O.faults out.new) }
    ensures unread { result ≢ Status.ReadFault → L.faults input.new ≡ L.faults input.old }
    ensures unwritten { result ≢ Status.WriteFault → O.faults out.new ≡ O.faults out.old }
{
    let schema = match message(alloc, names, name) {
        Ok(schema) => schema,
        Err(status) => return status,
    };
    let mut encoder = Encoder::new(alloc, schema);
    status_of(listen_lines(alloc, &mut encoder, bounds(), input, out))
}
