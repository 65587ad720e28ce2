//! The hex of bytes as the texts of the values of a type that they read as.
ghost use Rattle.std.specs.Prelude.{◌≡◌, ◌≢◌, None};
ghost use Rattle.cy_outside.specs.Outside.{Rose};
ghost use Rattle.dsdl_types.specs.Definitions.{IsNamespace};
ghost use Rattle.value_lines.specs.Decoded.{Decodes};
ghost use Rattle.node_run.specs.NamedTypes.{message_named};
ghost use Rattle.node_run.specs.ValueLines.{flow, AreStreamed, AreTaken, HasAnsweredLines};

use crate::status::Status;
use crate::types::named::message;
use crate::values::ended::{bounds, status_of};
use cy_outside::{Sink, Source};
use dsdl_types::Namespace;
use line_loop::listen_lines;
use std::alloc::Global;
use value_lines::Decoder;

/// Writes of each line of the input, the hex of bytes, the text of the value of the type that a
/// name stands for that they read as. The name is that of a message, or of a half of a service.
///
/// `NoFile` comes exactly where the namespace has no such message or half, and then nothing of the
/// input is taken. `Text` comes exactly where the first line that is refused is no hex or has more
/// than 2^20 bytes, and `Unreadable` where it is the hex of bytes that can't be read. `LogLong`
/// comes exactly where the input has more than 2^28 bytes and no line before is refused. What
/// answers the lines before is written.
pub fn decode<L: Source, O: Sink>(
    alloc: Global,
    names: &Namespace,
    name: &str,
    input: &mut L,
    out: &mut O,
) -> Status
    requires { IsNamespace names.now }
    ensures did { let told = flow (L.left input.old) (L.left input.new)
        (O.written out.old) (O.written out.new) in
        HasAnsweredLines Decodes (message_named names.now name.now) name.now result told }
    ensures taken { let told = flow (L.left input.old) (L.left input.new)
        (O.written out.old) (O.written out.new) in
        result ≡ Status.ReadFault → AreTaken Decodes (message_named names.now name.now) told }
    ensures streamed { let told = flow (L.left input.old) (L.left input.new)
        (O.written out.old) (O.written out.new) in
        AreStreamed Decodes (message_named names.now name.now) told }
    ensures untaken { message_named names.now name.now ≡ None → input.new ≡ input.old }
    ensures read { result ≡ Status.ReadFault → Rose (L.faults input.old) (L.faults input.new) }
    ensures write { result ≡ Status.WriteFault → Rose (O.faults out.old) (O.faults out.new) }
    ensures unread { result ≢ Status.ReadFault → L.faults input.new ≡ L.faults input.old }
    ensures unwritten { result ≢ Status.WriteFault → O.faults out.new ≡ O.faults out.old }
{
    let schema = match message(alloc, names, name) {
        Ok(schema) => schema,
        Err(status) => return status,
    };
    let mut decoder = Decoder::new(alloc, schema);
    status_of(listen_lines(alloc, &mut decoder, bounds(), input, out))
}
