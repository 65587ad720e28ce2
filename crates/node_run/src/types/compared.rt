//! Whether one type of a namespace is newer than another.
ghost use Rattle.std.specs.Prelude.{◌≡◌, ◌≢◌, ◌↔◌, IfOk};
ghost use Rattle.cy_outside.specs.Outside.{Rose};
ghost use Rattle.dsdl_types.specs.Definitions.{IsNamespace};
ghost use Rattle.compat_check.specs.Services.{parts_verdict};
ghost use Rattle.node_run.specs.NamedTypes.{parts_of};
ghost use Rattle.node_run.specs.Compared.{compared, HasCompared, IsNewer};

use crate::status::Status;
use crate::types::named::{NamedParts, found};
use compat_check::{Verdict, newer, other_kind, services_newer};
use cy_bits::NoMemory;
use cy_outside::{Sink, put_all};
use dsdl_types::Namespace;
use std::alloc::Global;

/// Writes `newer` where what the name `new` stands for in a namespace is newer than what `old`
/// does: each is a message, a service, or a half of a service, which counts as a message. Of
/// services the requests are compared, and then the responses. Else nothing is written.
///
/// `NoFile` comes exactly where the namespace hasn't got one of the names, the new one before the
/// old one, and `NotNewer` exactly where the one isn't newer, with the first difference. Where it
/// is newer, each reads what the other sends.
#[tactic(auto, using(crate::proofs::Newer::compared_newer))]
pub fn compat<O: Sink>(
    alloc: Global,
    names: &Namespace,
    new: &str,
    old: &str,
    out: &mut O,
) -> Status
    requires { IsNamespace names.now }
    ensures compared { HasCompared names.now new.now old.now result
        (O.written out.old) (O.written out.new) }
    ensures newer { (compared names.now new.now old.now ≡ Status.Ok)
        ↔ IsNewer names.now new.now old.now }
    ensures write { result ≡ Status.WriteFault → Rose (O.faults out.old) (O.faults out.new) }
    ensures unwritten { result ≢ Status.WriteFault → O.faults out.new ≡ O.faults out.old }
{
    let new_type = match found(alloc, names, new) {
        Ok(found) => found,
        Err(status) => return status,
    };
    let old_type = match found(alloc, names, old) {
        Ok(found) => found,
        Err(status) => return status,
    };
    match verdict(alloc, new_type, old_type) {
        Ok(Verdict::Yes) => {}
        Ok(Verdict::No { path, why }) => return Status::NotNewer { path, why },
        Err(_) => return Status::NoMemory,
    }
    let Ok(()) = put_all(out, b"newer\n") else {
        return Status::WriteFault;
    };
    Status::Ok
}

/// Whether what a name stands for is newer than what another does.
fn verdict(alloc: Global, new: NamedParts<'_>, old: NamedParts<'_>) -> Result<Verdict, NoMemory>
    ensures { IfOk result (λ verdict.
        verdict ≡ parts_verdict (parts_of new.entry) (parts_of old.entry)) }
{
    match new {
        NamedParts::Message(schema) => match old {
            NamedParts::Message(older) => newer(alloc, schema, older),
            NamedParts::Service { .. } => other_kind(alloc),
        },
        NamedParts::Service { request, response } => match old {
            NamedParts::Service {
                request: older_request,
                response: older_response,
            } => services_newer(alloc, request, response, older_request, older_response),
            NamedParts::Message(_) => other_kind(alloc),
        },
    }
}
