//! Whether what one definition stands for is newer than what another does.
ghost use Rattle.std.specs.Prelude.{◌≡◌, ◌↔◌, IfOk, OnErr};
ghost use Rattle.compat_check.specs.Services.{parts_verdict, AreNewer};

use compat_check::{Verdict, newer, other_kind, services_newer};
use cy_bits::NoMemory;
use dsdl_types::Parts;
use std::alloc::Global;

/// Whether what one definition stands for is newer than what another does. Of services the requests
/// are compared, and then the responses; the path of a difference then begins with `request` or
/// `response`. A message and a service are of other kinds. It takes memory only where the new one
/// isn't newer, for the path.
#[tactic(auto, using(compat_check::proofs::NewerParts::yes_is_newer))]
pub fn parts_newer(alloc: Global, new: &Parts, old: &Parts) -> Result<Verdict, NoMemory>
    ensures verdict { IfOk result (λ verdict. verdict ≡ parts_verdict new.now old.now) }
    ensures yes { (parts_verdict new.now old.now ≡ Verdict.Yes) ↔ AreNewer new.now old.now }
    ensures memory { OnErr result (AreNewer new.now old.now → ⊥) }
{
    match new {
        Parts::Message(schema) => match old {
            Parts::Message(older) => newer(alloc, schema, older),
            Parts::Service { .. } => other_kind(alloc),
        },
        Parts::Service { request, response } => match old {
            Parts::Service {
                request: older_request,
                response: older_response,
            } => services_newer(alloc, request, response, older_request, older_response),
            Parts::Message(_) => other_kind(alloc),
        },
    }
}
