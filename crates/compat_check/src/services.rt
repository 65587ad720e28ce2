//! Whether a service is newer than another.
ghost use Rattle.std.specs.Prelude.{◌≡◌, ◌↔◌, IfOk, OnErr, codes};
ghost use Rattle.dsdl_types.specs.Difference.{difference};
ghost use Rattle.dsdl_types.specs.Newer.{Newer};
ghost use Rattle.dsdl_types.specs.Views.{sch};
ghost use Rattle.dsdl_types.specs.declared.definition.Parts.TheVariants as parts;
ghost use Rattle.compat_check.specs.Services.{half_path, in_half, parts_verdict, AreNewer};
ghost use Rattle.compat_check.specs.Verdicts.{verdict_of};

use crate::verdict::{CompatWhy, Verdict, newer};
use cy_bits::{NoMemory, Text};
use dsdl_types::Schema;
use std::alloc::Global;

/// Whether a service is newer than another: the requests are compared, and then the responses. The
/// path of a difference begins with `request` or `response`. It takes memory only where the service
/// isn't newer, for the path.
pub fn services_newer(
    alloc: Global,
    request: &Schema,
    response: &Schema,
    older_request: &Schema,
    older_response: &Schema,
) -> Result<Verdict, NoMemory>
    ensures yes { let new = parts.Service request.now response.now in
        let old = parts.Service older_request.now older_response.now in
        IfOk result (λ v. (v ≡ Verdict.Yes) ↔ AreNewer new old) }
    ensures no { let new = parts.Service request.now response.now in
        let old = parts.Service older_request.now older_response.now in
        IfOk result (λ v. v ≡ parts_verdict new old) }
    ensures memory { let new = parts.Service request.now response.now in
        let old = parts.Service older_request.now older_response.now in
        OnErr result (AreNewer new old → ⊥) }
{
    match half_newer(alloc, "request", request, older_request)? {
        Verdict::Yes => half_newer(alloc, "response", response, older_response),
        Verdict::No { path, why } => Ok(Verdict::No { path, why }),
    }
}

/// The verdict on a message and a service, which are of other kinds.
pub fn other_kind(alloc: Global) -> Result<Verdict, NoMemory>
    ensures { IfOk result (λ v. v ≡ Verdict.No (codes ".") CompatWhy.Kind) }
{
    Ok(Verdict::No {
        path: Text::from_str(alloc, ".")?,
        why: CompatWhy::Kind,
    })
}

/// Whether a half of a service is newer than that of another.
fn half_newer(alloc: Global, half: &str, new: &Schema, old: &Schema) -> Result<Verdict, NoMemory>
    ensures yes { IfOk result (λ v. (v ≡ Verdict.Yes) ↔ Newer (sch new.now) (sch old.now)) }
    ensures no { IfOk result (λ v.
        v ≡ in_half half.now (verdict_of (difference (sch new.now) (sch old.now)))) }
    ensures memory { OnErr result (Newer (sch new.now) (sch old.now) → ⊥) }
{
    match newer(alloc, new, old)? {
        Verdict::Yes => Ok(Verdict::Yes),
        Verdict::No { path, why } => Ok(Verdict::No {
            path: half_path(alloc, half, path.as_str())?,
            why,
        }),
    }
}

/// The way to a part of a service's half.
fn half_path(alloc: Global, half: &str, path: &str) -> Result<Text, NoMemory>
    ensures { IfOk result (λ text. text ≡ half_path half.now path.now) }
{
    let mut text = String::from_str(alloc, half)?;
    if path != "." {
        text.push_str(".")?;
        text.push_str(path)?;
    }
    Ok(Text::new(text))
}
