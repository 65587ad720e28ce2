//! `---`, and the end of a file.
ghost use Rattle.std.specs.Prelude.{◌≡◌, List, Some, IfOk, IfErr};
ghost use Rattle.const_expr.specs.declared.scope.Scope.{Scope as ScopeOf};
ghost use Rattle.dsdl_parse.specs.declared.statement.Statement.{Statement};
ghost use Rattle.dsdl_parse.specs.declared.statement.Statement.TheVariants as statement;
ghost use Rattle.dsdl_resolve.specs.Additions.{IsStatementRefusal, Judges, Refuses};
ghost use Rattle.dsdl_resolve.specs.Rules.{has_too_few_variants, is_port_too_great, least, rules_at_end};
ghost use Rattle.dsdl_resolve.specs.Standing.{Stands};
ghost use Rattle.dsdl_resolve.specs.Totals.{AreWithin};
ghost use Rattle.dsdl_resolve.specs.declared.values.Values.{Values as ValuesOf};

use crate::addition::{Addition, Judged, StatementError};
use crate::before::Before;
use crate::entry::rule;
use crate::rules::{NO_ENDING, SECOND_SPLIT, SERVICE_PORT_TOO_GREAT, TOO_FEW_VARIANTS};
use crate::standing::Standing;

/// The greatest port of a service.
const GREATEST_SERVICE: u16 = 511;

/// Whether a section is a union with fewer than two variants.
fn has_too_few_variants(standing: Standing) -> bool
    ensures { (file section : List Statement) → Stands standing file section →
        result ≡ has_too_few_variants section }
{
    standing.union && standing.fields < 2
}

/// Whether a file is a service with a port above 511.
fn is_port_too_great(port: Option<u16>, standing: Standing) -> bool
    ensures { (file section : List Statement) → Stands standing file section →
        result ≡ is_port_too_great port file }
{
    match port {
        Some(port) => port > GREATEST_SERVICE && standing.split,
        None => false,
    }
}

/// `---`.
pub fn judge_split(before: &Before) -> Result<Judged, StatementError>
    requires { AreWithin before.now.totals }
    ensures judged { IfOk result (λ j. (scope : ScopeOf) (vs : ValuesOf) →
        Judges scope before.now statement.Split vs j) }
    ensures refused { IfErr result (IsStatementRefusal (λ why.
        (scope : ScopeOf) (vs : ValuesOf) → Refuses scope before.now statement.Split vs why)) }
{
    let standing = before.standing;
    if standing.split {
        return Err(rule(SECOND_SPLIT));
    }
    if !standing.sealing {
        return Err(rule(NO_ENDING));
    }
    if has_too_few_variants(standing) {
        return Err(rule(TOO_FEW_VARIANTS));
    }
    Ok(Judged {
        addition: Addition::Nothing,
        totals: before.totals,
    })
}

/// The least rule that a file with a port breaks at its end.
pub fn end_rule(port: Option<u16>, standing: Standing) -> Option<u8>
    ensures { (file section : List Statement) → Stands standing file section →
        result ≡ least (rules_at_end port file section) }
{
    if !standing.sealing {
        return Some(NO_ENDING);
    }
    if has_too_few_variants(standing) {
        return Some(TOO_FEW_VARIANTS);
    }
    if is_port_too_great(port, standing) {
        return Some(SERVICE_PORT_TOO_GREAT);
    }
    None
}
