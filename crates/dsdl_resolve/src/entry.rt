//! Fields, paddings and constants.
ghost use Rattle.std.specs.Prelude.{◌≡◌, Some, IfOk, IfErr};
ghost use Rattle.const_expr.specs.Member.{IsScope};
ghost use Rattle.const_expr.specs.declared.scope.Scope.{Scope as ScopeOf};
ghost use Rattle.dsdl_parse.specs.declared.statement.Statement.TheVariants as statement;
ghost use Rattle.dsdl_resolve.specs.Additions.{IsStatementRefusal, Judges, Refuses};
ghost use Rattle.dsdl_resolve.specs.Places.{ArePlacesIn};
ghost use Rattle.dsdl_resolve.specs.Totals.{AreWithin};
ghost use Rattle.dsdl_resolve.specs.declared.values.Values.{Values as ValuesOf};

use crate::addition::{Addition, Judged, StatementError};
use crate::before::Before;
use crate::finding::Places;
use crate::form::type_of;
use crate::limits::{above_limit, size_refusal};
use crate::measure::measure_of;
use crate::naming::named_rule;
use crate::rules::{BEHIND_EXTENT, NOT_A_MESSAGE, PADDING_IN_UNION, WRONG_WIDTH};
use crate::typed::Counted;
use crate::why::DsdlWhy;
use crate::width::width_in;
use const_expr::{Const, Scope};
use dsdl_parse::Form;
use std::alloc::Global;

/// The refusal by a rule.
pub fn rule(number: u8) -> StatementError
    ensures { result ≡ StatementError.Refused (DsdlWhy.Rule number) }
{
    StatementError::Refused(DsdlWhy::Rule(number))
}

/// A field of a structure or a variant of a union.
pub fn judge_field(
    alloc: Global,
    scope: &Scope,
    places: &Places,
    before: &Before,
    form: &Form,
    name: &str,
    bound: &Option<Const>,
) -> Result<Judged, StatementError>
    requires scope { IsScope scope.now }
    requires places { ArePlacesIn scope.now places.now }
    requires within { AreWithin before.now.totals }
    ensures judged { IfOk result (λ j. (vs : ValuesOf) → vs.bound ≡ bound.now →
        Judges scope.now before.now (statement.Field form.now name.now) vs j) }
    ensures refused { IfErr result
        (IsStatementRefusal (λ why. (vs : ValuesOf) → vs.bound ≡ bound.now →
        Refuses scope.now before.now (statement.Field form.now name.now) vs why)) }
{
    if let Some(number) = named_rule(before, form, name, bound) {
        return Err(StatementError::Refused(DsdlWhy::Rule(number)));
    }
    let Some(found) = type_of(alloc, scope, places, form, bound)? else {
        return Err(StatementError::Refused(DsdlWhy::Rule(NOT_A_MESSAGE)));
    };
    let Counted { typed, counts } = found;
    let totals = before.totals.with_field(measure_of(&typed.schema, counts));
    match size_refusal(totals) {
        Some(why) => Err(StatementError::Refused(why)),
        None => Ok(Judged {
            addition: Addition::Field(typed),
            totals,
        }),
    }
}

/// Bits without a meaning.
pub fn judge_padding(before: &Before, digits: &str) -> Result<Judged, StatementError>
    requires { AreWithin before.now.totals }
    ensures judged { IfOk result (λ j. (scope : ScopeOf) (vs : ValuesOf) →
        Judges scope before.now (statement.Padding digits.now) vs j) }
    ensures refused { IfErr result (IsStatementRefusal (λ why.
        (scope : ScopeOf) (vs : ValuesOf) →
        Refuses scope before.now (statement.Padding digits.now) vs why)) }
{
    if before.standing.extent {
        return Err(rule(BEHIND_EXTENT));
    }
    if before.standing.union {
        return Err(rule(PADDING_IN_UNION));
    }
    let Some(bits) = width_in(1, digits.as_bytes()) else {
        return Err(rule(WRONG_WIDTH));
    };
    let totals = before.totals.with_padding(bits);
    match above_limit(totals.greatest()) {
        Some(why) => Err(StatementError::Refused(why)),
        None => Ok(Judged {
            addition: Addition::Padding(bits),
            totals,
        }),
    }
}
