//! Directives.
ghost use Rattle.std.specs.Prelude.{◌≡◌, ◌∷◌, [], ℕ, Some, None, IfOk, IfErr, is_some, if◌then◌else◌, Option as OptionOf};
ghost use Rattle.const_expr.specs.declared.scope.Scope.{Scope as ScopeOf};
ghost use Rattle.dsdl_parse.specs.declared.expr.Expr.{Expr};
ghost use Rattle.dsdl_parse.specs.declared.statement.Statement.TheVariants as statement;
ghost use Rattle.dsdl_resolve.specs.Additions.{IsBefore, IsStatementRefusal, Judges, Refuses};
ghost use Rattle.dsdl_resolve.specs.Judged.{if_false, long_extent};
ghost use Rattle.dsdl_resolve.specs.Place.{Place};
ghost use Rattle.dsdl_resolve.specs.Rules.{directive_rules, is_extent_too_small, is_no_truth, least};
ghost use Rattle.dsdl_resolve.specs.Said.{Said, greatest};
ghost use Rattle.dsdl_resolve.specs.Totals.{AreWithin};
ghost use Rattle.dsdl_resolve.specs.Values.{natural_of};
ghost use Rattle.dsdl_resolve.specs.declared.values.Values.{Values as ValuesOf};

use crate::addition::{Addition, Judged, StatementError};
use crate::before::Before;
use crate::entry::rule;
use crate::rules::{
    ASSERT_NOT_TRUTH, EXTENT_TOO_SMALL, LATE_DEPRECATED, LATE_UNION, MISPLACED_EXPRESSION,
    SECOND_ENDING, UNKNOWN_DIRECTIVE,
};
use crate::totals::Totals;
use crate::why::DsdlWhy;
use const_expr::Const;

/// The greatest extent in bits.
const LONGEST: u128 = 1 << 32;

/// The greatest extent that is named.
const NAMED: u128 = 1 << 63;

/// The whole number, not below 0, that a value is.
fn natural_of(value: &Option<Const>) -> Option<u128>
    ensures { result ≡ natural_of value.now }
{
    match value {
        Some(Const::Number(x)) => {
            if x.den() == 1 && 0 <= x.num() {
                Some(x.num() as u128)
            } else {
                None
            }
        }
        _ => None,
    }
}

/// Whether an extent is no whole multiple of 8, or is below the greatest length.
fn is_extent_too_small(longest: u64, value: &Option<Const>) -> bool
    ensures { (said : Said) → longest ≡ greatest said.union said.fields →
        result ≡ is_extent_too_small said value.now }
{
    match natural_of(value) {
        Some(n) => n % 8 != 0 || n < u128::from(longest),
        None => value.is_some(),
    }
}

/// Whether a value is no truth value.
fn is_no_truth(value: &Option<Const>) -> bool
    ensures { result ≡ is_no_truth value.now }
{
    match value {
        None | Some(Const::Truth(_)) => false,
        Some(_) => true,
    }
}

/// Whether a value is `false`.
fn is_false(value: &Option<Const>) -> bool
    ensures { if_false value.now ≡ (if result then Some DsdlWhy.Assert else None) }
{
    matches!(value, Some(Const::Truth(false)))
}

/// The first of two rules that is broken.
fn first_of(first: (u8, bool), second: (u8, bool)) -> Option<u8>
    ensures { result ≡ least (first ∷ second ∷ []) }
{
    if first.1 {
        Some(first.0)
    } else if second.1 {
        Some(second.0)
    } else {
        None
    }
}

/// The least rule that a directive breaks, which has a value where an expression stands behind it.
fn directive_rule(before: &Before, name: &str, value: &Option<Const>) -> Option<u8>
    requires { AreWithin before.now.totals }
    ensures { (p : Place) (said : Said) (vs : ValuesOf) → vs.value ≡ value.now →
        IsBefore before.now p said →
        result ≡ least (directive_rules p said vs name.now (is_some value.now)) }
{
    let standing = before.standing;
    let valued = value.is_some();
    if name == "assert" {
        first_of(
            (MISPLACED_EXPRESSION, !valued),
            (ASSERT_NOT_TRUTH, is_no_truth(value)),
        )
    } else if name == "print" {
        None
    } else if name == "union" {
        first_of(
            (LATE_UNION, standing.union || standing.entry),
            (MISPLACED_EXPRESSION, valued),
        )
    } else if name == "sealed" {
        first_of(
            (SECOND_ENDING, standing.sealing),
            (MISPLACED_EXPRESSION, valued),
        )
    } else if name == "extent" {
        if standing.sealing {
            return Some(SECOND_ENDING);
        }
        first_of(
            (
                EXTENT_TOO_SMALL,
                is_extent_too_small(before.totals.greatest(), value),
            ),
            (MISPLACED_EXPRESSION, !valued),
        )
    } else if name == "deprecated" {
        let late = standing.deprecated || (standing.begun || standing.split);
        first_of((MISPLACED_EXPRESSION, valued), (LATE_DEPRECATED, late))
    } else {
        Some(UNKNOWN_DIRECTIVE)
    }
}

/// `@assert` of a truth value.
fn judge_assert(totals: Totals, value: &Option<Const>) -> Result<Judged, StatementError>
    ensures judged { IfOk result (λ j. (if_false value.now ≡ None) ×
        (j ≡ record { addition = Addition.Nothing; totals = totals })) }
    ensures refused { IfErr result (IsStatementRefusal (λ why. if_false value.now ≡ Some why)) }
{
    if is_false(value) {
        return Err(StatementError::Refused(DsdlWhy::Assert));
    }
    Ok(Judged {
        addition: Addition::Nothing,
        totals,
    })
}

/// `@extent` of a multiple of 8.
fn judge_extent(totals: Totals, value: &Option<Const>) -> Result<Judged, StatementError>
    ensures judged { IfOk result (λ j. (j.totals ≡ totals) ×
        (long_extent (natural_of value.now) ≡ None) ×
        ((n : ℕ) → natural_of value.now ≡ Some n → j.addition ≡ Addition.Extent n)) }
    ensures refused { IfErr result
        (IsStatementRefusal (λ why. long_extent (natural_of value.now) ≡ Some why)) }
{
    let Some(extent) = natural_of(value) else {
        return Ok(Judged {
            addition: Addition::Nothing,
            totals,
        });
    };
    if extent > LONGEST {
        let named = extent.min(NAMED) as u64;
        return Err(StatementError::Refused(DsdlWhy::Long(named)));
    }
    Ok(Judged {
        addition: Addition::Extent(extent as u64),
        totals,
    })
}

/// A directive, which has a value where an expression stands behind it.
pub fn judge_directive(
    before: &Before,
    name: &str,
    value: &Option<Const>,
) -> Result<Judged, StatementError>
    requires { AreWithin before.now.totals }
    ensures judged { IfOk result (λ j. (scope : ScopeOf) (vs : ValuesOf) (x : OptionOf Expr) →
        vs.value ≡ value.now → is_some value.now ≡ is_some x →
        Judges scope before.now (statement.Directive name.now x) vs j) }
    ensures refused { IfErr result (IsStatementRefusal (λ why.
        (scope : ScopeOf) (vs : ValuesOf) (x : OptionOf Expr) →
        vs.value ≡ value.now → is_some value.now ≡ is_some x →
        Refuses scope before.now (statement.Directive name.now x) vs why)) }
{
    let totals = before.totals;
    if let Some(number) = directive_rule(before, name, value) {
        return Err(rule(number));
    }
    if name == "assert" {
        return judge_assert(totals, value);
    }
    if name == "union" {
        return Ok(Judged {
            addition: Addition::Union,
            totals: Totals::empty(true),
        });
    }
    if name == "extent" {
        return judge_extent(totals, value);
    }
    Ok(Judged {
        addition: Addition::Nothing,
        totals,
    })
}
