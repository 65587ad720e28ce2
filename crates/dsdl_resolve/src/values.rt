//! What the expressions of a statement are worth.
ghost use Rattle.std.specs.Prelude.{◌≡◌, ◌≢◌, Err, IfOk, IfSome};
ghost use Rattle.const_expr.specs.Constants.{IsConst};
ghost use Rattle.const_expr.specs.Member.{IsScope};
ghost use Rattle.dsdl_resolve.specs.Places.{ArePlacesIn};
ghost use Rattle.dsdl_resolve.specs.Values.{bound_value, directive_value, values};

use crate::finding::Places;
use const_expr::{Const, ExprError, Scope, eval, print_text};
use dsdl_parse::{Bound, Expr, Statement};
use std::alloc::Global;

/// The values of a statement's expressions.
#[derive(Drop)]
pub struct Values {
    /// That of an array's bound.
    pub bound: Option<Const>,
    /// That of the expression behind a name.
    pub value: Option<Const>,
}

/// The value of an array's bound.
fn bound_value(
    alloc: Global,
    scope: &Scope,
    places: &Places,
    array: &Option<Bound>,
) -> Result<Option<Const>, ExprError>
    requires scope { IsScope scope.now }
    requires places { ArePlacesIn scope.now places.now }
    ensures { result ≢ Err ExprError.NoMemory → result ≡ bound_value scope.now array.now }
{
    match array {
        Some(bound) => Ok(Some(eval(alloc, &bound.expr, scope, &places.types)?)),
        None => Ok(None),
    }
}

/// The value of a directive's expression; that of `@print` has a text.
fn directive_value(
    alloc: Global,
    scope: &Scope,
    places: &Places,
    name: &str,
    expr: &Expr,
) -> Result<Const, ExprError>
    requires scope { IsScope scope.now }
    requires places { ArePlacesIn scope.now places.now }
    ensures value { result ≢ Err ExprError.NoMemory →
        result ≡ directive_value scope.now name.now expr.now }
    ensures kept { IfOk result IsConst }
{
    let value = eval(alloc, expr, scope, &places.types)?;
    if name == "print" {
        print_text(alloc, &value, expr.span)?;
    }
    Ok(value)
}

/// The values of a statement's expressions, or the first refusal: a bound comes before a value.
pub fn values_of(
    alloc: Global,
    scope: &Scope,
    places: &Places,
    statement: &Statement,
) -> Result<Values, ExprError>
    requires scope { IsScope scope.now }
    requires places { ArePlacesIn scope.now places.now }
    ensures values { result ≢ Err ExprError.NoMemory →
        result ≡ values scope.now statement.now }
    ensures kept { IfOk result (λ vs. IfSome vs.value IsConst) }
{
    match statement {
        Statement::Field { form, name: _ } => Ok(Values {
            bound: bound_value(alloc, scope, places, &form.array)?,
            value: None,
        }),
        Statement::Constant {
            form,
            name: _,
            expr,
        } => Ok(Values {
            bound: bound_value(alloc, scope, places, &form.array)?,
            value: Some(eval(alloc, expr, scope, &places.types)?),
        }),
        Statement::Directive {
            name,
            expr: Some(expr),
        } => Ok(Values {
            bound: None,
            value: Some(directive_value(alloc, scope, places, name.as_str(), expr)?),
        }),
        _ => Ok(Values {
            bound: None,
            value: None,
        }),
    }
}
