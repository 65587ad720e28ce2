//! Constants.
ghost use Rattle.std.specs.Prelude.{◌≡◌, ◌∷◌, [], true, is_some, Some, IfOk, IfErr, IfSome, IfNone};
ghost use Rattle.const_expr.specs.Constants.{natural};
ghost use Rattle.dsdl_parse.specs.declared.statement.Statement.TheVariants as statement;
ghost use Rattle.dsdl_parse.specs.declared.expr.Expr.{Expr};
ghost use Rattle.dsdl_resolve.specs.Additions.{IsStatementRefusal, Judges, Refuses};
ghost use Rattle.dsdl_resolve.specs.Forms.{IsPrimitive};
ghost use Rattle.dsdl_resolve.specs.Rules.{holds, is_not_primitive, is_out_of_range, least};
ghost use Rattle.dsdl_resolve.specs.Places.{ArePlacesIn};
ghost use Rattle.dsdl_resolve.specs.Totals.{AreWithin};
ghost use Rattle.dsdl_resolve.specs.Values.{constant_value};

use crate::addition::{Addition, Judged, StatementError};
use crate::before::Before;
use crate::finding::Places;
use crate::fits::fits;
use crate::naming::{is_no_message, named_rule};
use crate::primitive::{Primitive, primitive_of};
use crate::rules::{CONSTANT_NOT_PRIMITIVE, CONSTANT_OUT_OF_RANGE, NOT_A_MESSAGE};
use crate::values::Values;
use crate::why::DsdlWhy;
use const_expr::{Const, Scope};
use cy_bits::{NoMemory, TryCopy};
use cy_ratio::Ratio;
use dsdl_parse::{Form, Scalar};
use std::alloc::Global;

/// Whether a type holds a value.
fn holds(primitive: Option<Primitive>, value: &Option<Const>) -> bool
    requires { IfSome primitive IsPrimitive }
    ensures holds { result ≡ holds primitive value.now }
    ensures some { result ≡ true → is_some value.now ≡ true }
{
    match (primitive, value) {
        (Some(primitive), Some(value)) => fits(primitive, value),
        _ => false,
    }
}

/// The least rule on its type and its value that a constant breaks.
fn constant_rule(form: &Form, value: &Option<Const>) -> Option<u8>
    ensures rule { result ≡ least ((CONSTANT_NOT_PRIMITIVE, is_not_primitive form.now) ∷
        (CONSTANT_OUT_OF_RANGE, is_out_of_range form.now.scalar value.now) ∷ []) }
    ensures some { IfNone result (is_some value.now ≡ true) }
{
    match (&form.scalar, &form.array) {
        (Scalar::Primitive { prefix, name }, None) => {
            if holds(primitive_of(*prefix, name.as_str()), value) {
                None
            } else {
                Some(CONSTANT_OUT_OF_RANGE)
            }
        }
        _ => Some(CONSTANT_NOT_PRIMITIVE),
    }
}

/// The constant that is the number of a character.
fn character(byte: u8) -> Const
    ensures { result ≡ natural byte }
{
    match Ratio::new(i128::from(byte), 1) {
        Ok(ratio) => Const::Number(ratio),
        Err(_) => unreachable!(),
    }
}

/// What a constant with this value is worth: a character is its number.
fn constant_value(alloc: Global, value: &Const) -> Result<Const, NoMemory>
    ensures { IfOk result (λ u. u ≡ constant_value value.now) }
{
    match value {
        Const::Str(text) => match text.as_str().as_bytes() {
            [byte] => Ok(character(*byte)),
            _ => value.copy(alloc),
        },
        _ => value.copy(alloc),
    }
}

/// A constant.
pub fn judge_constant(
    alloc: Global,
    scope: &Scope,
    places: &Places,
    before: &Before,
    form: &Form,
    name: &str,
    values: &Values,
) -> Result<Judged, StatementError>
    requires places { ArePlacesIn scope.now places.now }
    requires within { AreWithin before.now.totals }
    ensures judged { IfOk result (λ j. (x : Expr) →
        Judges scope.now before.now (statement.Constant form.now name.now x) values.now j) }
    ensures refused { IfErr result (IsStatementRefusal (λ why. (x : Expr) →
        Refuses scope.now before.now (statement.Constant form.now name.now x) values.now why)) }
{
    if let Some(number) = named_rule(before, form, name, &values.bound) {
        return Err(StatementError::Refused(DsdlWhy::Rule(number)));
    }
    if is_no_message(alloc, scope, places, form.array.is_some(), &form.scalar)? {
        return Err(StatementError::Refused(DsdlWhy::Rule(NOT_A_MESSAGE)));
    }
    if let Some(number) = constant_rule(form, &values.value) {
        return Err(StatementError::Refused(DsdlWhy::Rule(number)));
    }
    let Some(value) = &values.value else {
        unreachable!();
    };
    Ok(Judged {
        addition: Addition::Constant(constant_value(alloc, value)?),
        totals: before.totals,
    })
}
