//! The constant that an expression is worth.
ghost use Rattle.std.specs.Prelude.{◌≡◌, ◌≢◌, IfOk, MatchOption, Err, map, true, false};
ghost use Rattle.const_expr.specs.Constants.{IsConst};
ghost use Rattle.const_expr.specs.Member.{IsScope};
ghost use Rattle.const_expr.specs.Operands.{IsOperand, constant_of, worth};
ghost use Rattle.const_expr.specs.Places.{ArePlaces};
ghost use Rattle.const_expr.specs.Refusals.{at};
ghost use Rattle.const_expr.specs.Value.{value_of, all_values};
ghost use Rattle.const_expr.specs.Spine.{IsLeftOf, has_left, onto};

use crate::binary::binary;
use crate::constant::Const;
use crate::error::ExprError;
use crate::literal::literal;
use crate::member::{member, named};
use crate::operand::{Operand, as_operand};
use crate::places::TypePlaces;
use crate::referred::referred;
use crate::scope::Scope;
use crate::set::set_of;
use crate::unary::unary;
use crate::why::Why;
use cy_bits::{List, NoMemory, TryCopy};
use dsdl_parse::{Expr, ExprNode, Span};
use std::alloc::Global;

impl From<NoMemory> for ExprError {
    ghost use Rattle.std.specs.Prelude.{◌≡◌};
    ghost use Rattle.const_expr.specs.declared.error.ExprError.TheVariants as error;

    ghost from_gives = { λ _ e. e ≡ error.NoMemory };

    fn from(_: NoMemory) -> ExprError {
        ExprError::NoMemory
    }
}

/// A refusal at the place of the expression whose own rule refuses.
fn placed<T>(answer: Result<T, Why>, span: Span) -> Result<T, ExprError>
    ensures { result ≡ at span answer }
{
    match answer {
        Ok(value) => Ok(value),
        Err(why) => Err(why.at(span)),
    }
}

/// The left operand of a binary operator, or what stands in front of a point.
fn left_of(expr: &Expr) -> Option<&Expr>
    ensures { MatchOption result
        (has_left expr.now ≡ false)
        (λ left. IsLeftOf left.now expr.now) }
{
    match &expr.node {
        ExprNode::Binary(_, left, _) | ExprNode::Member(left, _) => Some(left.get()),
        _ => None,
    }
}

/// The constant that an expression is worth (Cyphal Specification, section 3.3), or the first
/// refusal in it: operands are valued left before right, and both always. Left operands, of which a
/// line may have as many as it has bytes, take a loop. Each mention of a type costs one look into
/// `places`, however many types the scope has.
#[cycle(eval)]
pub fn eval(
    alloc: Global,
    expr: &Expr,
    scope: &Scope,
    places: &TypePlaces,
) -> Result<Const, ExprError>
    requires scope { IsScope scope.now }
    requires places { ArePlaces scope.now places.now }
    ensures value { result ≢ Err ExprError.NoMemory → result ≡ value_of scope.now expr.now }
    ensures kept { IfOk result IsConst }
{
    let mut waiting = Vec::new(alloc);
    let mut inner = expr;
    while let Some(left) = left_of(inner) {
        waiting.push(inner).map_err(NoMemory::from)?;
        inner = left;
    }
    let mut value = Operand::Constant(without_left(alloc, inner, scope, places)?);
    while let Some(outer) = waiting.pop() {
        value = with_left(alloc, outer, value, scope, places)?;
    }
    Ok(value.into_const(alloc)?)
}

/// The constant that an expression without a left part is worth.
#[cycle(eval)]
fn without_left(
    alloc: Global,
    expr: &Expr,
    scope: &Scope,
    places: &TypePlaces,
) -> Result<Const, ExprError>
    requires scope { IsScope scope.now }
    requires places { ArePlaces scope.now places.now }
    requires innermost { has_left expr.now ≡ false }
    ensures value { result ≢ Err ExprError.NoMemory → result ≡ value_of scope.now expr.now }
    ensures kept { IfOk result IsConst }
{
    let answer = match &expr.node {
        ExprNode::Number(text) => literal(text.as_str()),
        ExprNode::Str(text) => return Ok(Const::Str(text.copy(alloc)?)),
        ExprNode::Truth(truth) => return Ok(Const::Truth(*truth)),
        ExprNode::Name(name) => named(alloc, scope, name.as_str()),
        ExprNode::Reference(reference) => referred(alloc, scope, reference),
        ExprNode::Set(members) => set_of(
            alloc,
            eval_all(alloc, members.as_slice(), scope, places)?,
        ),
        ExprNode::Unary(op, operand) => {
            unary(
                alloc,
                op.as_str(),
                eval(alloc, operand.get(), scope, places)?,
            )
        }
        ExprNode::Binary(_, _, _) | ExprNode::Member(_, _) => unreachable!(),
    };
    placed(answer, expr.span)
}

/// The constant that an expression is worth whose left part is worth `left`.
#[cycle(eval)]
fn with_left(
    alloc: Global,
    expr: &Expr,
    left: Operand,
    scope: &Scope,
    places: &TypePlaces,
) -> Result<Operand, ExprError>
    requires scope { IsScope scope.now }
    requires places { ArePlaces scope.now places.now }
    requires left { IsOperand left }
    requires outer { has_left expr.now ≡ true }
    ensures value { worth result ≢ Err ExprError.NoMemory →
        worth result ≡ onto scope.now expr.now (constant_of left) }
    ensures kept { IfOk result IsOperand }
{
    let answer = match &expr.node {
        ExprNode::Binary(op, _, right) => {
            binary(
                alloc,
                op.as_str(),
                left,
                eval(alloc, right.get(), scope, places)?,
            )
        }
        ExprNode::Member(_, name) => {
            let left = left.into_const(alloc)?;
            as_operand(member(alloc, scope, places, left, name.as_str()))
        }
        _ => unreachable!(),
    };
    placed(answer, expr.span)
}

/// The constants that expressions are worth, in order, or the first refusal.
#[cycle(eval)]
fn eval_all(
    alloc: Global,
    exprs: &[Expr],
    scope: &Scope,
    places: &TypePlaces,
) -> Result<List<Const>, ExprError>
    requires scope { IsScope scope.now }
    requires places { ArePlaces scope.now places.now }
    ensures { result ≢ Err ExprError.NoMemory
        → result ≡ all_values (map (value_of scope.now) exprs.now) }
{
    let mut values = List::empty(alloc);
    for expr in exprs {
        values.push(eval(alloc, expr, scope, places)?)?;
    }
    Ok(values)
}
