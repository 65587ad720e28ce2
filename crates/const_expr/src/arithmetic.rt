//! `+`, `-`, `*`, `/` and `%` (Cyphal Specification, section 3.3).
ghost use Rattle.std.specs.Prelude.{◌≡◌, IfOk, IfSome, OnOk};
ghost use Rattle.const_expr.specs.declared.constant.Const.{out-Const};
ghost use Rattle.const_expr.specs.declared.constant.Const.TheOpen as layer;
ghost use Rattle.const_expr.specs.Binary.{calculated, joined, on_each, on_members, on_number, on_numbers};
ghost use Rattle.const_expr.specs.Constants.{IsConst};
ghost use Rattle.const_expr.specs.Operands.{IsOperand, constant_of, worth};
ghost use Rattle.const_expr.specs.Refusals.{Gives};
ghost use Rattle.const_expr.specs.Shifts.{IsShift};
ghost use Rattle.const_expr.specs.Steps.{with_operand};

use crate::constant::Const;
use crate::gathered::gathered;
use crate::operand::{Operand, as_operand};
use crate::operator::Arithmetic;
use crate::shifted::Shifted;
use crate::whole::whole_of;
use crate::why::Why;
use cy_bits::{List, NoMemory, Text};
use cy_ratio::{Ratio, RatioError};
use std::alloc::Global;

/// An operator with one of its operands.
#[derive(Clone, Copy)]
pub enum Half {
    /// The left operand.
    Left(Ratio),
    /// The right operand.
    Right(Ratio),
}

/// What an operator makes of two numbers.
fn calculate(sign: Arithmetic, x: Ratio, y: Ratio) -> Result<Ratio, RatioError>
    ensures { result ≡ calculated sign x y }
{
    match sign {
        Arithmetic::Add => x.add(y),
        Arithmetic::Sub => x.sub(y),
        Arithmetic::Mul => x.mul(y),
        Arithmetic::Div => x.div(y),
        Arithmetic::Rem => x.rem(y),
    }
}

/// What an operator makes of a number that it has and another.
fn with_operand(sign: Arithmetic, half: Half, x: Ratio) -> Result<Ratio, RatioError>
    ensures { result ≡ with_operand sign half x }
{
    match half {
        Half::Left(left) => calculate(sign, left, x),
        Half::Right(right) => calculate(sign, x, right),
    }
}

/// What an operator makes of a member of a set.
#[tactic(auto, using(crate::proofs::Layers::layers))]
fn on_member(sign: Arithmetic, half: Half, member: &Const) -> Result<Const, Why>
    ensures { result ≡ on_number (λ x. with_operand sign half x) (out-Const member.now) }
{
    match member {
        Const::Number(x) => Ok(Const::Number(with_operand(sign, half, *x)?)),
        Const::Truth(_) | Const::Str(_) => Err(Why::Kind),
        Const::Set(_) | Const::Lengths(_) | Const::Named(_) => Err(Why::Kind),
    }
}

/// What an operator makes of each member of a set.
fn on_each(alloc: Global, sign: Arithmetic, half: Half, set: &[Const]) -> Result<List<Const>, Why>
    ensures { Gives result (on_each (λ x. with_operand sign half x) set.now) }
{
    let mut results = List::empty(alloc);
    for member in set {
        results.push(on_member(sign, half, member)?)?;
    }
    Ok(results)
}

/// The set of what an operator makes of each member of a set.
#[tactic(auto, using(crate::proofs::Keeps::set_keeps))]
fn on_members(alloc: Global, sign: Arithmetic, half: Half, set: &[Const]) -> Result<Const, Why>
    ensures value { Gives result (on_members (λ x. with_operand sign half x) set.now) }
    ensures kept { IfOk result IsConst }
{
    let results = on_each(alloc, sign, half, set)?;
    Ok(Const::Set(gathered(alloc, results)?))
}

/// Two strings in a row.
#[tactic(auto, using(crate::proofs::Keeps::text_keeps))]
fn join(sign: Arithmetic, left: Text, right: &Text) -> Result<Const, Why>
    ensures value { Gives result (joined sign left right.now) }
    ensures kept { IfOk result IsConst }
{
    match sign {
        Arithmetic::Add => {
            let mut text = left.into_string();
            text.push_str(right.as_str())?;
            Ok(Const::Str(Text::new(text)))
        }
        Arithmetic::Sub | Arithmetic::Mul => Err(Why::Kind),
        Arithmetic::Div | Arithmetic::Rem => Err(Why::Kind),
    }
}

/// What an operator makes of a constant and a number: of numbers; of a set, member by member.
#[tactic(auto, using(crate::proofs::Layers::layers, crate::proofs::Keeps::number_keeps))]
fn with_number(alloc: Global, sign: Arithmetic, left: Const, y: Ratio) -> Result<Const, Why>
    ensures value { Gives result (on_numbers sign (out-Const left) (layer.Number y)) }
    ensures kept { IfOk result IsConst }
{
    match left {
        Const::Number(x) => Ok(Const::Number(calculate(sign, x, y)?)),
        Const::Set(xs) => on_members(alloc, sign, Half::Right(y), xs.as_slice()),
        Const::Truth(_) | Const::Str(_) => Err(Why::Kind),
        Const::Lengths(_) | Const::Named(_) => Err(Why::Kind),
    }
}

/// The number that an operator with this right operand adds to whole numbers; nothing where it
/// does something else.
fn shift_of(sign: Arithmetic, y: Ratio) -> Option<i128>
    ensures { IfSome result (IsShift sign y) }
{
    let n = whole_of(y)?;
    match sign {
        Arithmetic::Add => Some(n),
        Arithmetic::Sub => n.checked_neg(),
        Arithmetic::Mul | Arithmetic::Div | Arithmetic::Rem => None,
    }
}

/// A set of whole numbers as one to which others can be added; another operand as it is.
fn as_shifted(alloc: Global, operand: Operand) -> Result<Operand, NoMemory>
    requires { IsOperand operand }
    ensures value { IfOk result (λ same. constant_of same ≡ constant_of operand) }
    ensures kept { IfOk result IsOperand }
{
    if let Operand::Constant(Const::Set(members)) = &operand {
        if let Some(numbers) = Shifted::of(alloc, members.as_slice())? {
            return Ok(Operand::Shifted(numbers));
        }
    }
    Ok(operand)
}

/// What an operator makes of an operand and a number, where it adds `k` to whole numbers.
fn shifted(
    alloc: Global,
    sign: Arithmetic,
    left: Operand,
    y: Ratio,
    k: i128,
) -> Result<Operand, Why>
    requires left { IsOperand left }
    requires shift { IsShift sign y k }
    ensures value { Gives (worth result)
        (on_numbers sign (out-Const (constant_of left)) (layer.Number y)) }
    ensures kept { IfOk result IsOperand }
{
    let left = match as_shifted(alloc, left)? {
        Operand::Shifted(numbers) => match numbers.moved(k) {
            Ok(moved) => return Ok(Operand::Shifted(moved)),
            Err(same) => Operand::Shifted(same),
        },
        Operand::Constant(constant) => Operand::Constant(constant),
        Operand::Members(set) => Operand::Members(set),
    };
    as_operand(with_number(alloc, sign, left.into_const(alloc)?, y))
}

/// What an operator makes of an operand and a number. Where it adds a whole number to a set of
/// whole numbers, all are moved at once.
fn on_operand(alloc: Global, sign: Arithmetic, left: Operand, y: Ratio) -> Result<Operand, Why>
    requires { IsOperand left }
    ensures value { Gives (worth result)
        (on_numbers sign (out-Const (constant_of left)) (layer.Number y)) }
    ensures kept { IfOk result IsOperand }
{
    match shift_of(sign, y) {
        Some(k) => shifted(alloc, sign, left, y, k),
        None => as_operand(with_number(alloc, sign, left.into_const(alloc)?, y)),
    }
}

/// What an operator makes of a constant and a set, member by member.
#[tactic(auto, using(crate::proofs::Layers::layers))]
fn on_set(alloc: Global, sign: Arithmetic, left: &Const, ys: &[Const]) -> Result<Const, Why>
    ensures value { Gives result (on_numbers sign (out-Const left.now) (layer.Set ys.now)) }
    ensures kept { IfOk result IsConst }
{
    match left {
        Const::Number(x) => on_members(alloc, sign, Half::Left(*x), ys),
        Const::Truth(_) | Const::Str(_) | Const::Set(_) => Err(Why::Kind),
        Const::Lengths(_) | Const::Named(_) => Err(Why::Kind),
    }
}

/// What an operator makes of a constant and a string.
#[tactic(auto, using(crate::proofs::Layers::layers))]
fn on_text(sign: Arithmetic, left: Const, t: &Text) -> Result<Const, Why>
    ensures value { Gives result (on_numbers sign (out-Const left) (layer.Str t.now)) }
    ensures kept { IfOk result IsConst }
{
    match left {
        Const::Str(s) => join(sign, s, t),
        Const::Number(_) | Const::Truth(_) | Const::Set(_) => Err(Why::Kind),
        Const::Lengths(_) | Const::Named(_) => Err(Why::Kind),
    }
}

/// What an operator makes of two constants whose lengths are listed: numbers; a set and a number,
/// member by member; strings in a row.
#[tactic(auto, using(crate::proofs::Layers::layers))]
pub fn arithmetic(
    alloc: Global,
    sign: Arithmetic,
    left: Operand,
    right: &Const,
) -> Result<Operand, Why>
    requires { IsOperand left }
    ensures value { Gives (worth result)
        (on_numbers sign (out-Const (constant_of left)) (out-Const right.now)) }
    ensures kept { IfOk result IsOperand }
{
    match right {
        Const::Number(y) => on_operand(alloc, sign, left, *y),
        Const::Set(ys) => {
            as_operand(on_set(alloc, sign, &left.into_const(alloc)?, ys.as_slice()))
        }
        Const::Str(t) => as_operand(on_text(sign, left.into_const(alloc)?, t)),
        Const::Truth(_) | Const::Lengths(_) | Const::Named(_) => Err(Why::Kind),
    }
}
