//! Operators between their operands (Cyphal Specification, section 3.3).
ghost use Rattle.std.specs.Prelude.{◌≡◌, IfOk};
ghost use Rattle.const_expr.specs.declared.constant.Const.{out-Const};
ghost use Rattle.const_expr.specs.declared.operator.Arithmetic.TheVariants.{Rem};
ghost use Rattle.const_expr.specs.declared.operator.Operator.TheVariants as operator;
ghost use Rattle.const_expr.specs.Binary.{applied, binary, by_kinds, listed, on_listed, on_power, on_truths, truth_of};
ghost use Rattle.const_expr.specs.Constants.{IsConst};
ghost use Rattle.const_expr.specs.Operands.{IsOperand, constant_of, worth};
ghost use Rattle.const_expr.specs.Refusals.{Gives};

use crate::arithmetic::arithmetic;
use crate::bits::bits;
use crate::compare::compare;
use crate::constant::Const;
use crate::listed::listed;
use crate::operand::{Operand, as_operand};
use crate::operator::{Arithmetic, Logic, Operator};
use crate::residues::{residues, small_divisor};
use crate::whole::whole_of;
use crate::why::Why;
use std::alloc::Global;

/// What an operator makes of two truth values.
fn truth_of(sign: Logic, a: bool, b: bool) -> bool
    ensures { result ≡ truth_of sign a b }
{
    match sign {
        Logic::Or => a || b,
        Logic::And => a && b,
    }
}

/// `||` and `&&`.
#[tactic(auto, using(crate::proofs::Layers::layers, crate::proofs::Keeps::truth_keeps))]
fn logic(sign: Logic, left: &Const, right: &Const) -> Result<Const, Why>
    ensures value { result ≡ on_truths sign (out-Const left.now) (out-Const right.now) }
    ensures kept { IfOk result IsConst }
{
    match left {
        Const::Truth(a) => match right {
            Const::Truth(b) => Ok(Const::Truth(truth_of(sign, *a, *b))),
            Const::Number(_) | Const::Str(_) => Err(Why::Kind),
            Const::Set(_) | Const::Lengths(_) | Const::Named(_) => Err(Why::Kind),
        },
        Const::Number(_) | Const::Str(_) => Err(Why::Kind),
        Const::Set(_) | Const::Lengths(_) | Const::Named(_) => Err(Why::Kind),
    }
}

/// `**`.
#[tactic(auto, using(crate::proofs::Layers::layers, crate::proofs::Keeps::number_keeps))]
fn power(left: &Const, right: &Const) -> Result<Const, Why>
    ensures value { result ≡ on_power (out-Const left.now) (out-Const right.now) }
    ensures kept { IfOk result IsConst }
{
    match left {
        Const::Number(x) => match right {
            Const::Number(y) => match whole_of(*y) {
                Some(exponent) => Ok(Const::Number(x.pow(exponent)?)),
                None => Err(Why::Kind),
            },
            Const::Truth(_) | Const::Str(_) => Err(Why::Kind),
            Const::Set(_) | Const::Lengths(_) | Const::Named(_) => Err(Why::Kind),
        },
        Const::Truth(_) | Const::Str(_) => Err(Why::Kind),
        Const::Set(_) | Const::Lengths(_) | Const::Named(_) => Err(Why::Kind),
    }
}

/// What an operator makes of two constants whose lengths are listed.
fn by_kinds(alloc: Global, op: Operator, left: Operand, right: Const) -> Result<Operand, Why>
    requires left { IsOperand left }
    requires right { IsConst right }
    ensures value { Gives (worth result)
        (by_kinds op (out-Const (constant_of left)) (out-Const right)) }
    ensures kept { IfOk result IsOperand }
{
    match op {
        Operator::Logic(sign) => as_operand(logic(sign, &left.into_const(alloc)?, &right)),
        Operator::Compare(relation) => {
            as_operand(compare(relation, &left.into_const(alloc)?, &right))
        }
        Operator::Bits(sign) => bits(alloc, sign, left, right),
        Operator::Arithmetic(sign) => arithmetic(alloc, sign, left, &right),
        Operator::Power => as_operand(power(&left.into_const(alloc)?, &right)),
    }
}

/// An operand with its lengths listed; Large where they are too many.
fn listed_operand(alloc: Global, left: Operand) -> Result<Operand, Why>
    requires { IsOperand left }
    ensures value { Gives (worth result) (listed (constant_of left)) }
    ensures kept { IfOk result IsOperand }
{
    match left {
        Operand::Constant(constant) => as_operand(listed(alloc, constant)),
        Operand::Members(set) => Ok(Operand::Members(set)),
        Operand::Shifted(numbers) => Ok(Operand::Shifted(numbers)),
    }
}

/// What an operator makes of two constants, whose lengths are listed first.
fn on_listed(alloc: Global, op: Operator, left: Operand, right: Const) -> Result<Operand, Why>
    requires left { IsOperand left }
    requires right { IsConst right }
    ensures value { Gives (worth result) (on_listed op (constant_of left) right) }
    ensures kept { IfOk result IsOperand }
{
    let left = listed_operand(alloc, left)?;
    let right = listed(alloc, right)?;
    by_kinds(alloc, op, left, right)
}

/// `%`: remainders of lengths by small divisors at any size, else those of what is listed.
#[tactic(auto, using(crate::proofs::Layers::layers, crate::proofs::ResidueLemmas::residues_keep))]
fn remainder(alloc: Global, left: Const, right: Const) -> Result<Operand, Why>
    requires left { IsConst left }
    requires right { IsConst right }
    ensures value { Gives (worth result) (applied (operator.Arithmetic Rem) left right) }
    ensures kept { IfOk result IsOperand }
{
    if let Some(divisor) = small_divisor(&right) {
        if let Const::Lengths(lengths) = &left {
            let residues = residues(alloc, lengths, divisor)?;
            return Ok(Operand::Constant(Const::Set(residues)));
        }
    }
    let op = Operator::Arithmetic(Arithmetic::Rem);
    on_listed(alloc, op, Operand::Constant(left), right)
}

/// What an operator makes of two constants. The left one is taken as it is and grown where the
/// result holds it.
#[tactic(auto, unfolding(crate::specs::Binary::binary))]
pub fn binary(alloc: Global, op: &str, left: Operand, right: Const) -> Result<Operand, Why>
    requires left { IsOperand left }
    requires right { IsConst right }
    ensures value { Gives (worth result) (binary op.now (constant_of left) right) }
    ensures kept { IfOk result IsOperand }
{
    let Some(op) = Operator::from_text(op) else {
        return Err(Why::Kind);
    };
    match op {
        Operator::Compare(relation) => {
            as_operand(compare(relation, &left.into_const(alloc)?, &right))
        }
        Operator::Arithmetic(Arithmetic::Rem) => {
            remainder(alloc, left.into_const(alloc)?, right)
        }
        Operator::Arithmetic(sign) => on_listed(alloc, Operator::Arithmetic(sign), left, right),
        Operator::Logic(_) | Operator::Bits(_) | Operator::Power => {
            on_listed(alloc, op, left, right)
        }
    }
}
