//! Operators in front of their operand (Cyphal Specification, section 3.3).
ghost use Rattle.std.specs.Prelude.{◌≡◌, IfOk};
ghost use Rattle.const_expr.specs.declared.constant.Const.{out-Const};
ghost use Rattle.const_expr.specs.Refusals.{Gives};
ghost use Rattle.const_expr.specs.Constants.{IsConst};
ghost use Rattle.const_expr.specs.Unary.{on_one, unary};

use crate::constant::Const;
use crate::listed::listed;
use crate::operator::Prefix;
use crate::whole::whole;
use crate::why::Why;
use std::alloc::Global;

/// What an operator makes of a constant whose lengths are listed.
#[tactic(auto, using(crate::proofs::Layers::layers, crate::proofs::Keeps::number_keeps, crate::proofs::Keeps::truth_keeps))]
fn on_one(op: Prefix, operand: &Const) -> Result<Const, Why>
    ensures value { Gives result (on_one op (out-Const operand.now)) }
    ensures kept { IfOk result IsConst }
{
    match op {
        Prefix::Not => match operand {
            Const::Truth(truth) => Ok(Const::Truth(!*truth)),
            Const::Number(_) | Const::Str(_) => Err(Why::Kind),
            Const::Set(_) | Const::Lengths(_) | Const::Named(_) => Err(Why::Kind),
        },
        Prefix::Plus => match operand {
            Const::Number(x) => Ok(Const::Number(*x)),
            Const::Truth(_) | Const::Str(_) => Err(Why::Kind),
            Const::Set(_) | Const::Lengths(_) | Const::Named(_) => Err(Why::Kind),
        },
        Prefix::Minus => match operand {
            Const::Number(x) => Ok(Const::Number(whole(0).sub(*x)?)),
            Const::Truth(_) | Const::Str(_) => Err(Why::Kind),
            Const::Set(_) | Const::Lengths(_) | Const::Named(_) => Err(Why::Kind),
        },
    }
}

/// What an operator makes of a constant: `!` of a truth value, `+` and `-` of a number. -x is 0 - x.
#[tactic(auto, unfolding(crate::specs::Unary::unary))]
pub fn unary(alloc: Global, op: &str, operand: Const) -> Result<Const, Why>
    requires { IsConst operand }
    ensures value { Gives result (unary op.now operand) }
    ensures kept { IfOk result IsConst }
{
    let Some(op) = Prefix::from_text(op) else {
        return Err(Why::Kind);
    };
    let operand = listed(alloc, operand)?;
    on_one(op, &operand)
}
