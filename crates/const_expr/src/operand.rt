//! What stands on the left of an operator.
ghost use Rattle.std.specs.Prelude.{◌≡◌, IfOk};
ghost use Rattle.const_expr.specs.Constants.{IsConst};
ghost use Rattle.const_expr.specs.Operands.{IsOperand, constant_of, worth};

use crate::constant::Const;
use crate::gathered::in_a_row;
use crate::ranked::Ranked;
use crate::shifted::Shifted;
use crate::why::Why;
use cy_bits::NoMemory;
use std::alloc::Global;
use std::collections::BTreeSet;

/// A constant, or a set that operators change member by member or all members alike.
#[derive(Drop)]
pub enum Operand {
    /// A constant.
    Constant(Const),
    /// The members of a set.
    Members(BTreeSet<Ranked>),
    /// A set of whole numbers to which others are added.
    Shifted(Shifted),
}

impl Operand {
    /// The constant, with the members of a set in a row.
    #[tactic(auto, using(crate::proofs::Keeps::set_keeps))]
    pub fn into_const(self, alloc: Global) -> Result<Const, NoMemory>
        requires { IsOperand self }
        ensures value { IfOk result (λ constant. constant ≡ constant_of self) }
        ensures kept { IfOk result IsConst }
    {
        match self {
            Operand::Constant(constant) => Ok(constant),
            Operand::Members(set) => Ok(Const::Set(in_a_row(alloc, set)?)),
            Operand::Shifted(numbers) => Ok(Const::Set(numbers.into_members(alloc)?)),
        }
    }
}

/// A constant as an operand.
pub fn as_operand(answer: Result<Const, Why>) -> Result<Operand, Why>
    requires { IfOk answer IsConst }
    ensures value { worth result ≡ answer }
    ensures kept { IfOk result IsOperand }
{
    Ok(Operand::Constant(answer?))
}
