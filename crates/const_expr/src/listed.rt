//! Sets of lengths as sets of numbers.
ghost use Rattle.std.specs.Prelude.{IfOk};
ghost use Rattle.const_expr.specs.declared.constant.Const.{out-Const};
ghost use Rattle.const_expr.specs.declared.constant.Const.TheOpen as layer;
ghost use Rattle.const_expr.specs.Binary.{listed, listed_layer};
ghost use Rattle.const_expr.specs.Constants.{IsConst};
ghost use Rattle.const_expr.specs.Refusals.{Gives};

use crate::constant::Const;
use crate::whole::naturals;
use crate::why::Why;
use bit_length::LengthSet;
use std::alloc::Global;

/// The most members of a set of lengths that is listed.
const MOST_LISTED: u64 = 4096;

/// Lengths as a set of numbers; Large where they are too many.
pub fn listed_lengths(alloc: Global, lengths: &LengthSet) -> Result<Const, Why>
    ensures value { (u : Const) → Gives result (listed_layer u (layer.Lengths lengths.now)) }
    ensures kept { IfOk result IsConst }
{
    let count = lengths.count();
    if count > MOST_LISTED {
        return Err(Why::Large(count));
    }
    let members = lengths.members(alloc)?;
    Ok(Const::Set(naturals(alloc, members.as_slice())?))
}

/// A constant with its lengths listed; Large where they are too many.
#[tactic(auto, using(crate::proofs::Layers::layers))]
pub fn listed(alloc: Global, constant: Const) -> Result<Const, Why>
    requires { IsConst constant }
    ensures value { Gives result (listed constant) }
    ensures kept { IfOk result IsConst }
{
    match &constant {
        Const::Lengths(lengths) => listed_lengths(alloc, lengths),
        Const::Number(_) | Const::Truth(_) | Const::Str(_) | Const::Set(_) | Const::Named(_) => {
            Ok(constant)
        }
    }
}
