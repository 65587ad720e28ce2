//! Set literals.
ghost use Rattle.std.specs.Prelude.{◌≡◌, ◌==◌, IfOk};
ghost use Rattle.std.specs.List.{list_all};
ghost use Rattle.const_expr.specs.declared.constant.Const.{out-Const};
ghost use Rattle.const_expr.specs.Constants.{IsConst, kind};
ghost use Rattle.const_expr.specs.Refusals.{Gives};
ghost use Rattle.const_expr.specs.Unary.{are_members, set_of};

use crate::constant::Const;
use crate::gathered::gathered;
use crate::order::kind;
use crate::why::Why;
use cy_bits::List;
use std::alloc::Global;

/// Whether all constants are of a kind.
fn are_all(constants: &[Const], of: u8) -> bool
    ensures { result ≡ list_all (λ x. kind (out-Const x) == of) constants.now }
{
    constants.iter().all(|constant| kind(constant) == of)
}

/// Whether constants are numbers alone, truth values alone or strings alone.
fn are_members(first: &Const, rest: &[Const]) -> bool
    ensures { result ≡ are_members first.now rest.now }
{
    let of = kind(first);
    of < 3 && are_all(rest, of)
}

/// The set of some constants of one kind, at least one; Kind where they are no set.
#[tactic(auto, unfolding(crate::specs::Unary::set_of), using(crate::proofs::Keeps::set_keeps))]
pub fn set_of(alloc: Global, members: List<Const>) -> Result<Const, Why>
    ensures value { Gives result (set_of members) }
    ensures kept { IfOk result IsConst }
{
    match members.as_slice() {
        [] => return Err(Why::Kind),
        [first, rest @ ..] => {
            if !are_members(first, rest) {
                return Err(Why::Kind);
            }
        }
    }
    Ok(Const::Set(gathered(alloc, members)?))
}
