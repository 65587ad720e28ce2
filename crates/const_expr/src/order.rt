//! The order of the members of sets.
ghost use Rattle.std.specs.Prelude.{◌≡◌};
ghost use Rattle.const_expr.specs.Constants.{const_order, kind};
ghost use Rattle.const_expr.specs.declared.constant.Const.{out-Const};

use crate::constant::Const;
use std::cmp::Ordering;

/// How two members of sets compare: numbers by their values, false before true, strings by their bytes, and one
/// kind before the next.
#[tactic(auto, unfolding(crate::specs::Constants::const_order), using(crate::proofs::Layers::layers))]
pub fn order(u: &Const, v: &Const) -> Ordering
    ensures { result ≡ const_order u.now v.now }
{
    match u {
        Const::Number(x) => match v {
            Const::Number(y) => x.cmp(y),
            Const::Truth(_) | Const::Str(_) => Ordering::Less,
            Const::Set(_) | Const::Lengths(_) | Const::Named(_) => Ordering::Less,
        },
        Const::Truth(a) => match v {
            Const::Number(_) => Ordering::Greater,
            Const::Truth(b) => a.cmp(b),
            Const::Str(_) => Ordering::Less,
            Const::Set(_) | Const::Lengths(_) | Const::Named(_) => Ordering::Less,
        },
        Const::Str(s) => match v {
            Const::Number(_) | Const::Truth(_) => Ordering::Greater,
            Const::Str(t) => s.as_str().as_bytes().cmp(t.as_str().as_bytes()),
            Const::Set(_) | Const::Lengths(_) | Const::Named(_) => Ordering::Less,
        },
        Const::Set(_) | Const::Lengths(_) | Const::Named(_) => match v {
            Const::Number(_) | Const::Truth(_) | Const::Str(_) => Ordering::Greater,
            Const::Set(_) | Const::Lengths(_) | Const::Named(_) => Ordering::Equal,
        },
    }
}

/// The kind of a member of a set: 0 of a number, 1 of a truth value, 2 of a string, and 3 of what is no member.
#[tactic(auto, using(crate::proofs::Layers::layers))]
pub fn kind(constant: &Const) -> u8
    ensures { result ≡ kind (out-Const constant.now) }
{
    match constant {
        Const::Number(_) => 0,
        Const::Truth(_) => 1,
        Const::Str(_) => 2,
        Const::Set(_) | Const::Lengths(_) | Const::Named(_) => 3,
    }
}
