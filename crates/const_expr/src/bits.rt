//! `|`, `^` and `&` (Cyphal Specification, section 3.3).
ghost use Rattle.std.specs.Prelude.{◌≡◌, IfOk, filter};
ghost use Rattle.const_expr.specs.declared.constant.Const.{out-Const};
ghost use Rattle.const_expr.specs.declared.constant.Const.TheOpen as layer;
ghost use Rattle.const_expr.specs.Binary.{bits_of, combined, on_bits, on_sets, on_wholes, some_members};
ghost use Rattle.const_expr.specs.Constants.{IsAscending, IsConst, has, kind_in, whole_of};
ghost use Rattle.const_expr.specs.Operands.{IsOperand, constant_of, worth};
ghost use Rattle.const_expr.specs.Refusals.{Gives};

use crate::compare::kind_in;
use crate::constant::Const;
use crate::gathered::{add_all, has, ordered, take_out};
use crate::operand::{Operand, as_operand};
use crate::operator::Bits;
use crate::order::kind;
use crate::ranked::Ranked;
use crate::whole::{whole, whole_of};
use crate::why::Why;
use cy_bits::{List, NoMemory};
use cy_ratio::Ratio;
use std::alloc::Global;
use std::collections::BTreeSet;

/// What an operator makes of the bits of two numbers in two's complement.
fn bits_of(sign: Bits, m: i128, n: i128) -> i128
    ensures { result ≡ bits_of sign m n }
{
    match sign {
        Bits::Or => m | n,
        Bits::Xor => m ^ n,
        Bits::And => m & n,
    }
}

/// What an operator makes of two whole numbers; Kind of others.
#[tactic(auto, using(crate::proofs::Keeps::number_keeps))]
fn on_wholes(sign: Bits, x: Ratio, y: Ratio) -> Result<Const, Why>
    ensures value { result ≡ on_wholes sign (whole_of x) (whole_of y) }
    ensures kept { IfOk result IsConst }
{
    match (whole_of(x), whole_of(y)) {
        (Some(m), Some(n)) => Ok(Const::Number(whole(bits_of(sign, m, n)))),
        (Some(_), None) => Err(Why::Kind),
        (None, _) => Err(Why::Kind),
    }
}

/// The members of a set that are in another one too.
fn common(alloc: Global, set: BTreeSet<Ranked>, ys: &[Const]) -> Result<BTreeSet<Ranked>, NoMemory>
    requires left { IsAscending set.keys }
    requires right { IsAscending ys.now }
    ensures { IfOk result (λ both. both.keys ≡ filter (λ x. has ys.now x) set.keys) }
{
    let mut both = List::empty(alloc);
    for member in set {
        if has(ys, &member.constant) {
            both.push(member.constant)?;
        }
    }
    Ok(ordered(alloc, both)?)
}

/// The members of either set, of one of them alone, or of both.
fn combine(
    alloc: Global,
    sign: Bits,
    set: BTreeSet<Ranked>,
    ys: List<Const>,
) -> Result<BTreeSet<Ranked>, NoMemory>
    requires left { IsAscending set.keys }
    requires right { IsAscending ys }
    ensures { IfOk result (λ both. both.keys ≡ combined sign set.keys ys) }
{
    let mut set = set;
    match sign {
        Bits::Or => add_all(&mut set, ys)?,
        Bits::Xor => {
            let others = take_out(alloc, &mut set, ys)?;
            add_all(&mut set, others)?;
        }
        Bits::And => return common(alloc, set, ys.as_slice()),
    }
    Ok(set)
}

/// The kind of the members of a set.
fn kind_of(set: &BTreeSet<Ranked>) -> u8
    ensures { result ≡ kind_in set.now.keys }
{
    match set.first() {
        Some(first) => kind(&first.constant),
        None => 3,
    }
}

/// A set that has some member; Kind of none.
#[tactic(auto, using(crate::proofs::Keeps::set_keeps))]
fn some_members(set: BTreeSet<Ranked>) -> Result<Operand, Why>
    requires { IsAscending set.keys }
    ensures value { worth result ≡ some_members set.keys }
    ensures kept { IfOk result IsOperand }
{
    if set.is_empty() {
        Err(Why::Kind)
    } else {
        Ok(Operand::Members(set))
    }
}

/// What an operator makes of two sets of one kind, unless the result has no member.
fn on_sets(alloc: Global, sign: Bits, xs: BTreeSet<Ranked>, ys: List<Const>) -> Result<Operand, Why>
    requires left { IsAscending xs.keys }
    requires right { IsAscending ys }
    ensures value { Gives (worth result) (on_sets sign xs.keys ys) }
    ensures kept { IfOk result IsOperand }
{
    if kind_of(&xs) != kind_in(ys.as_slice()) {
        return Err(Why::Kind);
    }
    let set = combine(alloc, sign, xs, ys)?;
    some_members(set)
}

/// What an operator makes of a constant and a set.
#[tactic(auto, using(crate::proofs::Layers::layers, crate::proofs::Keeps::set_ascends, crate::proofs::SetChanges::set_of_ascending))]
fn with_set(alloc: Global, sign: Bits, left: Operand, ys: List<Const>) -> Result<Operand, Why>
    requires left { IsOperand left }
    requires right { IsAscending ys }
    ensures value { Gives (worth result)
        (on_bits sign (out-Const (constant_of left)) (layer.Set ys)) }
    ensures kept { IfOk result IsOperand }
{
    match left {
        Operand::Members(xs) => on_sets(alloc, sign, xs, ys),
        Operand::Shifted(numbers) => {
            let xs = numbers.into_members(alloc)?;
            on_sets(alloc, sign, ordered(alloc, xs)?, ys)
        }
        Operand::Constant(constant) => match constant {
            Const::Set(xs) => on_sets(alloc, sign, ordered(alloc, xs)?, ys),
            Const::Number(_) | Const::Truth(_) | Const::Str(_) => Err(Why::Kind),
            Const::Lengths(_) | Const::Named(_) => Err(Why::Kind),
        },
    }
}

/// What an operator makes of a constant and a number.
#[tactic(auto, using(crate::proofs::Layers::layers))]
fn with_number(sign: Bits, left: Operand, y: Ratio) -> Result<Operand, Why>
    requires { IsOperand left }
    ensures value { Gives (worth result)
        (on_bits sign (out-Const (constant_of left)) (layer.Number y)) }
    ensures kept { IfOk result IsOperand }
{
    match left {
        Operand::Members(_) | Operand::Shifted(_) => Err(Why::Kind),
        Operand::Constant(constant) => match constant {
            Const::Number(x) => as_operand(on_wholes(sign, x, y)),
            Const::Truth(_) | Const::Str(_) | Const::Set(_) => Err(Why::Kind),
            Const::Lengths(_) | Const::Named(_) => Err(Why::Kind),
        },
    }
}

/// What an operator makes of two constants whose lengths are listed: whole numbers, by their bits
/// in two's complement; sets of one kind, unless the result has no member.
#[tactic(auto, using(crate::proofs::Layers::layers, crate::proofs::Keeps::set_ascends))]
pub fn bits(alloc: Global, sign: Bits, left: Operand, right: Const) -> Result<Operand, Why>
    requires left { IsOperand left }
    requires right { IsConst right }
    ensures value { Gives (worth result)
        (on_bits sign (out-Const (constant_of left)) (out-Const right)) }
    ensures kept { IfOk result IsOperand }
{
    match right {
        Const::Number(y) => with_number(sign, left, y),
        Const::Set(ys) => with_set(alloc, sign, left, ys),
        Const::Truth(_) | Const::Str(_) => Err(Why::Kind),
        Const::Lengths(_) | Const::Named(_) => Err(Why::Kind),
    }
}
