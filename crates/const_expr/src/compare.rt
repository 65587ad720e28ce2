//! Comparing constants (Cyphal Specification, section 3.3).
ghost use Rattle.std.specs.Prelude.{◌≡◌, ℕ, ◌==◌, ◌≤◌, ◌^◌, ◌≢◌, pos, MatchOption, IfOk, Some};
ghost use Rattle.std.specs.Ordering.{is_eq};
ghost use Rattle.std.specs.declared.cmp.Ordering.TheVariants.{Equal};
ghost use Rattle.cy_ratio.specs.Fraction.{order_of};
ghost use Rattle.const_expr.specs.declared.constant.Const.{out-Const};
ghost use Rattle.const_expr.specs.declared.constant.Const.TheOpen as layer;
ghost use Rattle.const_expr.specs.Compare.{of_order, of_inclusion, of_equality, compared};
ghost use Rattle.const_expr.specs.Constants.{IsAscending, IsConst, has, is_within, kind_in, naturals, whole};

use crate::constant::Const;
use crate::gathered::has;
use crate::operator::Relation;
use crate::order::{kind, order};
use crate::whole::natural;
use crate::why::Why;
use bit_length::LengthSet;
use cy_ratio::Ratio;
use std::cmp::Ordering;

/// What a relation says of two numbers that compare so.
fn of_order(relation: Relation, order: Ordering) -> bool
    ensures { result ≡ of_order relation order }
{
    match relation {
        Relation::Equal => order == Ordering::Equal,
        Relation::Unequal => order != Ordering::Equal,
        Relation::AtMost => order != Ordering::Greater,
        Relation::AtLeast => order != Ordering::Less,
        Relation::Below => order == Ordering::Less,
        Relation::Above => order == Ordering::Greater,
    }
}

/// What a relation says of two sets, where the left one lies within the right one, or the right one within the
/// left one.
fn of_inclusion(relation: Relation, left: bool, right: bool) -> bool
    ensures { result ≡ of_inclusion relation left right }
{
    match relation {
        Relation::Equal => left && right,
        Relation::Unequal => !(left && right),
        Relation::AtMost => left,
        Relation::AtLeast => right,
        Relation::Below => left && !right,
        Relation::Above => right && !left,
    }
}

/// What a relation says of two truth values or two strings.
#[tactic(auto, using(crate::proofs::Keeps::truth_keeps))]
fn of_equality(relation: Relation, same: bool) -> Result<Const, Why>
    ensures value { result ≡ of_equality relation same }
    ensures kept { IfOk result IsConst }
{
    match relation {
        Relation::Equal => Ok(Const::Truth(same)),
        Relation::Unequal => Ok(Const::Truth(!same)),
        Relation::AtMost | Relation::AtLeast => Err(Why::Kind),
        Relation::Below | Relation::Above => Err(Why::Kind),
    }
}

/// The kind of a set's members.
pub fn kind_in(set: &[Const]) -> u8
    ensures { result ≡ kind_in set.now }
{
    match set {
        [] => 3,
        [first, ..] => kind(first),
    }
}

/// Whether each member of one set is a member of the other: a walk along both.
fn set_in_set(xs: &[Const], ys: &[Const]) -> bool
    requires left { IsAscending xs.now }
    requires right { IsAscending ys.now }
    ensures { result ≡ is_within xs.now ys.now }
{
    let mut place = 0;
    let mut other = 0;
    while place < xs.len() {
        if other == ys.len() {
            return false;
        }
        match order(&xs[place], &ys[other]) {
            Ordering::Less => return false,
            Ordering::Equal => {
                place += 1;
                other += 1;
            }
            Ordering::Greater => other += 1,
        }
    }
    true
}

/// The length that a number is.
fn length_of(x: Ratio) -> Option<u64>
    ensures { MatchOption result
        ((n : ℕ) → n ≤ 2 ^ 32 → order_of x (whole (pos n)) ≢ Equal)
        (λ n. x ≡ whole (pos n)) }
{
    if x.den() == 1 && 0 <= x.num() && x.num() < 1 << 64 {
        Some(x.num() as u64)
    } else {
        None
    }
}

/// Whether a constant is one of the lengths.
#[tactic(auto, using(crate::proofs::CompareLemmas::no_number, crate::proofs::Layers::layers))]
fn is_length(lengths: &LengthSet, x: &Const) -> bool
    ensures { result ≡ has (naturals lengths.now) x.now }
{
    let _greatest = lengths.max();
    match x {
        Const::Number(x) => match length_of(*x) {
            Some(n) => lengths.has(n),
            None => false,
        },
        Const::Truth(_) | Const::Str(_) => false,
        Const::Set(_) | Const::Lengths(_) | Const::Named(_) => false,
    }
}

/// Whether each member of a set is one of the lengths.
fn set_in_lengths(xs: &[Const], lengths: &LengthSet) -> bool
    ensures { result ≡ is_within xs.now (naturals lengths.now) }
{
    xs.iter().all(|x| is_length(lengths, x))
}

/// Whether each of the lengths is a member of a set.
fn lengths_in_set(lengths: &LengthSet, ys: &[Const]) -> bool
    requires { IsAscending ys.now }
    ensures { result ≡ is_within (naturals lengths.now) ys.now }
{
    let greatest = lengths.max();
    let mut from = 0;
    while let Some(n) = lengths.next(from) {
        if !has(ys, &natural(n)) {
            return false;
        }
        from = n + 1;
    }
    true
}

/// Whether each of some lengths is one of others.
fn lengths_in_lengths(lengths: &LengthSet, others: &LengthSet) -> bool
    ensures { result ≡ is_within (naturals lengths.now) (naturals others.now) }
{
    lengths.is_within(others)
}

/// What a relation says of two constants; Kind where it says nothing of such.
#[tactic(auto, using(crate::proofs::Layers::layers, crate::proofs::Keeps::truth_keeps))]
pub fn compare(relation: Relation, left: &Const, right: &Const) -> Result<Const, Why>
    requires left { IsConst left.now }
    requires right { IsConst right.now }
    ensures value { result ≡ compared relation (out-Const left.now) (out-Const right.now) }
    ensures kept { IfOk result IsConst }
{
    match left {
        Const::Number(x) => match right {
            Const::Number(y) => Ok(Const::Truth(of_order(relation, x.cmp(y)))),
            Const::Truth(_) | Const::Str(_) | Const::Named(_) => Err(Why::Kind),
            Const::Set(_) | Const::Lengths(_) => Err(Why::Kind),
        },
        Const::Truth(a) => match right {
            Const::Truth(b) => of_equality(relation, a.cmp(b) == Ordering::Equal),
            Const::Number(_) | Const::Str(_) | Const::Named(_) => Err(Why::Kind),
            Const::Set(_) | Const::Lengths(_) => Err(Why::Kind),
        },
        Const::Str(s) => match right {
            Const::Str(t) => of_equality(relation, s.as_str() == t.as_str()),
            Const::Number(_) | Const::Truth(_) | Const::Named(_) => Err(Why::Kind),
            Const::Set(_) | Const::Lengths(_) => Err(Why::Kind),
        },
        Const::Set(xs) => compare_set(relation, xs.as_slice(), right),
        Const::Lengths(lengths) => compare_lengths(relation, lengths, right),
        Const::Named(_) => Err(Why::Kind),
    }
}

/// What a relation says of a set and another constant.
#[tactic(auto, using(crate::proofs::Layers::layers, crate::proofs::Keeps::truth_keeps, crate::proofs::Keeps::set_ascends))]
fn compare_set(relation: Relation, xs: &[Const], right: &Const) -> Result<Const, Why>
    requires left { IsAscending xs.now }
    requires right { IsConst right.now }
    ensures value { result ≡ compared relation (layer.Set xs.now) (out-Const right.now) }
    ensures kept { IfOk result IsConst }
{
    match right {
        Const::Set(ys) => {
            let ys = ys.as_slice();
            if kind_in(xs) != kind_in(ys) {
                return Err(Why::Kind);
            }
            let (left, right) = (set_in_set(xs, ys), set_in_set(ys, xs));
            Ok(Const::Truth(of_inclusion(relation, left, right)))
        }
        Const::Lengths(ys) => {
            if kind_in(xs) != 0 {
                return Err(Why::Kind);
            }
            let (left, right) = (set_in_lengths(xs, ys), lengths_in_set(ys, xs));
            Ok(Const::Truth(of_inclusion(relation, left, right)))
        }
        Const::Number(_) | Const::Truth(_) | Const::Str(_) | Const::Named(_) => Err(Why::Kind),
    }
}

/// What a relation says of lengths and another constant.
#[tactic(auto, using(crate::proofs::Layers::layers, crate::proofs::Keeps::truth_keeps, crate::proofs::Keeps::set_ascends))]
fn compare_lengths(relation: Relation, xs: &LengthSet, right: &Const) -> Result<Const, Why>
    requires { IsConst right.now }
    ensures value { result ≡ compared relation (layer.Lengths xs.now) (out-Const right.now) }
    ensures kept { IfOk result IsConst }
{
    match right {
        Const::Set(ys) => {
            let ys = ys.as_slice();
            if kind_in(ys) != 0 {
                return Err(Why::Kind);
            }
            let (left, right) = (lengths_in_set(xs, ys), set_in_lengths(ys, xs));
            Ok(Const::Truth(of_inclusion(relation, left, right)))
        }
        Const::Lengths(ys) => {
            let (left, right) = (lengths_in_lengths(xs, ys), lengths_in_lengths(ys, xs));
            Ok(Const::Truth(of_inclusion(relation, left, right)))
        }
        Const::Number(_) | Const::Truth(_) | Const::Str(_) | Const::Named(_) => Err(Why::Kind),
    }
}
