//! What names mean, alone and behind a point (Cyphal Specification, section 3.5).
ghost use Rattle.std.specs.Prelude.{◌≡◌, IfOk, Err};
ghost use Rattle.const_expr.specs.Refusals.{Gives};
ghost use Rattle.const_expr.specs.declared.constant.Const.{out-Const};
ghost use Rattle.const_expr.specs.declared.constant.Const.TheOpen as layer;
ghost use Rattle.const_expr.specs.Constants.{IsConst, IsAscending, naturals};
ghost use Rattle.const_expr.specs.Member.{named, named_in, offset_of, a_number, of_set, of_other, of_definition, member, AreConstants, IsScope};
ghost use Rattle.const_expr.specs.Places.{ArePlaces};
ghost use Rattle.std.specs.Option.{option_copied};

use crate::constant::Const;
use crate::constants::Constants;
use crate::places::TypePlaces;
use crate::scope::Scope;
use crate::type_member::type_member;
use crate::whole::natural;
use crate::why::Why;
use bit_length::LengthSet;
use cy_bits::{Text, TryCopy};
use std::alloc::Global;

/// There is no such name.
pub fn unknown(alloc: Global, name: &str) -> Result<Const, Why>
    ensures value { Gives result (Err (Why.Unknown name.now)) }
    ensures kept { IfOk result IsConst }
{
    Err(Why::Unknown(Text::from_str(alloc, name)?))
}

/// The first constant of a name.
pub fn constant_named(alloc: Global, constants: &Constants, name: &str) -> Result<Const, Why>
    requires { AreConstants constants.now }
    ensures value { Gives result (named_in constants.now name.now) }
    ensures kept { IfOk result IsConst }
{
    match constants.find(name) {
        Some(constant) => Ok(constant.value.copy(alloc)?),
        None => unknown(alloc, name),
    }
}

/// The lengths that `_offset_` means, where it means any.
fn offset(alloc: Global, lengths: &Option<LengthSet>, name: &str) -> Result<Const, Why>
    ensures value { Gives result (offset_of lengths.now name.now) }
    ensures kept { IfOk result IsConst }
{
    match lengths {
        Some(lengths) => Ok(Const::Lengths(TryCopy::copy(lengths, alloc)?)),
        None => unknown(alloc, name),
    }
}

/// What a name that stands alone means.
pub fn named(alloc: Global, scope: &Scope, name: &str) -> Result<Const, Why>
    requires { IsScope scope.now }
    ensures value { Gives result (named scope.now name.now) }
    ensures kept { IfOk result IsConst }
{
    if name == "_offset_" {
        return offset(alloc, &scope.offset, name);
    }
    constant_named(alloc, &scope.constants, name)
}

/// A member of a set, which is to be a number.
fn number(member: Option<&Const>) -> Result<Const, Why>
    ensures value { Gives result (a_number (option_copied member.entry)) }
    ensures kept { IfOk result IsConst }
{
    match member {
        Some(Const::Number(number)) => Ok(Const::Number(*number)),
        _ => Err(Why::Kind),
    }
}

/// What a name behind a set means.
fn set_member(alloc: Global, members: &[Const], name: &str) -> Result<Const, Why>
    ensures value { Gives result (of_set members.now name.now) }
    ensures kept { IfOk result IsConst }
{
    match name.as_bytes() {
        b"min" => number(members.first()),
        b"max" => number(members.last()),
        b"count" => Ok(natural(members.len() as u64)),
        _ => unknown(alloc, name),
    }
}

/// What a name behind a set of lengths means.
fn lengths_member(alloc: Global, lengths: &LengthSet, name: &str) -> Result<Const, Why>
    ensures value { Gives result (of_set (naturals lengths.now) name.now) }
    ensures kept { IfOk result IsConst }
{
    let count = lengths.count();
    if name == "min" {
        return Ok(natural(lengths.min()));
    }
    if name == "max" {
        return Ok(natural(lengths.max()));
    }
    if name == "count" {
        return Ok(natural(count));
    }
    unknown(alloc, name)
}

/// What a name means behind what is no set and no type.
fn no_member(alloc: Global, name: &str) -> Result<Const, Why>
    ensures value { Gives result (of_other name.now) }
    ensures kept { IfOk result IsConst }
{
    match name.as_bytes() {
        b"min" | b"max" | b"count" => Err(Why::Kind),
        _ => unknown(alloc, name),
    }
}

/// What a name behind a constant and a point means.
#[tactic(auto, using(crate::proofs::Layers::layers), unfolding(crate::specs::Member::member))]
pub fn member(
    alloc: Global,
    scope: &Scope,
    places: &TypePlaces,
    of: Const,
    name: &str,
) -> Result<Const, Why>
    requires scope { IsScope scope.now }
    requires places { ArePlaces scope.now places.now }
    requires constant { IsConst of }
    ensures value { Gives result (member scope.now of name.now) }
    ensures kept { IfOk result IsConst }
{
    match &of {
        Const::Number(_) | Const::Truth(_) | Const::Str(_) => no_member(alloc, name),
        Const::Set(members) => set_member(alloc, members.as_slice(), name),
        Const::Lengths(lengths) => lengths_member(alloc, lengths, name),
        Const::Named(id) => type_member(alloc, scope, places, id, name),
    }
}
