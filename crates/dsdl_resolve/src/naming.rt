//! The rules on the name and the form of a field or a constant.
ghost use Rattle.std.specs.Prelude.{◌≡◌, [], false, IfNone, IfOk};
ghost use Rattle.dsdl_resolve.specs.Additions.{IsBefore};
ghost use Rattle.dsdl_resolve.specs.Place.{Place};
ghost use Rattle.dsdl_resolve.specs.Places.{ArePlacesIn};
ghost use Rattle.dsdl_resolve.specs.Rules.{has_no_cast, has_wrong_capacity, has_wrong_cast_mode, has_wrong_width, is_no_message, least, named_rules};
ghost use Rattle.dsdl_resolve.specs.Said.{Said};

use crate::before::Before;
use crate::finding::Places;
use crate::form::{bounded, is_message};
use crate::primitive::primitive_of;
use crate::rules::{
    BEHIND_EXTENT, NAME_RESERVED, NAME_TAKEN, WRONG_CAPACITY, WRONG_CAST_MODE, WRONG_WIDTH,
};
use crate::width::width_in;
use const_expr::{Const, Scope};
use cy_bits::NoMemory;
use dsdl_names::is_reserved;
use dsdl_parse::{Bound, Form, Prefix, Scalar};
use std::alloc::Global;

/// Whether a type has a width that no type of its kind has, or one with a leading zero.
fn has_wrong_width(scalar: &Scalar) -> bool
    ensures { result ≡ has_wrong_width scalar.now }
{
    match scalar {
        Scalar::Primitive { prefix, name } => primitive_of(*prefix, name.as_str()).is_none(),
        Scalar::Reference(_) => false,
        Scalar::Void { digits } => width_in(1, digits.as_str().as_bytes()).is_none(),
    }
}

/// Whether a type of a name is saturated alone: `bool`, or a signed integer.
fn has_no_cast(name: &str) -> bool
    ensures { result ≡ has_no_cast name.now }
{
    name == "bool" || name.as_bytes().starts_with(b"int")
}

/// Whether `truncated` stands at a type that is saturated alone.
fn has_wrong_cast_mode(scalar: &Scalar) -> bool
    ensures { result ≡ has_wrong_cast_mode scalar.now }
{
    match scalar {
        Scalar::Primitive {
            prefix: Some(Prefix::Truncated),
            name,
        } => has_no_cast(name.as_str()),
        _ => false,
    }
}

/// Whether the length or the capacity of an array isn't whole from 1 to 2^20.
fn has_wrong_capacity(array: &Option<Bound>, value: &Option<Const>) -> bool
    ensures { result ≡ has_wrong_capacity array.now value.now }
{
    match array {
        Some(bound) => bounded(bound.sign, value).is_none(),
        None => false,
    }
}

/// Whether a type is no message and must be one, or is `void`, which has a name or is an item here.
pub fn is_no_message(
    alloc: Global,
    scope: &Scope,
    places: &Places,
    typed: bool,
    scalar: &Scalar,
) -> Result<bool, NoMemory>
    requires { ArePlacesIn scope.now places.now }
    ensures { IfOk result (λ breaks. breaks ≡ is_no_message scope.now typed scalar.now) }
{
    match scalar {
        Scalar::Primitive { .. } => Ok(false),
        Scalar::Reference(reference) => Ok(typed && !is_message(alloc, scope, places, reference)?),
        Scalar::Void { .. } => Ok(true),
    }
}

/// The least rule on its place, name and form that a field or a constant breaks.
pub fn named_rule(before: &Before, form: &Form, name: &str, bound: &Option<Const>) -> Option<u8>
    ensures rule { (p : Place) (said : Said) → IsBefore before.now p said →
        result ≡ least (named_rules p bound.now form.now name.now []) }
    ensures clear { IfNone result ((has_wrong_width form.now.scalar ≡ false) ×
        (has_wrong_capacity form.now.array bound.now ≡ false)) }
{
    if before.standing.extent {
        return Some(BEHIND_EXTENT);
    }
    if before.names.contains(name) {
        return Some(NAME_TAKEN);
    }
    if is_reserved(name.as_bytes()) {
        return Some(NAME_RESERVED);
    }
    if has_wrong_width(&form.scalar) {
        return Some(WRONG_WIDTH);
    }
    if has_wrong_cast_mode(&form.scalar) {
        return Some(WRONG_CAST_MODE);
    }
    if has_wrong_capacity(&form.array, bound) {
        return Some(WRONG_CAPACITY);
    }
    None
}
