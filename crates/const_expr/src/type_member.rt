//! What names behind a type mean (Cyphal Specification, section 3.5).
ghost use Rattle.std.specs.Prelude.{◌≡◌, ◌^◌, nat_lt, IfOk, Some};
ghost use Rattle.dsdl_types.specs.Schemas.{is_delimited, extent_of};
ghost use Rattle.dsdl_types.specs.Greatest.{longest, as_part};
ghost use Rattle.dsdl_types.specs.Views.{sch};
ghost use Rattle.dsdl_types.specs.Finding.{definition_of};
ghost use Rattle.dsdl_types.specs.Definitions.{IsType};
ghost use Rattle.const_expr.specs.Refusals.{Gives};
ghost use Rattle.const_expr.specs.Constants.{IsConst};
ghost use Rattle.const_expr.specs.Member.{constants_of, lengths_of, of_message, of_definition, AreConstants, IsScope};
ghost use Rattle.const_expr.specs.Places.{ArePlaces, defined, ids_of, place_in};

use crate::constant::Const;
use crate::constants::Constants;
use crate::member::{constant_named, unknown};
use crate::places::{TypePlaces, find};
use crate::scope::Scope;
use crate::whole::natural;
use crate::why::Why;
use dsdl_names::TypeId;
use dsdl_types::{Parts, Schema};
use layout::part_lengths;
use std::alloc::Global;

/// The greatest bit length that is computed with.
const LONGEST: u64 = 1 << 32;

/// The extent of a composite in bits; 0 of another type.
fn extent(schema: &Schema) -> u64
    ensures { result ≡ extent_of (sch schema.now) }
{
    match schema {
        Schema::Struct(body) | Schema::Union(body) => body.extent,
        _ => 0,
    }
}

/// Whether some length of a composite as a part of another is above 2^32 bits: that of a delimited one whose extent
/// leaves no room for the delimiter header.
fn is_long(schema: &Schema) -> bool
    requires { IsType schema.now }
    ensures { result ≡ nat_lt (2 ^ 32)
        (as_part (is_delimited (sch schema.now)) (extent_of (sch schema.now))
        (longest (sch schema.now))) }
{
    match schema {
        Schema::Struct(body) | Schema::Union(body) => { !body.sealed && body.extent > LONGEST - 32 }
        _ => false,
    }
}

/// The lengths of a composite as a part of another; Kind where one is above 2^32 bits.
fn bit_length(alloc: Global, schema: &Schema) -> Result<Const, Why>
    requires { IsType schema.now }
    ensures value { Gives result (lengths_of (sch schema.now)) }
    ensures kept { IfOk result IsConst }
{
    if is_long(schema) {
        return Err(Why::Kind);
    }
    let lengths = part_lengths(alloc, schema)?;
    // `count` says that the members ascend.
    let _ = lengths.count();
    Ok(Const::Lengths(lengths))
}

/// The constants of a type that stands at this place.
fn constants_at<'a>(scope: &'a Scope, place: usize, id: &TypeId) -> &'a Constants
    requires scope { IsScope scope.now }
    requires members { ids_of scope.now.members ≡ defined scope.now }
    requires place { place_in (defined scope.now) id.now ≡ Some place }
    ensures value { result.now ≡ constants_of scope.now.members id.now }
    ensures kept { AreConstants result.now }
{
    &scope.members.as_slice()[place].constants
}

/// What a name behind a message with these constants means.
fn message_member(
    alloc: Global,
    schema: &Schema,
    constants: &Constants,
    name: &str,
) -> Result<Const, Why>
    requires schema { IsType schema.now }
    requires constants { AreConstants constants.now }
    ensures value { Gives result (of_message (sch schema.now) constants.now name.now) }
    ensures kept { IfOk result IsConst }
{
    if name == "_bit_length_" {
        return bit_length(alloc, schema);
    }
    if name == "_extent_" {
        return Ok(natural(extent(schema)));
    }
    constant_named(alloc, constants, name)
}

/// What a name behind a type means that the scope may have. A service has no members.
pub fn type_member(
    alloc: Global,
    scope: &Scope,
    places: &TypePlaces,
    id: &TypeId,
    name: &str,
) -> Result<Const, Why>
    requires scope { IsScope scope.now }
    requires places { ArePlaces scope.now places.now }
    ensures value { Gives result
        (of_definition scope.now id.now
        (definition_of scope.now.namespace.definitions id.now) name.now) }
    ensures kept { IfOk result IsConst }
{
    let Some((place, definition)) = find(scope, places, id) else {
        return unknown(alloc, name);
    };
    match &definition.parts {
        Parts::Message(schema) => {
            let constants = constants_at(scope, place, id);
            message_member(alloc, schema, constants, name)
        }
        Parts::Service { .. } => Err(Why::Kind),
    }
}
