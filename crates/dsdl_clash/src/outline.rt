//! What of definitions is compared.
ghost use Rattle.std.specs.Prelude.{◌≡◌};
ghost use Rattle.dsdl_types.specs.Schemas.{extent_of, is_delimited};
ghost use Rattle.dsdl_types.specs.Views.{sch};
ghost use Rattle.dsdl_clash.specs.Clashes.{same_kind, same_outline, same_outlines, same_port};

use dsdl_types::{Parts, Schema};

/// The extent of a composite in bits; 0 of another type.
fn extent(schema: &Schema) -> u64
    ensures { result ≡ extent_of (sch schema.now) }
{
    match schema {
        Schema::Struct(body) | Schema::Union(body) => body.extent,
        _ => 0,
    }
}

/// Whether a type is a composite that isn't sealed.
fn is_delimited(schema: &Schema) -> bool
    ensures { result ≡ is_delimited (sch schema.now) }
{
    match schema {
        Schema::Struct(body) | Schema::Union(body) => !body.sealed,
        _ => false,
    }
}

/// Whether two composites have the same extent and the same sealing.
fn same_outline(a: &Schema, b: &Schema) -> bool
    ensures { result ≡ same_outline (sch a.now) (sch b.now) }
{
    extent(a) == extent(b) && is_delimited(a) == is_delimited(b)
}

/// Whether both are messages, or both services.
pub fn same_kind(a: &Parts, b: &Parts) -> bool
    ensures { result ≡ same_kind a.now b.now }
{
    match (a, b) {
        (Parts::Message(_), Parts::Message(_)) => true,
        (Parts::Service { .. }, Parts::Service { .. }) => true,
        _ => false,
    }
}

/// Whether the kinds, the extents and the sealings are the same; of a service those of each half.
pub fn same_outlines(a: &Parts, b: &Parts) -> bool
    ensures { result ≡ same_outlines a.now b.now }
{
    match (a, b) {
        (Parts::Message(a), Parts::Message(b)) => same_outline(a, b),
        (
            Parts::Service {
                request: a,
                response: b,
            },
            Parts::Service {
                request: c,
                response: d,
            },
        ) => same_outline(a, c) && same_outline(b, d),
        _ => false,
    }
}

/// Whether both have a port, and it is the same.
pub fn same_port(a: Option<u16>, b: Option<u16>) -> bool
    ensures { result ≡ same_port a b }
{
    match (a, b) {
        (Some(a), Some(b)) => a == b,
        _ => false,
    }
}
