//! Lines of a plan that subscribe to a subject.
ghost use Rattle.std.specs.Prelude.{◌≡◌, ◌≤◌, IfSome};
ghost use Rattle.node_plan.specs.IsPlan.{IsShape};
ghost use Rattle.node_plan.specs.Line.{said_of_shape, said_of_sub, said_of_raw, IsSaid};
ghost use Rattle.node_plan.specs.Words.{IsWithin};

use crate::line::Said;
use crate::plan::{Sub, SubShape};
use crate::words::Number;

/// The greatest extent of a subscription, in bytes.
pub const MAX_EXTENT: u32 = 65_536;

fn sub_of_shape(port: u16, sources: u16, shape: Option<SubShape>) -> Said
    requires port { port ≤ 8191 }
    requires some_source { 1 ≤ sources }
    requires few_sources { sources ≤ 128 }
    requires shape { IfSome shape IsShape }
    ensures value { result ≡ said_of_shape port sources shape }
    ensures sound { IsSaid result }
{
    let Some(shape) = shape else {
        return Said::UnknownType { port };
    };
    if shape.extent() > MAX_EXTENT {
        return Said::LongType { port };
    }
    Said::Sub(Sub {
        port,
        sources,
        shape,
    })
}

/// `sub PORT SOURCES TYPE`, where the type is what the third word names.
pub fn sub_of_type(port: Number, sources: Number, shape: Option<SubShape>) -> Said
    requires port { IsWithin 0 8191 port }
    requires sources { IsWithin 1 128 sources }
    requires shape { IfSome shape IsShape }
    ensures value { result ≡ said_of_sub port sources shape }
    ensures sound { IsSaid result }
{
    match (port, sources) {
        (Number::NoNumber, _) | (_, Number::NoNumber) => Said::NoForm,
        (Number::Within(port), Number::Within(sources)) => {
            sub_of_shape(port as u16, sources as u16, shape)
        }
        _ => Said::Outside,
    }
}

/// `sub PORT SOURCES raw N`.
pub fn raw_sub(port: Number, sources: Number, extent: Number) -> Said
    requires port { IsWithin 0 8191 port }
    requires sources { IsWithin 1 128 sources }
    requires extent { IsWithin 0 65536 extent }
    ensures value { result ≡ said_of_raw port sources extent }
    ensures sound { IsSaid result }
{
    match (port, sources, extent) {
        (Number::NoNumber, _, _) | (_, Number::NoNumber, _) | (_, _, Number::NoNumber) => {
            Said::NoForm
        }
        (Number::Within(port), Number::Within(sources), Number::Within(extent)) => Said::Sub(Sub {
            port: port as u16,
            sources: sources as u16,
            shape: SubShape::Raw(extent),
        }),
        _ => Said::Outside,
    }
}
