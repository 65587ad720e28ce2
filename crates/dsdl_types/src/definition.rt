use crate::Schema;
use cy_bits::{List, Text};
use dsdl_names::TypeId;

/// A type of a namespace (Cyphal Specification, section 3.1), as its file defines it.
#[derive(Drop)]
pub struct Definition {
    /// Its full name and version.
    pub id: TypeId,
    /// Its fixed port, where it has one: 0 to 8191 of a message, 0 to 511 of a service.
    pub port: Option<u16>,
    /// The texts of the types of its fields that aren't padding, in order; the request's before the response's.
    pub types: List<Text>,
    /// Its schema, or those of a service.
    pub parts: Parts,
}

/// What a type is used for (Cyphal Specification, section 3.4.5).
#[derive(Drop)]
pub enum Parts {
    /// A message, or a part of other types.
    Message(Schema),
    /// A service.
    Service {
        /// The schema of its requests.
        request: Schema,
        /// The schema of its responses.
        response: Schema,
    },
}
