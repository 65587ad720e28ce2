//! What a definition has of a type that lines speak of: a message, or a half of a service.
ghost use Rattle.std.specs.Prelude.{◌≡◌};
ghost use Rattle.std.specs.Option.{option_copied};
ghost use Rattle.type_changes.specs.Halves.{in_parts, message_in, request_in, response_in, port_in};

use dsdl_types::{Definition, Parts, Schema};

/// The schema of a message.
pub fn message_of(definition: Option<&Definition>) -> Option<&Schema>
    ensures { option_copied result ≡ in_parts message_in (option_copied definition.entry) }
{
    match &definition?.parts {
        Parts::Message(schema) => Some(schema),
        Parts::Service { .. } => None,
    }
}

/// The schema of a service's requests.
pub fn request_of(definition: Option<&Definition>) -> Option<&Schema>
    ensures { option_copied result ≡ in_parts request_in (option_copied definition.entry) }
{
    match &definition?.parts {
        Parts::Message(_) => None,
        Parts::Service { request, .. } => Some(request),
    }
}

/// The schema of a service's responses.
pub fn response_of(definition: Option<&Definition>) -> Option<&Schema>
    ensures { option_copied result ≡ in_parts response_in (option_copied definition.entry) }
{
    match &definition?.parts {
        Parts::Message(_) => None,
        Parts::Service { response, .. } => Some(response),
    }
}

/// The fixed port of a definition that may be absent.
pub fn port_of(definition: Option<&Definition>) -> Option<u16>
    ensures { result ≡ port_in (option_copied definition.entry) }
{
    definition?.port
}
