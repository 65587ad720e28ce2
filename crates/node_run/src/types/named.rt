//! What a name stands for in a namespace.
ghost use Rattle.std.specs.Prelude.{◌≡◌, ◌⊎◌, IfOk, IfErr, Some, None, option_map, codes};
ghost use Rattle.std.specs.Option.{option_copied};
ghost use Rattle.dsdl_names.specs.Names.{type_id_of};
ghost use Rattle.dsdl_types.specs.Definitions.{IsNamespace, IsType};
ghost use Rattle.dsdl_types.specs.Views.{sch};
ghost use Rattle.node_run.specs.NamedTypes.{message_named, without_end, parts_at, parts_of, named, requests_of, responses_of};

use crate::status::Status;
use cy_bits::{NoMemory, Text};
use dsdl_names::{NameError, parse_type_id};
use dsdl_types::{Namespace, Parts, Schema};
use std::alloc::Global;

/// What a name stands for.
#[derive(Clone, Copy)]
pub enum NamedParts<'a> {
    /// A message, or a half of a service.
    Message(&'a Schema),
    /// A service with both halves.
    Service {
        request: &'a Schema,
        response: &'a Schema,
    },
}

/// What a name stands for in a namespace, or nothing where the namespace hasn't got it:
/// `a.b.Name.1.0` is a type, with `.Request` or `.Response` behind it a half of a service.
pub fn named<'a>(
    alloc: Global,
    names: &'a Namespace,
    name: &str,
) -> Result<Option<NamedParts<'a>>, NoMemory>
    ensures { IfOk result (λ found. option_map parts_of found ≡ named names.entry.now name.now) }
{
    if let Some(service) = without_end(name, ".Request") {
        return match type_named(alloc, names, service)? {
            Some(Parts::Service { request, .. }) => Ok(Some(NamedParts::Message(request))),
            _ => Ok(None),
        };
    }
    if let Some(service) = without_end(name, ".Response") {
        return match type_named(alloc, names, service)? {
            Some(Parts::Service { response, .. }) => Ok(Some(NamedParts::Message(response))),
            _ => Ok(None),
        };
    }
    match type_named(alloc, names, name)? {
        Some(Parts::Message(schema)) => Ok(Some(NamedParts::Message(schema))),
        Some(Parts::Service { request, response }) => Ok(Some(NamedParts::Service {
            request,
            response,
        })),
        None => Ok(None),
    }
}

/// What a name stands for, or how a command ends where that is nothing.
pub fn found<'a>(alloc: Global, names: &'a Namespace, name: &str) -> Result<NamedParts<'a>, Status>
    ensures found { IfOk result (λ found. named names.entry.now name.now ≡ Some (parts_of found)) }
    ensures missing { IfErr result (λ stat. (stat ≡ Status.NoMemory)
        ⊎ ((stat ≡ Status.NoFile name.now) × (named names.entry.now name.now ≡ None))) }
{
    match named(alloc, names, name) {
        Ok(Some(found)) => Ok(found),
        Ok(None) => Err(missing(alloc, name)),
        Err(_) => Err(Status::NoMemory),
    }
}

/// The schema of the message, or of the half of a service, that a name stands for, or how a command
/// ends where it stands for none.
pub fn message<'a>(alloc: Global, names: &'a Namespace, name: &str) -> Result<&'a Schema, Status>
    requires { IsNamespace names.now }
    ensures found { IfOk result (λ schema.
        message_named names.entry.now name.now ≡ Some (sch schema.now)) }
    ensures rules { IfOk result (λ schema. IsType schema.now) }
    ensures missing { let found = message_named names.entry.now name.now in
        IfErr result (λ stat. (stat ≡ Status.NoMemory)
        ⊎ ((stat ≡ Status.NoFile name.now) × (found ≡ None))) }
{
    match found(alloc, names, name) {
        Ok(NamedParts::Message(schema)) => Ok(schema),
        Ok(NamedParts::Service { .. }) => Err(missing(alloc, name)),
        Err(status) => Err(status),
    }
}

/// How a command ends where there is nothing of a name.
fn missing(alloc: Global, name: &str) -> Status
    ensures { (result ≡ Status.NoMemory) ⊎ (result ≡ Status.NoFile name.now) }
{
    match Text::from_str(alloc, name) {
        Ok(path) => Status::NoFile { path },
        Err(_) => Status::NoMemory,
    }
}

/// A text without an end, where it has it.
fn without_end<'a>(text: &'a str, end: &str) -> Option<&'a str>
    ensures { option_copied result ≡ without_end end.now text.entry.now }
{
    text.strip_suffix(end)
}

/// The schemas of the type of a name with its version.
fn type_named<'a>(
    alloc: Global,
    names: &'a Namespace,
    name: &str,
) -> Result<Option<&'a Parts>, NoMemory>
    ensures { IfOk result (λ found.
        option_copied found ≡ parts_at names.entry.now (type_id_of name.now)) }
{
    match parse_type_id(alloc, name) {
        Ok(id) => match names.find(&id) {
            Some(definition) => Ok(Some(&definition.parts)),
            None => Ok(None),
        },
        Err(NameError::NoMemory) => Err(NoMemory),
        Err(_) => Ok(None),
    }
}
