//! The first definition that clashes with one before it.
ghost use Rattle.std.specs.Prelude.{◌≡◌, ◌<◌, ◌≤◌, ℕ, true, false, length, take, slice_index, is_none, IfOk};
ghost use Rattle.std.specs.List.{HoldsAt, list_all};
ghost use Rattle.dsdl_clash.specs.Clashes.{clashes_with, first_clash, same_name, versions_clash, ports_clash};
ghost use Rattle.dsdl_clash.specs.Kinds.{clash_of, first_rival};
ghost use Rattle.dsdl_clash.specs.Names.{name_numbers};
ghost use Rattle.dsdl_types.specs.declared.definition.Definition.{Definition as DefinitionOf};

use crate::numbers::name_numbers;
use crate::outline::{same_kind, same_outlines, same_port};
use cy_bits::NoMemory;
use dsdl_types::Definition;
use std::alloc::Global;

/// By what definitions clash.
#[derive(Clone, Copy)]
pub enum By {
    /// By their versions.
    Version,
    /// By their ports.
    Port,
}

/// The first definition whose version clashes with that of one before it, by its number, counted
/// from 0. The definitions are in path order.
///
/// Definitions of the same full name and major number clash where their minor numbers are equal.
/// Where the major number isn't 0 they also clash where one is a message and the other a service,
/// or where an extent or a sealing differs; of a service each half counts (Cyphal Specification,
/// section 3.8).
pub fn first_version_clash(
    alloc: Global,
    definitions: &[Definition],
) -> Result<Option<usize>, NoMemory>
    ensures { IfOk result (λ found. found ≡ first_clash versions_clash definitions.now) }
{
    first_clash(alloc, By::Version, definitions)
}

/// The first definition whose port clashes with that of one before it, by its number, counted from
/// 0. The definitions are in path order.
///
/// Messages of the same port, and services of the same port, clash where their full names differ,
/// or where their major numbers differ and neither is 0 (Cyphal Specification, section 3.8).
pub fn first_port_clash(
    alloc: Global,
    definitions: &[Definition],
) -> Result<Option<usize>, NoMemory>
    ensures { IfOk result (λ found. found ≡ first_clash ports_clash definitions.now) }
{
    if have_no_port(definitions) {
        return Ok(None);
    }
    first_clash(alloc, By::Port, definitions)
}

/// Whether no definition has a port.
fn have_no_port(definitions: &[Definition]) -> bool
    ensures { result ≡ list_all (λ d. is_none d.port) definitions.now }
{
    definitions
        .iter()
        .all(|definition| definition.port.is_none())
}

/// The first definition that clashes with one before it.
fn first_clash(alloc: Global, by: By, definitions: &[Definition]) -> Result<Option<usize>, NoMemory>
    ensures { IfOk result (λ found. found ≡ first_clash (clash_of by) definitions.now) }
{
    let names = name_numbers(alloc, definitions)?;
    for at in 0..definitions.len() {
        if clashes_with_earlier(by, definitions, names.as_slice(), at) {
            return Ok(Some(at));
        }
    }
    Ok(None)
}

/// Whether the definition of this number clashes with one before it.
fn clashes_with_earlier(by: By, definitions: &[Definition], names: &[usize], at: usize) -> bool
    requires at { at < length definitions.now }
    requires names { names.now ≡ name_numbers definitions.now }
    ensures { HoldsAt (λ d. result
        ≡ clashes_with (clash_of by) (take at definitions.now) d) definitions.now at }
{
    let definition = &definitions[at];
    if is_alone(by, definition) {
        return false;
    }
    for earlier in first_rival(by, names, at)..at {
        let same = names[earlier] == names[at];
        if clash(by, &definitions[earlier], definition, same) {
            return true;
        }
    }
    false
}

/// A number before which no definition clashes with that of another number: by versions that of the
/// first definition of its full name.
fn first_rival(by: By, names: &[usize], at: usize) -> usize
    requires { at < length names.now }
    ensures rival { result ≡ first_rival by names.now at }
    ensures bound { result ≤ at }
{
    match by {
        By::Version => names[at].min(at),
        By::Port => 0,
    }
}

/// Whether a definition clashes with none, whatever stands before it: by ports where it has none.
fn is_alone(by: By, definition: &Definition) -> bool
    ensures { result ≡ true → (a : DefinitionOf) → clash_of by a definition.now ≡ false }
{
    match by {
        By::Version => false,
        By::Port => definition.port.is_none(),
    }
}

/// Whether a definition clashes with a later one, where it is known whether their full names are
/// equal.
fn clash(by: By, a: &Definition, b: &Definition, same: bool) -> bool
    requires { same ≡ same_name a.now b.now }
    ensures { result ≡ clash_of by a.now b.now }
{
    match by {
        By::Version => {
            same && a.id.major == b.id.major
                && (a.id.minor == b.id.minor
                    || a.id.major != 0 && !same_outlines(&a.parts, &b.parts))
        }
        By::Port => {
            same_port(a.port, b.port)
                && same_kind(&a.parts, &b.parts)
                && (!same || a.id.major != b.id.major && a.id.major != 0 && b.id.major != 0)
        }
    }
}
