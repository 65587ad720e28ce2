ghost use Rattle.std.specs.Prelude.{◌≡◌, ◌++◌, All, IfOk, OnOk, map};
ghost use Rattle.dsdl_types.specs.Definitions.{IsDefinition, IsNamespace};
ghost use Rattle.std.specs.List.{flat_map};
ghost use Rattle.layout_text.specs.Appends.{Appends};
ghost use Rattle.layout_text.specs.Definitions.{AreDefinitionTexts};
ghost use Rattle.layout_text.specs.Namespaces.{IsNamespaceText, print_line};

use crate::definition::push_definition;
use crate::order::by_name;
use crate::words::{push_bytes, push_number};
use cy_bits::NoMemory;
use dsdl_types::{Definition, Namespace, Print};
use std::alloc::Global;

/// The text of a namespace: a line for what each `@print` wrote, and then of each type, by name and version, its
/// extent, its lengths and where its fields can stand, in bits (Cyphal Specification, section 3.7).
pub fn namespace_text(alloc: Global, names: &Namespace) -> Result<Vec<u8>, NoMemory>
    requires { IsNamespace names.now }
    ensures { IfOk result (λ text. IsNamespaceText names.now text.items) }
{
    let mut text = Vec::new(alloc);
    push_prints(&mut text, names.prints.as_slice())?;
    let sorted = by_name(alloc, names.definitions.as_slice())?;
    push_definitions(alloc, &mut text, sorted.as_slice())?;
    Ok(text)
}

/// Appends a line for what each `@print` wrote.
fn push_prints(text: &mut Vec<u8>, prints: &[Print]) -> Result<(), NoMemory>
    ensures { OnOk result (text.new.items ≡ text.old.items ++ flat_map print_line prints.now) }
{
    for print in prints {
        push_print(text, print)?;
    }
    Ok(())
}

/// Appends what one `@print` wrote.
fn push_print(text: &mut Vec<u8>, print: &Print) -> Result<(), NoMemory>
    ensures { OnOk result (text.new.items ≡ text.old.items ++ print_line print.now) }
{
    push_bytes(text, b"print ")?;
    push_bytes(text, print.file.as_str().as_bytes())?;
    push_bytes(text, b" ")?;
    push_number(text, print.line as u64)?;
    let value = print.text.as_str().as_bytes();
    if !value.is_empty() {
        push_bytes(text, b" ")?;
        push_bytes(text, value)?;
    }
    push_bytes(text, b"\n")
}

/// Appends the texts of definitions, in order.
fn push_definitions(
    alloc: Global,
    text: &mut Vec<u8>,
    definitions: &[&Definition],
) -> Result<(), NoMemory>
    requires { All IsDefinition (map (λ d. d.now) definitions.now) }
    ensures { OnOk result (Appends
        (AreDefinitionTexts (map (λ d. d.now) definitions.now)) text.old.items text.new.items) }
{
    for definition in definitions {
        push_definition(alloc, text, definition)?;
    }
    Ok(())
}
