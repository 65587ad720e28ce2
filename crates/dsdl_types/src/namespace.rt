ghost use Rattle.std.specs.Prelude.{◌≡◌};
ghost use Rattle.std.specs.Option.{option_copied};
ghost use Rattle.dsdl_types.specs.Finding.{same_id, definition_of, Finds};

use crate::Definition;
use cy_bits::{List, Text};
use dsdl_names::TypeId;

/// The types of a folder of files (Cyphal Specification, section 3.1).
#[derive(Drop)]
pub struct Namespace {
    /// The definitions, in the order of their files' paths.
    pub definitions: List<Definition>,
    /// What `@print` wrote.
    pub prints: List<Print>,
}

/// What one `@print` wrote (Cyphal Specification, section 3.6).
#[derive(Drop)]
pub struct Print {
    /// The path of the file.
    pub file: Text,
    /// The line, counted from 1.
    pub line: u32,
    /// The value's text.
    pub text: Text,
}

impl Namespace {
    /// The first definition of a type, or nothing where the namespace has none. Takes no memory.
    pub fn find(&self, id: &TypeId) -> Option<&Definition>
        ensures value { option_copied result ≡ definition_of self.now.definitions id.now }
        ensures first { Finds self.now.definitions id.now (option_copied result) }
    {
        for definition in self.definitions.as_slice() {
            if has_id(definition, id) {
                return Some(definition);
            }
        }
        None
    }
}

/// Whether a definition is of this type.
fn has_id(definition: &Definition, id: &TypeId) -> bool
    ensures { result ≡ same_id definition.now.id id.now }
{
    definition.id == *id
}
