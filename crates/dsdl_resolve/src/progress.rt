//! What stands while files are valued one after the other.
ghost use Rattle.std.specs.Prelude.{◌≡◌, ◌++◌, ◌∷◌, [], List as ListOf, OnOk, IfOk};
ghost use Rattle.dsdl_links.specs.declared.source.Source.{Source as SourceOf};
ghost use Rattle.const_expr.specs.Member.{AreConstants};
ghost use Rattle.dsdl_types.specs.Definitions.{IsDefinition};
ghost use Rattle.dsdl_resolve.specs.Places.{AreCountsIn};
ghost use Rattle.dsdl_resolve.specs.Progressing.{Holds, IsSound, WithDouble, WithType};
ghost use Rattle.dsdl_resolve.specs.Valuing.{Done, is_first, with_done};

use crate::counts::Counts;
use crate::finding::Places;
use crate::outcome::{Outcome, Valued};
use const_expr::{Constants, Scope, TypeConsts};
use cy_bits::{Bytes, List, NoMemory, TryCopy};
use dsdl_names::FullName;
use dsdl_types::{Definition, Namespace, Print};
use std::alloc::Global;

/// The files that are valued so far.
#[derive(Drop)]
pub struct Progress {
    /// The types that references mean, in the order of valuing, and the constants of messages among
    /// them.
    pub scope: Scope,
    /// What is known of them.
    pub places: Places,
    /// The numbers of their files.
    pub numbers: Vec<usize>,
    /// The types that no reference means, since a file before theirs in path order defines the same
    /// one.
    pub doubles: Vec<Definition>,
    /// The numbers of their files.
    pub double_numbers: Vec<usize>,
    /// What `@print` wrote.
    pub prints: List<Print>,
}

impl Progress {
    /// No file is valued.
    pub fn start(alloc: Global) -> Result<Progress, NoMemory>
        ensures holds { IfOk result (λ p. (sources : ListOf SourceOf) → Holds sources [] p) }
        ensures sound { IfOk result IsSound }
    {
        Ok(Progress {
            scope: Scope {
                constants: Constants::new(alloc),
                offset: None,
                namespace: Namespace {
                    definitions: List::empty(alloc),
                    prints: List::empty(alloc),
                },
                own: FullName::new(Bytes::from_slice(alloc, b".")?),
                members: List::empty(alloc),
            },
            places: Places::empty(alloc),
            numbers: Vec::new(alloc),
            doubles: Vec::new(alloc),
            double_numbers: Vec::new(alloc),
            prints: List::empty(alloc),
        })
    }

    /// One file more is valued; `first` says whether references mean it.
    pub fn add(
        &mut self,
        alloc: Global,
        number: usize,
        first: bool,
        done: Valued,
    ) -> Result<(), NoMemory>
        ensures holds { OnOk result ((sources : ListOf SourceOf) (before : ListOf Done) →
            first ≡ is_first sources number → Holds sources before self.old →
            Holds sources (with_done before number done.outcome) self.new) }
        ensures sound { OnOk result (IsSound self.old → IsDefinition done.outcome.definition →
            AreConstants done.outcome.constants →
            AreCountsIn done.counts done.outcome.definition.parts → IsSound self.new) }
    {
        let Valued { outcome, counts } = done;
        let Outcome {
            definition,
            constants,
            prints,
        } = outcome;
        if first {
            self.add_type(alloc, number, definition, constants, counts)?;
        } else {
            self.add_double(number, definition)?;
        }
        append(&mut self.prints, prints)
    }

    /// A type that references mean, with the number of its file.
    fn add_type(
        &mut self,
        alloc: Global,
        number: usize,
        definition: Definition,
        constants: Constants,
        counts: Counts,
    ) -> Result<(), NoMemory>
        ensures { OnOk result (WithType self.old self.new number definition constants counts) }
    {
        self.places.add(definition.id.copy(alloc)?, counts)?;
        self.scope.members.push(TypeConsts {
            id: definition.id.copy(alloc)?,
            constants,
        })?;
        self.scope.namespace.definitions.push(definition)?;
        self.numbers.push(number)?;
        Ok(())
    }

    /// A type that no reference means, with the number of its file.
    fn add_double(&mut self, number: usize, definition: Definition) -> Result<(), NoMemory>
        ensures { OnOk result (WithDouble self.old self.new number definition) }
    {
        self.doubles.push(definition)?;
        self.double_numbers.push(number)?;
        Ok(())
    }
}

/// Appends what `@print` wrote.
fn append(prints: &mut List<Print>, more: List<Print>) -> Result<(), NoMemory>
    ensures { OnOk result (prints.new ≡ prints.old ++ more) }
{
    for print in more.into_vec() {
        prints.push(print)?;
    }
    Ok(())
}
