//! What a file defines, or its first refusal.
ghost use Rattle.std.specs.Prelude.{◌≡◌, ◌<◌, ◌^◌, ◌+◌, ◌∷◌, ◌++◌, [], drop, length, List as ListOf, IfOk, OnOk, MatchResult, None, Some, All};
ghost use Rattle.std.specs.Option.{option_to_list};
ghost use Rattle.const_expr.specs.Member.{AreConstants, IsScope};
ghost use Rattle.const_expr.specs.declared.scope.NamedConst.{NamedConst as NamedConstOf};
ghost use Rattle.const_expr.specs.declared.scope.Scope.{Scope as ScopeOf};
ghost use Rattle.dsdl_parse.specs.Spelling.{WellSpelled};
ghost use Rattle.dsdl_parse.specs.declared.statement.Statement.{Statement as StatementOf};
ghost use Rattle.dsdl_parse.specs.declared.statement.Statement.TheVariants as said;
ghost use Rattle.dsdl_types.specs.Definitions.{IsDefinition, IsNamespace};
ghost use Rattle.dsdl_resolve.specs.Answers.{Answers};
ghost use Rattle.dsdl_resolve.specs.Additions.{IsStatementRefusal};
ghost use Rattle.dsdl_resolve.specs.Files.{IsFile, IsFileRefusal, IsStepped};
ghost use Rattle.dsdl_resolve.specs.Judged.{composite_of, finished, outcome, refusal_at};
ghost use Rattle.dsdl_resolve.specs.Opens.{IsReady, between, said_of};
ghost use Rattle.dsdl_resolve.specs.Place.{place};
ghost use Rattle.dsdl_resolve.specs.Places.{AreCountsIn, ArePlacesIn, IsMessageOf};
ghost use Rattle.dsdl_resolve.specs.Totals.{AreWithin};

use crate::addition::StatementError;
use crate::finding::Places;
use crate::open_section::{Half, OpenSection};
use crate::outcome::{FileError, Outcome, Refused, Valued};
use crate::printing::print_of;
use crate::room::reserve;
use crate::soundness::definitions_keep_rules;
use crate::split::{end_rule, judge_split};
use crate::standing::{Standing, is_split};
use crate::why::DsdlWhy;
use const_expr::{Constants, Scope};
use cy_bits::{List, NoMemory, Text, TryCopy};
use dsdl_names::FileName;
use dsdl_parse::Statement;
use dsdl_types::{Definition, Parts, Print};
use std::alloc::Global;
use std::mem::replace;

/// A file so far.
#[derive(Drop)]
pub struct OpenFile {
    /// Its last section.
    pub section: OpenSection,
    /// The section before `---`.
    pub request: Option<Half>,
    /// What it printed.
    pub prints: List<Print>,
}

/// The refusal of a statement, or want of memory, at this line.
fn at(line: u32, error: StatementError) -> FileError
    ensures { IsFileRefusal
        (λ n why. (n ≡ line) × (error ≡ StatementError.Refused why)) result }
{
    match error {
        StatementError::Refused(why) => FileError::Refused(Refused { line, why }),
        StatementError::NoMemory => FileError::NoMemory,
    }
}

impl OpenFile {
    /// A file before its first statement.
    fn begin(alloc: Global, lines: &[Statement]) -> OpenFile
        requires few { length lines.now < 2 ^ 32 }
        ensures file { (S : ScopeOf) → IsFile result [] S [] lines.now }
        ensures prints { result.prints ≡ [] }
    {
        OpenFile {
            section: OpenSection::begin(alloc, Standing::nothing(), lines),
            request: None,
            prints: List::empty(alloc),
        }
    }

    /// Takes `---`, before these statements.
    fn split(
        &mut self,
        alloc: Global,
        scope: &mut Scope,
        statement: &Statement,
        behind: &[Statement],
    ) -> Result<(), StatementError>
        requires split { statement.now ≡ said.Split }
        requires within { AreWithin self.old.section.before.totals }
        requires ready { IsReady self.old.section }
        requires few { length behind.now < 2 ^ 32 }
        ensures split { (S : ScopeOf) (front : ListOf StatementOf) →
            IsFile self.old scope.old.constants S front (said.Split ∷ behind.now) →
            IsNamespace S.namespace →
            MatchResult result
            (λ _. (refusal_at S (place front said.Split behind.now) ≡ None)
            × IsFile self.new scope.new.constants S (front ++ said.Split ∷ []) behind.now)
            (IsStatementRefusal (λ why. refusal_at S (place front said.Split behind.now)
            ≡ Some why)) }
        ensures prints { OnOk result (self.new.prints ≡ self.old.prints) }
        ensures scope { scope.new ≡ record scope.old { constants = scope.new.constants } }
    {
        let _judged = match judge_split(&self.section.before) {
            Ok(judged) => judged,
            Err(error) => return Err(error),
        };
        let standing = self.section.before.standing.with(statement);
        let next = OpenSection::begin(alloc, standing, behind);
        let closed = replace(&mut self.section, next);
        self.request = Some(closed.close(alloc)?);
        scope.constants = Constants::new(alloc);
        Ok(())
    }

    /// Takes a statement on a line, before others.
    fn take(
        &mut self,
        alloc: Global,
        path: &Text,
        scope: &mut Scope,
        places: &Places,
        line: u32,
        statement: &Statement,
        behind: &[Statement],
    ) -> Result<(), FileError>
        requires scope { IsScope scope.old }
        requires places { ArePlacesIn scope.old places.now }
        requires offset { scope.old.offset ≡ None }
        requires ready { IsReady self.old.section }
        requires few { length behind.now < 2 ^ 32 }
        ensures stepped { (S : ScopeOf) (front : ListOf StatementOf) →
            IsFile self.old scope.old.constants S front (statement.now ∷ behind.now) →
            scope.old ≡ between S scope.old.constants → WellSpelled statement.now →
            line ≡ length front + 1 →
            MatchResult result
            (λ _. IsStepped self.old self.new scope.new.constants S path.now
            front statement.now behind.now)
            (IsFileRefusal (λ n why. (n ≡ line) ×
            (refusal_at S (place front statement.now behind.now) ≡ Some why))) }
        ensures scope { scope.new ≡ record scope.old { constants = scope.new.constants } }
    {
        if is_split(statement) {
            return match self.split(alloc, scope, statement, behind) {
                Ok(()) => Ok(()),
                Err(error) => Err(at(line, error)),
            };
        }
        let values = match self.section.take(alloc, scope, places, statement) {
            Ok(values) => values,
            Err(error) => return Err(at(line, error)),
        };
        let print = print_of(alloc, path, line, statement, &values)?;
        push_some(&mut self.prints, print)?;
        Ok(())
    }

    /// What a file of a name defines, which isn't refused at its end.
    fn finish(self, name: &FileName, alloc: Global, scope: &mut Scope) -> Result<Outcome, NoMemory>
        requires ready { IsReady self.section }
        requires constants { AreConstants scope.old.constants }
        ensures kept { IfOk result (λ done. AreConstants done.constants) }
        ensures done { (S : ScopeOf) (lines : ListOf StatementOf) →
            IsFile self scope.old.constants S lines [] →
            IfOk result (λ done. done ≡ finished S name.now lines self.prints) }
        ensures parts { (constants : ListOf NamedConstOf) → IfOk result (λ done.
            IsMessageOf (composite_of (said_of self.section constants)) done.definition.parts) }
        ensures rest { scope.new ≡ record scope.old { constants = scope.new.constants } }
    {
        let OpenFile {
            section,
            request,
            prints,
        } = self;
        let Half { schema, types } = section.close(alloc)?;
        let constants = replace(&mut scope.constants, Constants::new(alloc));
        let id = name.id.copy(alloc)?;
        let port = name.port;
        match request {
            None => Ok(Outcome {
                definition: Definition {
                    id,
                    port,
                    types,
                    parts: Parts::Message(schema),
                },
                constants,
                prints,
            }),
            Some(request) => Ok(Outcome {
                definition: Definition {
                    id,
                    port,
                    types: joined(request.types, types)?,
                    parts: Parts::Service {
                        request: request.schema,
                        response: schema,
                    },
                },
                constants: Constants::new(alloc),
                prints,
            }),
        }
    }
}

/// Appends what was printed, if anything was.
fn push_some(prints: &mut List<Print>, print: Option<Print>) -> Result<(), NoMemory>
    ensures { OnOk result (prints.new ≡ prints.old ++ option_to_list print) }
{
    match print {
        Some(print) => prints.push(print),
        None => Ok(()),
    }
}

/// The statements behind one.
fn behind(lines: &[Statement], i: usize) -> &[Statement]
    requires { i < length lines.now }
    ensures { result.now ≡ drop (i + 1) lines.now }
{
    &lines[i + 1..]
}

/// Texts and others behind them.
fn joined(texts: List<Text>, others: List<Text>) -> Result<List<Text>, NoMemory>
    ensures { IfOk result (λ all. all ≡ texts ++ others) }
{
    let mut all = texts.into_vec();
    let mut others = others.into_vec();
    all.append(&mut others)?;
    Ok(List::new(all))
}

/// What a file by its path, its name and its statements defines, or its first refusal. The scope
/// has the types that the file refers to; its own names are set here.
pub fn value_file(
    alloc: Global,
    path: &Text,
    name: &FileName,
    lines: &[Statement],
    scope: &mut Scope,
    places: &Places,
    room: &mut u32,
) -> Result<Valued, FileError>
    requires scope { IsScope scope.old }
    requires places { ArePlacesIn scope.old places.now }
    requires spelled { All WellSpelled lines.now }
    requires few { length lines.now < 2 ^ 32 }
    ensures value { Answers (outcome scope.old path.now name.now lines.now) result }
    ensures sound { IfOk result (λ done. IsDefinition done.outcome.definition) }
    ensures constants { IfOk result (λ done. AreConstants done.outcome.constants) }
    ensures counts { IfOk result (λ done.
        AreCountsIn done.counts done.outcome.definition.parts) }
    ensures namespace { scope.new.namespace ≡ scope.old.namespace }
    ensures members { scope.new.members ≡ scope.old.members }
{
    definitions_keep_rules();
    let room_before = *room;
    scope.own = name.id.name.copy(alloc)?;
    scope.constants = Constants::new(alloc);
    scope.offset = None;
    let mut file = OpenFile::begin(alloc, lines);
    for i in 0..lines.len() {
        let statement = &lines[i];
        reserve(alloc, scope, places, statement, room)?;
        let rest = behind(lines, i);
        match file.take(alloc, path, scope, places, i as u32 + 1, statement, rest) {
            Ok(()) => {}
            Err(error) => return Err(error),
        }
    }
    match end_rule(name.port, file.section.before.standing) {
        Some(rule) => Err(FileError::Refused(Refused {
            line: lines.len() as u32,
            why: DsdlWhy::Rule(rule),
        })),
        None => {
            let counts = file.section.counts(room_before.saturating_sub(*room));
            let outcome = file.finish(name, alloc, scope)?;
            Ok(Valued { outcome, counts })
        }
    }
}
