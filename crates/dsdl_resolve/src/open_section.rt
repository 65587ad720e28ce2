//! A section of a file that isn't at its end.
ghost use Rattle.std.specs.Prelude.{◌≡◌, ◌≢◌, ◌||◌, if◌then◌else◌, ◌<◌, ◌^◌, ◌∷◌, ◌++◌, ℕ, [], true, false, length, List as ListOf, Option as OptionOf, Some, None, Ok, Err, IfOk, IfSome, OnOk, MatchResult};
ghost use Rattle.std.specs.Str.{bytes_eq};
ghost use Rattle.const_expr.specs.Constants.{IsConst};
ghost use Rattle.const_expr.specs.Member.{IsScope};
ghost use Rattle.const_expr.specs.declared.scope.Scope.{Scope as ScopeOf};
ghost use Rattle.const_expr.specs.declared.scope.NamedConst.{NamedConst as NamedConstOf};
ghost use Rattle.dsdl_parse.specs.Spelling.{WellSpelled};
ghost use Rattle.dsdl_parse.specs.declared.statement.Statement.{Statement as StatementOf};
ghost use Rattle.dsdl_resolve.specs.Additions.{AreValuesOf, IsStatementRefusal, name_of, with_addition};
ghost use Rattle.dsdl_resolve.specs.Judged.{body_of, cause_of, composite_of, refusal_at};
ghost use Rattle.dsdl_resolve.specs.Said.{Said as SaidOf, greatest as greatest_of};
ghost use Rattle.dsdl_types.specs.Views.{sch};
ghost use Rattle.dsdl_types.specs.declared.schema.Schema.TheVariants as schema;
ghost use Rattle.dsdl_resolve.specs.Opens.{AreOffsets, IsOpen, IsReady, IsTaken, between, is_early, kept_offsets, of_values, on_name, said_of, value_refusal, with_offset};
ghost use Rattle.dsdl_resolve.specs.Place.{last_section, place};
ghost use Rattle.dsdl_resolve.specs.Places.{ArePlacesIn};
ghost use Rattle.dsdl_resolve.specs.Rules.{is_used};
ghost use Rattle.dsdl_resolve.specs.Says.{attribute_of, is_split, names_offset};
ghost use Rattle.dsdl_resolve.specs.SoundSections.{KeepsRules};
ghost use Rattle.dsdl_resolve.specs.Standing.{Stands};
ghost use Rattle.dsdl_resolve.specs.Totals.{AreCountsOf};
ghost use Rattle.dsdl_resolve.specs.Values.{values, with_field};
ghost use Rattle.std.specs.Option.{option_copied};
ghost use Rattle.dsdl_resolve.specs.declared.typed.Typed.{Typed as TypedOf};

use crate::addition::{Addition, Judged, StatementError};
use crate::attributes::Attributes;
use crate::before::Before;
use crate::counts::Counts;
use crate::finding::Places;
use crate::judge::judge;
use crate::mention::names_offset;
use crate::offsets::{Offsets, offsets_of};
use crate::rules::UNION_OFFSET_TOO_EARLY;
use crate::standing::Standing;
use crate::totals::Totals;
use crate::typed::Typed;
use crate::values::{Values, values_of};
use crate::whole::{Whole, whole_of};
use crate::why::{DsdlWhy, ExprWhy};
use bit_length::LengthSet;
use const_expr::{Constants, ExprError, NamedConst, Scope};
use cy_bits::{List, NoMemory, Text, TryCopy};
use dsdl_parse::Statement;
use dsdl_types::{Body, Field, Schema, Shared};
use std::alloc::Global;

/// A section of a file so far. Its constants stand in the scope of its expressions.
#[derive(Drop)]
pub struct OpenSection {
    /// What is known before the next statement.
    pub before: Before,
    /// What all of its statements say together.
    pub whole: Whole,
    /// Its fields or variants, in order, padding among them.
    pub fields: List<Field>,
    /// The texts of the types of those that aren't padding.
    pub types: List<Text>,
    /// The extent in bits, where `@extent` stands.
    pub extent: Option<u64>,
    /// The lengths that `_offset_` meant last.
    pub offsets: Option<Offsets>,
}

/// A section at its end.
#[derive(Drop)]
pub struct Half {
    /// The structure or the union that it defines.
    pub schema: Schema,
    /// The texts of the types of its fields that aren't padding.
    pub types: List<Text>,
}

/// The refusal of an expression.
fn refused(error: ExprError) -> StatementError
    ensures { IsStatementRefusal (λ why. (error ≢ ExprError.NoMemory) ×
        (why ≡ DsdlWhy.Expr (cause_of error))) result }
{
    let why = match error {
        ExprError::Kind { .. } => ExprWhy::Kind,
        ExprError::Range { .. } => ExprWhy::Range,
        ExprError::Zero { .. } => ExprWhy::Zero,
        ExprError::Unknown { .. } => ExprWhy::Unknown,
        ExprError::Large { .. } => ExprWhy::Large,
        ExprError::NoMemory => return StatementError::NoMemory,
    };
    StatementError::Refused(DsdlWhy::Expr(why))
}

/// The lengths of a section with so many fields.
fn remembered(set: Option<LengthSet>, fields: usize) -> Option<Offsets>
    ensures { (ns : ListOf ℕ) → set ≡ Some ns →
        result ≡ Some (record { set = ns; fields = fields }) }
{
    match set {
        Some(set) => Some(Offsets { set, fields }),
        None => None,
    }
}

/// The values of a statement, or its refusal.
fn valued(values: Result<Values, ExprError>) -> Result<Values, StatementError>
    ensures { MatchResult result (λ vs. values ≡ Ok vs)
        (IsStatementRefusal (λ why. (values ≢ Err ExprError.NoMemory) ×
        (of_values values ≡ Some why))) }
{
    match values {
        Ok(values) => Ok(values),
        Err(error) => Err(refused(error)),
    }
}

/// The name of an attribute, which is a field or a constant.
fn attribute_of(statement: &Statement) -> Option<&Text>
    ensures { option_copied result ≡ attribute_of statement.now }
{
    match statement {
        Statement::Field { form: _, name } => Some(name),
        Statement::Constant {
            form: _,
            name,
            expr: _,
        } => Some(name),
        _ => None,
    }
}

/// A name, or an empty one where there is none.
fn copy_or_empty(alloc: Global, name: Option<&Text>) -> Result<Text, NoMemory>
    ensures { IfOk result (λ t. t ≡ name_of (option_copied name.entry)) }
{
    match name {
        Some(name) => name.copy(alloc),
        None => Text::from_str(alloc, ""),
    }
}

impl OpenSection {
    /// A section before its first statement, which is the first of these.
    pub fn begin(alloc: Global, standing: Standing, lines: &[Statement]) -> OpenSection
        requires few { length lines.now < 2 ^ 32 }
        ensures { (scope : ScopeOf) (front : ListOf StatementOf) → Stands standing front [] →
            last_section front ≡ [] → KeepsRules scope front →
            IsOpen result [] scope front lines.now }
    {
        OpenSection {
            before: Before {
                standing,
                names: Attributes::new(alloc),
                totals: Totals::empty(false),
            },
            whole: whole_of(lines),
            fields: List::empty(alloc),
            types: List::empty(alloc),
            extent: None,
            offsets: None,
        }
    }

    /// Whether the section is a union that has fewer than two variants so far, or has further ones.
    fn is_early(&self) -> bool
        ensures { result ≡ is_early self.now }
    {
        let so_far = self.before.standing.fields;
        self.whole.union && (so_far < 2 || so_far < self.whole.fields)
    }

    /// The values of a statement that names `_offset_`.
    fn values_with_offset(
        &mut self,
        alloc: Global,
        scope: &mut Scope,
        places: &Places,
        statement: &Statement,
    ) -> Result<Values, ExprError>
        requires scope { IsScope scope.old }
        requires places { ArePlacesIn scope.old places.now }
        requires ready { IsReady self.old }
        requires offset { scope.old.offset ≡ None }
        requires mention { names_offset statement.now ≡ true }
        requires late { is_early self.old ≡ false }
        ensures rest { self.new ≡ record self.old { offsets = self.new.offsets } }
        ensures offsets { AreOffsets self.old.before.totals.union self.old.fields self.new.offsets }
        ensures scope { scope.new ≡ scope.old }
        ensures value { result ≢ Err ExprError.NoMemory →
            result ≡ values (with_offset scope.old self.old statement.now) statement.now }
        ensures kept { IfOk result (λ vs. IfSome vs.value IsConst) }
    {
        let known = self.offsets.take();
        let set = offsets_of(alloc, self.before.totals, self.fields.as_slice(), known)?;
        scope.offset = Some(set);
        let values = values_of(alloc, scope, places, statement);
        self.offsets = remembered(scope.offset.take(), self.fields.len());
        values
    }

    /// The values of a statement's expressions.
    fn worth(
        &mut self,
        alloc: Global,
        scope: &mut Scope,
        places: &Places,
        statement: &Statement,
    ) -> Result<Values, StatementError>
        requires scope { IsScope scope.old }
        requires places { ArePlacesIn scope.old places.now }
        requires offset { scope.old.offset ≡ None }
        requires ready { IsReady self.old }
        ensures rest { self.new ≡ record self.old { offsets = self.new.offsets } }
        ensures offsets { AreOffsets self.old.before.totals.union self.old.fields self.new.offsets }
        ensures scope { scope.new ≡ scope.old }
        ensures value { IfOk result (λ vs. values
            (with_offset scope.old self.old statement.now) statement.now ≡ Ok vs) }
        ensures refusal { MatchResult result
            (λ vs. value_refusal scope.old self.old statement.now ≡ None)
            (IsStatementRefusal (λ why. value_refusal scope.old self.old statement.now
            ≡ Some why)) }
        ensures kept { IfOk result (λ vs. IfSome vs.value IsConst) }
    {
        if !names_offset(alloc, statement)? {
            return valued(values_of(alloc, scope, places, statement));
        }
        if self.is_early() {
            return Err(StatementError::Refused(DsdlWhy::Rule(UNION_OFFSET_TOO_EARLY)));
        }
        valued(self.values_with_offset(alloc, scope, places, statement))
    }

    /// Adds a field of a type.
    fn add_field(&mut self, name: Text, typed: Typed) -> Result<(), NoMemory>
        ensures says { OnOk result ((constants : ListOf NamedConstOf) →
            said_of self.new constants ≡ with_field (said_of self.old constants) name
            (Some typed)) }
        ensures rest { OnOk result (self.new
            ≡ record self.old { fields = self.new.fields; types = self.new.types }) }
    {
        let Typed { schema, text } = typed;
        self.fields.push(Field { name, schema })?;
        self.types.push(text)
    }

    /// Adds what a statement adds, which may have a name, and what the totals are with it.
    fn add(
        &mut self,
        alloc: Global,
        constants: &mut Constants,
        name: Option<&Text>,
        judged: Judged,
    ) -> Result<(), NoMemory>
        ensures says { OnOk result (with_addition (said_of self.old constants.old)
            (name_of (option_copied name.entry)) judged.addition
            ≡ record (said_of self.new constants.new) {
              union =
                  (with_addition (said_of self.old constants.old)
                  (name_of (option_copied name.entry)) judged.addition).union;
            }) }
        ensures totals { OnOk result (self.new.before.totals ≡ judged.totals) }
        ensures names { OnOk result ((other : ListOf ℕ) → is_used self.new.before.names other
            ≡ (is_used self.old.before.names other || on_name
            (λ n. bytes_eq n other) (option_copied name.entry))) }
        ensures standing { OnOk result (self.new.before.standing ≡ self.old.before.standing) }
        ensures whole { OnOk result (self.new.whole ≡ self.old.whole) }
        ensures offsets { OnOk result (self.new.offsets
            ≡ kept_offsets judged.addition self.old.offsets) }
    {
        if let Some(name) = name {
            self.before.names.insert(alloc, name.as_str())?;
        }
        self.before.totals = judged.totals;
        match judged.addition {
            Addition::Nothing => {}
            Addition::Union => self.offsets = None,
            Addition::Extent(bits) => self.extent = Some(bits),
            Addition::Field(typed) => self.add_field(copy_or_empty(alloc, name)?, typed)?,
            Addition::Padding(bits) => self.fields.push(Field {
                name: copy_or_empty(alloc, None)?,
                schema: Schema::Void { bits },
            })?,
            Addition::Constant(value) => {
                let name = copy_or_empty(alloc, name)?;
                constants.push(alloc, NamedConst { name, value })?;
            }
        }
        Ok(())
    }

    /// Takes the next statement, which isn't `---`, and gives the values of its expressions.
    pub fn take(
        &mut self,
        alloc: Global,
        scope: &mut Scope,
        places: &Places,
        statement: &Statement,
    ) -> Result<Values, StatementError>
        requires scope { IsScope scope.old }
        requires places { ArePlacesIn scope.old places.now }
        requires offset { scope.old.offset ≡ None }
        requires ready { IsReady self.old }
        requires whole { is_split statement.now ≡ false }
        ensures taken { (S : ScopeOf) (front back : ListOf StatementOf) →
            IsOpen self.old scope.old.constants S front (statement.now ∷ back) →
            scope.old ≡ between S scope.old.constants → WellSpelled statement.now →
            MatchResult result
            (λ vs. IsTaken S front back statement.now vs self.new scope.new.constants)
            (IsStatementRefusal (λ why.
            refusal_at S (place front statement.now back) ≡ Some why)) }
        ensures scope { scope.new ≡ record scope.old { constants = scope.new.constants } }
    {
        let values = match self.worth(alloc, scope, places, statement) {
            Ok(values) => values,
            Err(error) => return Err(error),
        };
        let judged = match judge(alloc, scope, places, &self.before, statement, &values) {
            Ok(judged) => judged,
            Err(error) => return Err(error),
        };
        self.add(alloc, &mut scope.constants, attribute_of(statement), judged)?;
        self.before.standing = self.before.standing.with(statement);
        Ok(values)
    }

    /// How large the structure or the union is, whose fields and paddings are so many.
    pub fn counts(&self, fields: u32) -> Counts
        requires ready { IsReady self.now }
        ensures { (constants : ListOf NamedConstOf) →
            AreCountsOf result (sch (composite_of (said_of self.now constants))) }
    {
        let totals = self.before.totals;
        Counts {
            nodes: 1 + totals.nodes,
            nesting: 1 + totals.nesting,
            fields,
        }
    }

    /// The section at its end.
    pub fn close(self, alloc: Global) -> Result<Half, NoMemory>
        requires ready { IsReady self }
        ensures schema { IfOk result (λ half. (constants : ListOf NamedConstOf) →
            half.schema ≡ composite_of (said_of self constants)) }
        ensures types { IfOk result (λ half. half.types ≡ self.types) }
    {
        let OpenSection {
            before,
            fields,
            types,
            extent,
            whole: _,
            offsets: _offsets,
        } = self;
        let totals = before.totals;
        let body = body_of(alloc, fields, extent, totals.greatest())?;
        Ok(Half {
            schema: composite(totals.union, body),
            types,
        })
    }
}

/// The body of a composite: delimited where it has an extent, else sealed.
fn body_of(
    alloc: Global,
    fields: List<Field>,
    extent: Option<u64>,
    greatest: u64,
) -> Result<Body, NoMemory>
    ensures { (said : SaidOf) → said.fields ≡ fields →
        greatest ≡ greatest_of said.union said.fields →
        IfOk result (λ body. body ≡ body_of said extent) }
{
    let fields = Shared::new(alloc, fields)?;
    match extent {
        Some(extent) => Ok(Body {
            fields,
            extent,
            sealed: false,
        }),
        None => Ok(Body {
            fields,
            extent: greatest,
            sealed: true,
        }),
    }
}

/// A union or a structure.
fn composite(union: bool, body: Body) -> Schema
    ensures { result ≡ (if union then schema.Union body else schema.Struct body) }
{
    if union {
        Schema::Union(body)
    } else {
        Schema::Struct(body)
    }
}
