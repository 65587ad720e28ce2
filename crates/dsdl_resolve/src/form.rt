//! Which type is written.
ghost use Rattle.std.specs.Prelude.{◌≡◌, ◌++◌, string_bytes, is_some, Some, IfOk, OnOk, MatchOption};
ghost use Rattle.const_expr.specs.Text.{id_text};
ghost use Rattle.dsdl_types.specs.Views.{sch};
ghost use Rattle.dsdl_resolve.specs.Counts.{IsCounted, IsCountedType};
ghost use Rattle.dsdl_resolve.specs.Places.{ArePlacesIn};
ghost use Rattle.dsdl_resolve.specs.Totals.{AreCountsOf};
ghost use Rattle.dsdl_resolve.specs.Forms.{array_of, array_schema, bound_text, bounded, capacity, in_bound, item_of, items_of, message, of_message, of_primitive, referred, type_of, within};

use crate::counts::Counts;
use crate::finding::{Places, find};
use crate::primitive::{Primitive, primitive_of, push_number};
use crate::typed::{Counted, Typed};
use const_expr::{Const, Scope, print_text};
use cy_bits::{Boxed, NoMemory, Text, TryCopy};
use dsdl_links::type_of as named_type;
use dsdl_names::TypeId;
use dsdl_parse::{Bound, BoundSign, Form, Reference, Scalar, Span};
use dsdl_types::{Parts, Schema};
use std::alloc::Global;

/// The most items of an array.
const MOST_ITEMS: u32 = 1 << 20;

/// A number of items, where it is one from 1 to 2^20.
fn within(n: u32) -> Option<u32>
    ensures { result ≡ within n }
{
    if 1 <= n && n <= MOST_ITEMS {
        Some(n)
    } else {
        None
    }
}

/// The length or the capacity of an array by a whole number: that of `[<n]` is n - 1.
fn items_of(sign: BoundSign, n: i128) -> Option<u32>
    ensures { result ≡ items_of sign (Some n) }
{
    if n < 1 || n > i128::from(MOST_ITEMS) + 1 {
        return None;
    }
    let n = n as u32;
    match sign {
        BoundSign::Exact | BoundSign::AtMost => within(n),
        BoundSign::Below => within(n - 1),
    }
}

/// The length or the capacity of an array by the value in its brackets.
fn capacity(sign: BoundSign, value: &Const) -> Option<u32>
    ensures { result ≡ capacity sign value.now }
{
    match value {
        Const::Number(number) => {
            if number.den() == 1 {
                items_of(sign, number.num())
            } else {
                None
            }
        }
        _ => None,
    }
}

/// The number of items of an array, where its bound has a value.
pub fn bounded(sign: BoundSign, value: &Option<Const>) -> Option<u32>
    ensures { result ≡ bounded sign value.now }
{
    match value {
        Some(value) => capacity(sign, value),
        None => None,
    }
}

/// The schema of a type that is a message, and how large it is.
pub fn message<'a>(scope: &'a Scope, places: &Places, id: &TypeId) -> Option<(&'a Schema, Counts)>
    requires { ArePlacesIn scope.now places.now }
    ensures { MatchOption result
        (message scope.now id.now ≡ None)
        (λ found. (message scope.now id.now ≡ Some found.0.now)
        × AreCountsOf found.1 (sch found.0.now)) }
{
    match find(scope, places, id) {
        Some((definition, counts)) => match &definition.parts {
            Parts::Message(schema) => Some((schema, counts)),
            Parts::Service { .. } => None,
        },
        None => None,
    }
}

/// The text of a type: its full name and version.
#[tactic(auto, using(crate::proofs::TypeTexts::text_of_type))]
fn id_text(alloc: Global, id: TypeId) -> Result<Text, NoMemory>
    ensures { IfOk result (λ text. text ≡ id_text id) }
{
    let named = Const::Named(id);
    let printed = print_text(alloc, &named, Span { from: 0, to: 0 });
    printed.map_err(|_| NoMemory)
}

/// A type that is a message, with its text.
fn of_message(
    alloc: Global,
    scope: &Scope,
    places: &Places,
    id: TypeId,
) -> Result<Option<Counted>, NoMemory>
    requires { ArePlacesIn scope.now places.now }
    ensures { IfOk result (IsCounted (of_message scope.now id)) }
{
    let Some((schema, counts)) = message(scope, places, &id) else {
        return Ok(None);
    };
    let schema = schema.copy(alloc)?;
    let text = id_text(alloc, id)?;
    Ok(Some(Counted {
        typed: Typed { schema, text },
        counts,
    }))
}

/// The message that a reference means.
fn referred(
    alloc: Global,
    scope: &Scope,
    places: &Places,
    reference: &Reference,
) -> Result<Option<Counted>, NoMemory>
    requires { ArePlacesIn scope.now places.now }
    ensures { IfOk result (IsCounted (referred scope.now reference.now)) }
{
    match named_type(alloc, &scope.own, reference)? {
        Some(id) => of_message(alloc, scope, places, id),
        None => Ok(None),
    }
}

/// Whether a reference means a message.
pub fn is_message(
    alloc: Global,
    scope: &Scope,
    places: &Places,
    reference: &Reference,
) -> Result<bool, NoMemory>
    requires { ArePlacesIn scope.now places.now }
    ensures { IfOk result (λ found. found ≡ is_some (referred scope.now reference.now)) }
{
    match named_type(alloc, &scope.own, reference)? {
        Some(id) => Ok(message(scope, places, &id).is_some()),
        None => Ok(false),
    }
}

/// A primitive type, with its text.
fn of_primitive(alloc: Global, primitive: Primitive) -> Result<Counted, NoMemory>
    ensures { IfOk result (λ t. IsCounted (Some (of_primitive primitive)) (Some t)) }
{
    Ok(Counted {
        typed: Typed {
            schema: primitive.schema(),
            text: primitive.text(alloc)?,
        },
        counts: Counts {
            nodes: 1,
            nesting: 0,
            fields: 0,
        },
    })
}

/// The type of an item, or of a value alone. `void` is none.
fn item_of(
    alloc: Global,
    scope: &Scope,
    places: &Places,
    scalar: &Scalar,
) -> Result<Option<Counted>, NoMemory>
    requires { ArePlacesIn scope.now places.now }
    ensures { IfOk result (IsCounted (item_of scope.now scalar.now)) }
{
    match scalar {
        Scalar::Primitive { prefix, name } => match primitive_of(*prefix, name.as_str()) {
            Some(primitive) => Ok(Some(of_primitive(alloc, primitive)?)),
            None => Ok(None),
        },
        Scalar::Reference(reference) => referred(alloc, scope, places, reference),
        Scalar::Void { .. } => Ok(None),
    }
}

/// Appends the bound of an array.
fn push_bound(text: &mut String, sign: BoundSign, items: u32) -> Result<(), NoMemory>
    ensures { OnOk result
        (string_bytes text.new ≡ string_bytes text.old ++ bound_text sign items) }
{
    match sign {
        BoundSign::Exact => text.push_str("[")?,
        BoundSign::AtMost | BoundSign::Below => text.push_str("[<=")?,
    }
    push_number(text, items)?;
    text.push_str("]")?;
    Ok(())
}

/// The schema of an array.
fn array_schema(
    alloc: Global,
    sign: BoundSign,
    item: Schema,
    items: u32,
) -> Result<Schema, NoMemory>
    ensures { IfOk result (λ s. s ≡ array_schema sign item items) }
{
    let item = Boxed::new(alloc, item)?;
    match sign {
        BoundSign::Exact => Ok(Schema::Fixed { item, len: items }),
        BoundSign::AtMost | BoundSign::Below => Ok(Schema::Var { item, cap: items }),
    }
}

/// An array of so many items.
fn array_of(alloc: Global, sign: BoundSign, item: Typed, items: u32) -> Result<Typed, NoMemory>
    ensures { IfOk result (λ t. t ≡ array_of sign item items) }
{
    let Typed { schema, text } = item;
    let mut text = text.into_string();
    push_bound(&mut text, sign, items)?;
    Ok(Typed {
        schema: array_schema(alloc, sign, schema, items)?,
        text: Text::new(text),
    })
}

/// The type of items, or of an array of them where a bound stands behind.
fn in_bound(
    alloc: Global,
    array: &Option<Bound>,
    value: &Option<Const>,
    item: Typed,
) -> Result<Option<Typed>, NoMemory>
    ensures { IfOk result (λ t. t ≡ in_bound array.now value.now item) }
{
    match array {
        None => Ok(Some(item)),
        Some(bound) => match bounded(bound.sign, value) {
            Some(items) => Ok(Some(array_of(alloc, bound.sign, item, items)?)),
            None => Ok(None),
        },
    }
}

/// The type of a form whose bound has this value, with its text; none where the form breaks a rule.
pub fn type_of(
    alloc: Global,
    scope: &Scope,
    places: &Places,
    form: &Form,
    bound: &Option<Const>,
) -> Result<Option<Counted>, NoMemory>
    requires { ArePlacesIn scope.now places.now }
    ensures { IfOk result (IsCountedType scope.now form.now bound.now) }
{
    let Some(item) = item_of(alloc, scope, places, &form.scalar)? else {
        return Ok(None);
    };
    let Counted { typed, counts } = item;
    match in_bound(alloc, &form.array, bound, typed)? {
        Some(typed) => Ok(Some(Counted { typed, counts })),
        None => Ok(None),
    }
}
