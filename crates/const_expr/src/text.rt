//! Constants as texts.
ghost use Rattle.std.specs.Prelude.{◌≡◌, ◌≢◌, ◌++◌, ◌∷◌, [], drop, Err, IfOk, OnOk, string_bytes, decimal};
ghost use Rattle.std.specs.Fmt.{signed_decimal};
ghost use Rattle.const_expr.specs.declared.constant.Const.{out-Const};
ghost use Rattle.const_expr.specs.Refusals.{Gives, at};
ghost use Rattle.const_expr.specs.Text.{id_text, layer_text, member_text, members_behind, members_text, number_text, quoted, text_of, truth_text};

use crate::constant::Const;
use crate::error::ExprError;
use crate::listed::listed_lengths;
use crate::why::Why;
use cy_bits::{NoMemory, Text};
use cy_ratio::Ratio;
use dsdl_names::TypeId;
use dsdl_parse::Span;
use itoa::{Buffer, Integer};
use std::alloc::Global;

/// Appends a piece.
fn push(text: &mut String, piece: &str) -> Result<(), NoMemory>
    ensures { OnOk result (string_bytes text.new ≡ string_bytes text.old ++ piece.now) }
{
    text.push_str(piece)?;
    Ok(())
}

/// Appends a whole number.
fn push_whole<I: Integer>(text: &mut String, number: I) -> Result<(), NoMemory>
    ensures { OnOk result (string_bytes text.new ≡ string_bytes text.old ++ I.text number) }
{
    let mut buffer = Buffer::new();
    push(text, buffer.format(number))
}

/// Appends a number as `n` or `n/d`.
fn push_number(text: &mut String, x: Ratio) -> Result<(), NoMemory>
    ensures { OnOk result (string_bytes text.new ≡ string_bytes text.old ++ number_text x) }
{
    push_whole(text, x.num())?;
    if x.den() != 1 {
        push(text, "/")?;
        push_whole(text, x.den())?;
    }
    Ok(())
}

/// `true` or `false`.
fn truth_text(truth: bool) -> &'static str
    ensures { result.now ≡ truth_text truth }
{
    if truth { "true" } else { "false" }
}

/// Appends a string between quotes.
fn push_quoted(text: &mut String, string: &Text) -> Result<(), NoMemory>
    ensures { OnOk result (string_bytes text.new ≡ string_bytes text.old ++ quoted string.now) }
{
    push(text, "\"")?;
    push(text, string.as_str())?;
    push(text, "\"")
}

/// Appends the full name and the version of a type.
fn push_id(alloc: Global, text: &mut String, id: &TypeId) -> Result<(), NoMemory>
    ensures { OnOk result (string_bytes text.new ≡ string_bytes text.old ++ id_text id.now) }
{
    let name = String::from_utf8_lossy(alloc, id.name.as_bytes())?;
    push(text, name.as_str())?;
    push(text, ".")?;
    push_whole(text, id.major)?;
    push(text, ".")?;
    push_whole(text, id.minor)
}

/// Appends a member of a set.
#[tactic(auto, using(crate::proofs::Layers::layers))]
fn push_member(text: &mut String, member: &Const) -> Result<(), NoMemory>
    ensures { OnOk result (string_bytes text.new ≡ string_bytes text.old
        ++ member_text (out-Const member.now)) }
{
    match member {
        Const::Number(x) => push_number(text, *x),
        Const::Truth(truth) => push(text, truth_text(*truth)),
        Const::Str(string) => push_quoted(text, string),
        Const::Set(_) | Const::Lengths(_) | Const::Named(_) => Ok(()),
    }
}

/// Appends the members of a set, with `, ` between each two.
fn push_members(text: &mut String, members: &[Const]) -> Result<(), NoMemory>
    ensures { OnOk result (string_bytes text.new ≡ string_bytes text.old
        ++ members_text members.now) }
{
    match members {
        [] => Ok(()),
        [first, others @ ..] => {
            push_member(text, first)?;
            push_behind(text, others)
        }
    }
}

/// Appends members, each behind `, `.
fn push_behind(text: &mut String, members: &[Const]) -> Result<(), NoMemory>
    ensures { OnOk result (string_bytes text.new ≡ string_bytes text.old
        ++ members_behind members.now) }
{
    for member in members {
        push(text, ", ")?;
        push_member(text, member)?;
    }
    Ok(())
}

/// Appends a constant whose lengths are listed.
#[tactic(auto, using(crate::proofs::Layers::layers))]
fn push_constant(alloc: Global, text: &mut String, constant: &Const) -> Result<(), NoMemory>
    ensures { OnOk result (string_bytes text.new ≡ string_bytes text.old
        ++ layer_text (out-Const constant.now)) }
{
    match constant {
        Const::Number(x) => push_number(text, *x),
        Const::Truth(truth) => push(text, truth_text(*truth)),
        Const::Str(string) => push_quoted(text, string),
        Const::Set(members) => {
            push(text, "{")?;
            push_members(text, members.as_slice())?;
            push(text, "}")
        }
        Const::Lengths(_) => Ok(()),
        Const::Named(id) => push_id(alloc, text, id),
    }
}

/// The text of a constant whose lengths are listed.
fn listed_text(alloc: Global, constant: &Const) -> Result<Text, NoMemory>
    ensures { IfOk result (λ text. text ≡ layer_text (out-Const constant.now)) }
{
    let mut text = String::new(alloc);
    push_constant(alloc, &mut text, constant)?;
    Ok(Text::new(text))
}

/// The text of a constant.
#[tactic(auto, unfolding(crate::specs::Text::text_of), using(crate::proofs::Layers::layers))]
fn text_of(alloc: Global, constant: &Const) -> Result<Text, Why>
    ensures { Gives result (text_of constant.now) }
{
    match constant {
        Const::Lengths(lengths) => {
            let listed = listed_lengths(alloc, lengths)?;
            Ok(listed_text(alloc, &listed)?)
        }
        Const::Number(_) | Const::Truth(_) | Const::Str(_) => Ok(listed_text(alloc, constant)?),
        Const::Set(_) | Const::Named(_) => Ok(listed_text(alloc, constant)?),
    }
}

/// The text of a constant, as `@print` writes it (Cyphal Specification, section 3.6): a number as
/// `n` or `n/d`, a string between `"`, a set as `{a, b}`, a type as `a.b.Name.1.0`. Large, with the
/// place of the expression, where it is a set of more than 4,096 lengths.
pub fn print_text(alloc: Global, constant: &Const, span: Span) -> Result<Text, ExprError>
    ensures { result ≢ Err ExprError.NoMemory → result ≡ at span (text_of constant.now) }
{
    match text_of(alloc, constant) {
        Ok(text) => Ok(text),
        Err(why) => Err(why.at(span)),
    }
}
