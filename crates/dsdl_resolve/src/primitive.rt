//! Primitive types as they are written.
ghost use Rattle.std.specs.Prelude.{◌≡◌, ◌++◌, string_bytes, decimal, OnOk, IfOk, IfSome};
ghost use Rattle.dsdl_resolve.specs.Forms.{IsPrimitive, cast_of, cast_text, primitive_of, primitive_text, schema_of};

use crate::width::{float_width, width_in};
use cy_bits::{NoMemory, Text};
use dsdl_parse::Prefix;
use dsdl_types::{Cast, Schema};
use itoa::{Buffer, Integer};
use std::alloc::Global;

/// A primitive type.
#[derive(Clone, Copy, PartialEq, Eq, Debug, Drop)]
pub enum Primitive {
    /// A truth value.
    Bool,
    /// An unsigned integer.
    Uint {
        /// Its bits, from 1 to 64.
        bits: u8,
        /// Saturated or truncated.
        cast: Cast,
    },
    /// A signed integer.
    Int {
        /// Its bits, from 2 to 64.
        bits: u8,
    },
    /// A floating-point number.
    Float {
        /// Its bits: 16, 32 or 64.
        bits: u8,
        /// Saturated or truncated.
        cast: Cast,
    },
}

/// The cast that a prefix stands for; without one a type is saturated.
fn cast_of(prefix: Option<Prefix>) -> Cast
    ensures { result ≡ cast_of prefix }
{
    match prefix {
        None | Some(Prefix::Saturated) => Cast::Saturated,
        Some(Prefix::Truncated) => Cast::Truncated,
    }
}

/// The primitive type of a name, where its digits are a width of its kind.
pub fn primitive_of(prefix: Option<Prefix>, name: &str) -> Option<Primitive>
    ensures value { result ≡ primitive_of prefix name.now }
    ensures width { IfSome result IsPrimitive }
{
    let cast = cast_of(prefix);
    if name == "bool" {
        return Some(Primitive::Bool);
    }
    let name = name.as_bytes();
    if name.starts_with(b"uint") {
        match width_in(1, &name[4..]) {
            Some(bits) => Some(Primitive::Uint { bits, cast }),
            None => None,
        }
    } else if name.starts_with(b"int") {
        match width_in(2, &name[3..]) {
            Some(bits) => Some(Primitive::Int { bits }),
            None => None,
        }
    } else if name.starts_with(b"float") {
        match float_width(&name[5..]) {
            Some(bits) => Some(Primitive::Float { bits, cast }),
            None => None,
        }
    } else {
        None
    }
}

impl Primitive {
    /// The type as a schema.
    pub fn schema(self) -> Schema
        ensures { result ≡ schema_of self }
    {
        match self {
            Primitive::Bool => Schema::Bool,
            Primitive::Uint { bits, cast } => Schema::Uint { bits, cast },
            Primitive::Int { bits } => Schema::Int { bits },
            Primitive::Float { bits, cast } => Schema::Float { bits, cast },
        }
    }

    /// The text of the type: its name, with its cast where it has one.
    pub fn text(self, alloc: Global) -> Result<Text, NoMemory>
        ensures { IfOk result (λ text. text ≡ primitive_text self) }
    {
        let mut text = String::with_capacity(alloc, 24)?;
        match self {
            Primitive::Bool => text.push_str("bool")?,
            Primitive::Uint { bits, cast } => push_sized(&mut text, cast_text(cast), "uint", bits)?,
            Primitive::Int { bits } => push_sized(&mut text, "", "int", bits)?,
            Primitive::Float { bits, cast } => {
                push_sized(&mut text, cast_text(cast), "float", bits)?
            }
        }
        Ok(Text::new(text))
    }
}

/// The word of a cast, with a space behind it.
fn cast_text(cast: Cast) -> &'static str
    ensures { result.now ≡ cast_text cast }
{
    match cast {
        Cast::Saturated => "saturated ",
        Cast::Truncated => "truncated ",
    }
}

/// Appends a word, a name and a number.
fn push_sized(text: &mut String, word: &str, name: &str, bits: u8) -> Result<(), NoMemory>
    ensures { OnOk result (string_bytes text.new
        ≡ string_bytes text.old ++ (word.now ++ name.now ++ decimal bits)) }
{
    text.push_str(word)?;
    text.push_str(name)?;
    push_number(text, bits)
}

/// Appends a number in decimal digits.
pub fn push_number<I: Integer>(text: &mut String, number: I) -> Result<(), NoMemory>
    ensures { OnOk result (string_bytes text.new ≡ string_bytes text.old ++ I.text number) }
{
    let mut buffer = Buffer::new();
    text.push_str(buffer.format(number))?;
    Ok(())
}
