//! The lines of the fields of a composite.
ghost use Rattle.std.specs.Prelude.{◌≡◌, ◌++◌, OnOk, length};
ghost use Rattle.dsdl_types.specs.Views.{sch};
ghost use Rattle.layout.specs.Layouts.{AreRows, fields_of};
ghost use Rattle.layout_text.specs.Appends.{Appends};
ghost use Rattle.layout_text.specs.Fields.{AreFieldLines, field_line, is_union, name_words};
ghost use Rattle.bit_length.specs.Ascending.{Ascend};
ghost use Rattle.layout_text.specs.Sets.{set_text};
ghost use Rattle.layout_text.specs.Words.{spaced};

use crate::set::push_set;
use crate::words::{push_bytes, push_number};
use cy_bits::{NoMemory, Text};
use dsdl_types::Schema;
use layout::Row;

/// Appends a line for each field of a structure or variant of a union, by its row and the text of its type.
pub fn push_fields(
    text: &mut Vec<u8>,
    schema: &Schema,
    rows: &[Row],
    types: &[Text],
) -> Result<(), NoMemory>
    requires rows { AreRows (sch schema.now) 0 (fields_of (sch schema.now)) rows.now }
    requires texts { length types.now ≡ length rows.now }
    ensures { OnOk result (Appends
        (AreFieldLines (sch schema.now) 0 (fields_of (sch schema.now)) types.now) text.old.items
        text.new.items) }
{
    let union = is_union(schema);
    for i in 0..rows.len() {
        push_field(text, union, i, &rows[i], &types[i])?;
    }
    Ok(())
}

/// Whether a schema is a union.
fn is_union(schema: &Schema) -> bool
    ensures { result ≡ is_union (sch schema.now) }
{
    matches!(schema, Schema::Union(_))
}

/// Appends the line of a field or a variant.
fn push_field(
    text: &mut Vec<u8>,
    union: bool,
    tag: usize,
    row: &Row,
    of_type: &Text,
) -> Result<(), NoMemory>
    ensures text { OnOk result
        (text.new.items ≡ text.old.items
        ++ field_line union tag row.now.name of_type.now (set_text row.now.offsets)
        (set_text row.now.lengths)) }
    ensures offsets { OnOk result (Ascend row.now.offsets) }
    ensures lengths { OnOk result (Ascend row.now.lengths) }
{
    push_name(text, union, tag, row.name.as_str())?;
    push_bytes(text, of_type.as_str().as_bytes())?;
    push_bytes(text, b" at ")?;
    push_set(text, &row.offsets)?;
    push_bytes(text, b" size ")?;
    push_set(text, &row.lengths)?;
    push_bytes(text, b"\n")
}

/// Appends the name of a field, or the name and the tag of a variant.
fn push_name(text: &mut Vec<u8>, union: bool, tag: usize, name: &str) -> Result<(), NoMemory>
    ensures { OnOk result (text.new.items ≡ text.old.items
        ++ spaced (name_words union tag name.now)) }
{
    push_bytes(text, if union { b"variant " } else { b"field " })?;
    push_bytes(text, name.as_bytes())?;
    if union {
        push_bytes(text, b" ")?;
        push_number(text, tag as u64)?;
    }
    push_bytes(text, b" ")
}
