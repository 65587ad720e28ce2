//! How large types are.
ghost use Rattle.std.specs.Prelude.{◌≡◌, ◌≤◌, ◌^◌, ◌+◌, ◌*◌, false};
ghost use Rattle.dsdl_types.specs.Rules.{IsItem, IsSchema};
ghost use Rattle.dsdl_types.specs.Greatest.{as_part, longest};
ghost use Rattle.dsdl_types.specs.Schemas.{extent_of, is_aligned, is_delimited, length_field_bits};
ghost use Rattle.dsdl_types.specs.Views.{is_padding, kind_of, sch};
ghost use Rattle.dsdl_resolve.specs.Totals.{AreCountsOf, IsMeasure, IsPartType, IsSmall, item_type};

use crate::counts::Counts;
use dsdl_types::Schema;

/// The numbers of a type as a part of another.
#[derive(Clone, Copy, Debug, Drop)]
pub struct Measure {
    /// Its greatest length in bits; of a delimited composite with its delimiter header.
    pub longest: u64,
    /// Whether it begins at a multiple of 8 bits.
    pub aligned: bool,
    /// The most nodes of its values.
    pub nodes: u64,
    /// How deep arrays and composites nest in it.
    pub nesting: u32,
}

/// The greatest length in bits of a type that is no array, as a part of another.
fn longest(schema: &Schema) -> u64
    requires rules { IsSchema (sch schema.now) }
    requires item { IsItem (sch schema.now) }
    requires typed { is_padding (kind_of schema.now) ≡ false }
    ensures longest { result ≡
        as_part (is_delimited (sch schema.now)) (extent_of (sch schema.now))
        (longest (sch schema.now)) }
    ensures short { result ≤ 2 ^ 33 }
{
    match schema {
        Schema::Bool => 1,
        Schema::Uint { bits, .. } | Schema::Int { bits } | Schema::Float { bits, .. } => {
            u64::from(*bits)
        }
        Schema::Struct(body) | Schema::Union(body) => {
            if body.sealed {
                body.extent
            } else {
                32 + body.extent
            }
        }
        Schema::Void { .. } | Schema::Fixed { .. } | Schema::Var { .. } => unreachable!(),
    }
}

/// Whether a type begins at a multiple of 8 bits: a composite, and an array of such.
fn is_aligned(schema: &Schema) -> bool
    requires { IsItem (sch schema.now) }
    ensures { result ≡ is_aligned (sch schema.now) }
{
    matches!(schema, Schema::Struct(_) | Schema::Union(_))
}

/// The numbers of a type that is no array.
fn measure_item(schema: &Schema, counts: Counts) -> Measure
    requires rules { IsSchema (sch schema.now) }
    requires item { IsItem (sch schema.now) }
    requires counts { AreCountsOf counts (sch schema.now) }
    requires typed { is_padding (kind_of schema.now) ≡ false }
    ensures measure { IsMeasure result (sch schema.now) }
    ensures longest { result.longest ≤ 2 ^ 33 }
    ensures nodes { result.nodes ≤ 2 ^ 20 }
    ensures nesting { result.nesting ≤ 32 }
{
    Measure {
        longest: longest(schema),
        aligned: is_aligned(schema),
        nodes: counts.nodes,
        nesting: counts.nesting,
    }
}

/// The bits of an array's length field, by its capacity.
fn length_field_bits(capacity: u32) -> u64
    ensures { result ≡ length_field_bits capacity }
{
    match capacity {
        0..0x100 => 8,
        0x100..0x1_0000 => 16,
        _ => 32,
    }
}

impl Measure {
    /// The numbers of an array, by those of an item, behind so many bits.
    fn repeated(self, items: u32, front: u64) -> Measure
        requires longest { self.longest ≤ 2 ^ 33 }
        requires nodes { self.nodes ≤ 2 ^ 20 }
        requires nesting { self.nesting ≤ 32 }
        requires items { items ≤ 2 ^ 20 }
        requires front { front ≤ 64 }
        ensures { result ≡ record {
          longest = front + items * self.longest;
          aligned = self.aligned;
          nodes = 1 + items * self.nodes;
          nesting = 1 + self.nesting;
        } }
    {
        Measure {
            longest: front + u64::from(items) * self.longest,
            aligned: self.aligned,
            nodes: 1 + u64::from(items) * self.nodes,
            nesting: 1 + self.nesting,
        }
    }
}

/// The numbers of a type, of which these are known, or of an array of such items.
pub fn measure_of(schema: &Schema, counts: Counts) -> Measure
    requires part { IsPartType (sch schema.now) }
    requires typed { is_padding (kind_of schema.now) ≡ false }
    requires counts { AreCountsOf counts (item_type (sch schema.now)) }
    ensures measure { IsMeasure result (sch schema.now) }
    ensures small { IsSmall result }
{
    match schema {
        Schema::Fixed { item, len: items } => measure_item(item.get(), counts).repeated(*items, 0),
        Schema::Var { item, cap: items } => {
            measure_item(item.get(), counts).repeated(*items, length_field_bits(*items))
        }
        _ => measure_item(schema, counts),
    }
}
