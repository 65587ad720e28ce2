//! How large a section is.
ghost use Rattle.std.specs.Prelude.{◌≡◌, ◌≤◌, ◌^◌, ◌+◌, ◌++◌, ◌∷◌, [], Bool, false, List, if◌then◌else◌};
ghost use Rattle.dsdl_types.specs.Greatest.{up};
ghost use Rattle.dsdl_types.specs.Schemas.{Flds, End, tag_bits};
ghost use Rattle.dsdl_types.specs.Views.{Padding, flds, is_padding, named, type_of};
ghost use Rattle.dsdl_types.specs.declared.schema.Field.{Field};
ghost use Rattle.dsdl_resolve.specs.Said.{greatest_in};
ghost use Rattle.dsdl_resolve.specs.Totals.{AreCounted, AreTotals, AreWithin, IsMeasure, IsSmall, next_end};

use crate::measure::Measure;

/// The numbers of the fields of a section so far.
#[derive(Clone, Copy, Debug, Drop)]
pub struct Totals {
    /// Whether the section is a union.
    pub union: bool,
    /// How many of its fields aren't padding.
    pub variants: u64,
    /// Where the fields of a structure end at most, in bits; of a union the greatest length of a
    /// variant.
    pub end: u64,
    /// The most nodes of the values of all fields.
    pub nodes: u64,
    /// How deep arrays and composites nest in the fields.
    pub nesting: u32,
}

/// The bits of a union's tag, by the number of its variants.
pub fn tag_bits(variants: u64) -> u64
    ensures { result ≡ tag_bits variants }
{
    match variants.saturating_sub(1) {
        0..0x100 => 8,
        0x100..0x1_0000 => 16,
        0x1_0000..0x1_0000_0000 => 32,
        _ => 64,
    }
}

impl Totals {
    /// Those of a structure or a union without fields.
    pub fn empty(union: bool) -> Totals
        ensures totals { AreTotals result union End }
        ensures within { AreWithin result }
    {
        Totals {
            union,
            variants: 0,
            end: 0,
            nodes: 0,
            nesting: 0,
        }
    }

    /// Where the fields end at most with one more, or the greatest length with one variant more.
    fn end_with(self, field: Measure) -> u64
        requires within { AreWithin self }
        requires small { IsSmall field }
        ensures value { result ≡ next_end self.union self.end field.aligned field.longest }
        ensures bound { result ≤ 2 ^ 55 }
    {
        if self.union {
            self.end.max(field.longest)
        } else if field.aligned {
            whole_bytes(self.end) + field.longest
        } else {
            self.end + field.longest
        }
    }

    /// With one field more.
    pub fn with_field(self, field: Measure) -> Totals
        requires within { AreWithin self }
        requires small { IsSmall field }
        ensures counted { AreCounted result }
        ensures totals { (union : Bool) (fs : List Field) (f : Field) →
            AreTotals self union (flds fs) →
            is_padding (named f).1 ≡ false → IsMeasure field (type_of (named f).1) →
            AreTotals result union (flds (fs ++ f ∷ [])) }
    {
        Totals {
            union: self.union,
            variants: self.variants + 1,
            end: self.end_with(field),
            nodes: self.nodes + field.nodes,
            nesting: self.nesting.max(field.nesting),
        }
    }

    /// Where the fields end at most with padding behind.
    fn end_behind(self, bits: u8) -> u64
        requires within { AreWithin self }
        requires bits { bits ≤ 64 }
        ensures value { result ≡ (if self.union then self.end else self.end + bits) }
        ensures bound { result ≤ 2 ^ 33 }
    {
        if self.union {
            self.end
        } else {
            self.end + u64::from(bits)
        }
    }

    /// With padding behind.
    pub fn with_padding(self, bits: u8) -> Totals
        requires within { AreWithin self }
        requires bits { bits ≤ 64 }
        ensures counted { AreCounted result }
        ensures nodes { result.nodes ≡ self.nodes }
        ensures nesting { result.nesting ≡ self.nesting }
        ensures totals { (union : Bool) (fs : List Field) (f : Field) →
            AreTotals self union (flds fs) →
            (named f).1 ≡ Padding bits → AreTotals result union (flds (fs ++ f ∷ [])) }
    {
        Totals {
            end: self.end_behind(bits),
            ..self
        }
    }

    /// The greatest length of the section in bits; of a union without variants 0.
    pub fn greatest(self) -> u64
        requires { AreCounted self }
        ensures { (union : Bool) (fs : Flds) → AreTotals self union fs →
            result ≡ greatest_in union fs }
    {
        if !self.union {
            return whole_bytes(self.end);
        }
        if self.variants == 0 {
            return 0;
        }
        whole_bytes(tag_bits(self.variants) + self.end)
    }
}

/// The number of bits up to the next whole byte.
fn whole_bytes(bits: u64) -> u64
    requires { bits ≤ 2 ^ 60 + 64 }
    ensures { result ≡ up bits }
{
    bits + (bits * 7) % 8
}
