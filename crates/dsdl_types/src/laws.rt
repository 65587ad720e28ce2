//! The laws of schemas, values and their serialized form (Cyphal Specification, section 3.7). Each
//! is the contract of a function that does nothing, for the schemas of `specs/Schemas.antt`.

ghost use Rattle.std.specs.Prelude.{◌≡◌, ℕ, List, ◌≤◌, ◌^◌, length, true};
ghost use Rattle.dsdl_types.specs.Schemas.{Sch, is_composite};
ghost use Rattle.dsdl_types.specs.Values.{Val};
ghost use Rattle.dsdl_types.specs.Fits.{Fits};
ghost use Rattle.dsdl_types.specs.Encoding.{own_bits};
ghost use Rattle.dsdl_types.specs.Rules.{IsSchema};
ghost use Rattle.dsdl_types.specs.Sound.{IsSound};
ghost use Rattle.dsdl_types.specs.Stored.{IsStored};
ghost use Rattle.dsdl_types.specs.ValueOf.{value_of};
ghost use Rattle.dsdl_types.specs.Views.{val};
ghost use Rattle.dsdl_types.specs.declared.value.Value.{Value};
ghost use Rattle.dsdl_types.specs.Laws.{Reads, ReadsOnce, RoundTrip, WithinExtent, ZeroReads, Evolution, ZerosLaw, CutLaw, PaddedLaw, KeepsReadings};
ghost use Rattle.dsdl_types.specs.Lengths.{Length};
ghost use Rattle.dsdl_types.specs.Greatest.{longest};
ghost use Rattle.dsdl_types.specs.Reach.{Reaches, reach};
ghost use Rattle.dsdl_types.specs.Reading.{own};
ghost use Rattle.dsdl_types.specs.Difference.{Compares};

use crate::Shape;

/// A schema that keeps the rules of the language is one that these laws hold of.
pub fn rules_suffice()
    ensures { (s : Sch) → IsSchema s → IsSound s }
{}

/// Bytes read as exactly one value, or are refused at exactly one path for one cause.
pub fn one_reading()
    ensures { (s : Sch) (b : List ℕ) → ReadsOnce s b }
{}

/// The bytes of a value read as that value with its numbers in range.
pub fn round_trip()
    ensures { (s : Sch) → RoundTrip s }
{}

/// No value of a composite has a serialized form that is longer than the extent.
pub fn within_extent()
    ensures { (s : Sch) → WithinExtent s }
{}

/// The zero of a schema is one of its values, and is what no bytes and zero bytes read as.
pub fn zero_reads()
    ensures { (s : Sch) → IsSound s → ZeroReads s }
{}

/// Zeros behind bytes change nothing of what they read as (implicit zero extension;
/// Cyphal Specification, section 3.7.1).
pub fn zeros_behind()
    ensures { (s : Sch) (b : List ℕ) → ZerosLaw s b }
{}

/// Where no delimiter header counts more than its part's extent, a cut to the extent changes nothing of
/// what bytes read as or are refused for (implicit truncation;
/// Cyphal Specification, section 3.7.1).
pub fn cut_to_extent()
    ensures { (s : Sch) (b : List ℕ) → CutLaw s b }
{}

/// Where no delimiter header counts more than its part's extent, a payload that can be read, the same with
/// zeros behind and that cut to the extent read as one value.
pub fn padded_payload()
    ensures { (s : Sch) (b : List ℕ) → PaddedLaw s b }
{}

/// A newer version of a type reads what an older one wrote, and the other way round, at any depth (Cyphal
/// Specification, section 3.8).
pub fn evolution()
    ensures { Evolution }
{}

/// One type is newer than another exactly where the comparison finds no difference.
pub fn comparison()
    ensures { (new old : Sch) → Compares new old }
{}

/// The serialized form of a value has a length of its type.
pub fn encoded_length()
    ensures { (s : Sch) → IsSound s → (v : Val) → Fits s v →
        Length s (length (own_bits s v)) }
{}

/// The greatest length of a schema is one of its lengths, and none is above it.
pub fn greatest_length()
    ensures most { (s : Sch) (n : ℕ) → Length s n → n ≤ longest s }
    ensures met { (s : Sch) → IsSchema s → Length s (longest s) }
{}

/// Reading ends at most `reach` bits past the end of what is read, which are at most 2^33 for a composite
/// that keeps the rules.
pub fn reaches()
    ensures ends { (s : Sch) → Reaches (λ p x. own s p x) (reach s) }
    ensures bound { (s : Sch) → IsSchema s → is_composite s ≡ true → reach s ≤ 2 ^ 33 }
{}

/// The laws of a shape. Where no delimiter header counts more than its part's extent, a payload and the same
/// cut to the extent read as the same value or are refused alike. A payload that can be read is read with
/// zeros behind as the same value, and, where no delimiter header counts more than its part's extent, also
/// with zeros behind and then cut to the extent.
pub fn shape_laws<S: Shape>(shape: &S)
    ensures { KeepsReadings (S.shape shape.now) }
{
    let _schema = shape.schema();
}

/// A value of the code and the value that it stands for determine each other.
pub fn same_values()
    ensures stands { (v : Val) → val (value_of v) ≡ v }
    ensures same { (x : Value) → value_of (val x) ≡ x }
{}

/// What bytes read as is a value whose numbers are in the ranges in which a struct stores them, and each such
/// value is one of the schema.
pub fn readings_stored()
    ensures stored { (s : Sch) → IsSound s → (b : List ℕ) (v : Val) →
        Reads s b v → IsStored s v }
    ensures fits { (s : Sch) (v : Val) → IsStored s v → Fits s v }
{}
