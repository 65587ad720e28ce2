//! The laws of writing and reading. Each is the contract of a function that does nothing.
ghost use Rattle.std.specs.Prelude.{◌≡◌, ◌≤◌, true};
ghost use Rattle.dsdl_types.specs.Greatest.{longest};
ghost use Rattle.dsdl_types.specs.Rules.{IsSchema};
ghost use Rattle.dsdl_types.specs.Schemas.{Sch, extent_of, is_composite};
ghost use Rattle.wire_values.specs.Laws.{Evolution, FitsOrMisfit, RoundTrip};

/// `write_as` refuses a value exactly where it isn't one of the schema.
pub fn fits_or_misfit()
    ensures { FitsOrMisfit }
{}

/// What `write_as` wrote, alone or with zeros behind, `read_as` reads as that value with its
/// numbers in range.
pub fn written_reads()
    ensures { RoundTrip }
{}

/// What one version of a type wrote, a newer or an older one reads, at any depth, also with zeros
/// behind and cut to the extent (Cyphal Specification, section 3.8).
pub fn versions_read()
    ensures { Evolution }
{}

/// A buffer as long as a composite's extent has room for what `write_as` writes.
pub fn extent_has_room()
    ensures { (s : Sch) → IsSchema s → is_composite s ≡ true → longest s ≤ extent_of s }
{}
