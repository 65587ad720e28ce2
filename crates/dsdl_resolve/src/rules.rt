//! The rules of the language by their numbers, each named by what breaks it.

/// A second `---`: a service has two halves.
pub const SECOND_SPLIT: u8 = 1;

/// A section without `@sealed` and without `@extent`, at its end.
pub const NO_ENDING: u8 = 2;

/// A second of `@sealed` and `@extent` in a section: it is one or the other, once.
pub const SECOND_ENDING: u8 = 3;

/// An `@extent` that isn't a whole multiple of 8, or is less than the section's greatest length.
pub const EXTENT_TOO_SMALL: u8 = 4;

/// A field, a padding or a constant behind `@extent`, which speaks of all fields.
pub const BEHIND_EXTENT: u8 = 5;

/// A second `@union`, or one behind a field, a padding or a constant.
pub const LATE_UNION: u8 = 6;

/// A union with fewer than two variants, at its section's end.
pub const TOO_FEW_VARIANTS: u8 = 7;

/// Padding in a union, where only one variant is sent.
pub const PADDING_IN_UNION: u8 = 8;

/// The name of a field or a constant that stands before in the section.
pub const NAME_TAKEN: u8 = 9;

/// The name of a field or a constant that the language keeps.
pub const NAME_RESERVED: u8 = 10;

/// A width that no type of its kind has, or one with a leading zero.
pub const WRONG_WIDTH: u8 = 11;

/// `truncated` on `bool` or on a signed integer, which are saturated alone.
pub const WRONG_CAST_MODE: u8 = 12;

/// The length or the capacity of an array that isn't a whole number from 1 to 2^20.
pub const WRONG_CAPACITY: u8 = 13;

/// A field or an array of a service, an array of `void`, or a `void` with a name.
pub const NOT_A_MESSAGE: u8 = 14;

/// A constant of another type than `bool`, `uintN`, `intN` or `floatN`.
pub const CONSTANT_NOT_PRIMITIVE: u8 = 15;

/// A constant whose value its type doesn't hold.
pub const CONSTANT_OUT_OF_RANGE: u8 = 16;

/// A directive that there isn't.
pub const UNKNOWN_DIRECTIVE: u8 = 17;

/// An expression behind `@sealed`, `@union` or `@deprecated`, or none behind `@assert` or
/// `@extent`.
pub const MISPLACED_EXPRESSION: u8 = 18;

/// A second `@deprecated`, or one behind a field, a padding, a constant or `---`: it stands at the
/// head of the file.
pub const LATE_DEPRECATED: u8 = 19;

/// An `@assert` whose expression is no truth value.
pub const ASSERT_NOT_TRUTH: u8 = 20;

/// A port above 511 on a service, at the file's end.
pub const SERVICE_PORT_TOO_GREAT: u8 = 21;

/// `_offset_` in a union that has fewer than two variants up to there, or has further ones behind.
pub const UNION_OFFSET_TOO_EARLY: u8 = 22;

/// A field with which types nest above 32 deep.
pub const NESTED_TOO_DEEP: u8 = 23;

/// A field with which a value has more than 2^20 nodes: each number or truth value, array,
/// structure and union is one.
pub const TOO_MANY_NODES: u8 = 24;
