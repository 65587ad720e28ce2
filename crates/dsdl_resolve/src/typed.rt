use crate::counts::Counts;
use cy_bits::Text;
use dsdl_types::Schema;

/// A type with its text.
#[derive(Drop)]
pub struct Typed {
    /// The type.
    pub schema: Schema,
    /// Its text, as `saturated uint8[<=4]` or `demo.Num.1.0`.
    pub text: Text,
}

/// A type with its text, and how large it is or, of an array, an item of it.
#[derive(Drop)]
pub struct Counted {
    /// The type with its text.
    pub typed: Typed,
    /// How large it or its item is.
    pub counts: Counts,
}
