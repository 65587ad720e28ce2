/// A line that is the text of no value, or one whose serialized form is found only by reading the value.
#[derive(Clone, Copy, Debug, PartialEq, Eq, Drop)]
pub struct GivesUp;
