/// How many bytes of an input count.
#[derive(Clone, Copy, Debug, PartialEq, Eq)]
pub struct LineBounds {
    /// The most bytes of a line, without its newline.
    pub line: u64,
    /// The most bytes of an input.
    pub all: u64,
}
