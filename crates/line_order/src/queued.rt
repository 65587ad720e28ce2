use crate::place::Place;

/// A line in a row of lines.
#[derive(Clone, Copy, Drop)]
pub struct Queued {
    /// Where it stands in the order.
    pub place: Place,
    /// How many bytes it has, with its newline.
    pub len: usize,
}
