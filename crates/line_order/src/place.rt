/// Where a line stands in the order: by its moment, and of equal moments by its number.
#[derive(Clone, Copy, Debug, PartialEq, Eq, PartialOrd, Ord)]
pub struct Place {
    /// Its moment in microseconds.
    pub moment: u64,
    /// Its number in the input.
    pub number: u64,
}
