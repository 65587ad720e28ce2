/// Why bytes can't be read as a value (Cyphal Specification, section 3.7), with the number that was
/// read.
#[derive(Clone, Copy, PartialEq, Eq, Debug)]
pub enum ReadWhy {
    /// The tag of a union is that of no variant (Cyphal Specification, section 3.7.5).
    BadTag(u64),
    /// The length field of an array is above its capacity (Cyphal Specification, section 3.7.4).
    BadLength(u64),
    /// A delimiter header counts more bytes than are left in what stands around its part (Cyphal
    /// Specification, section 3.7.5).
    BadDelimiter(u64),
}
