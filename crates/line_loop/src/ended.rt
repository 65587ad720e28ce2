/// How a loop over lines ended.
#[derive(Clone, Copy, Debug, PartialEq, Eq)]
pub enum LinesEnded<R> {
    /// Each line was answered.
    Ok,
    /// A line was refused, and those before it were answered.
    Refused(R),
    /// The input has more bytes than it may have, and no line among those that count was refused.
    TooLong,
    /// The input failed.
    ReadFault,
    /// The output failed.
    WriteFault,
    /// Memory was wanted and not given.
    NoMemory,
}
