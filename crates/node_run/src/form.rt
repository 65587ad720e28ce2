/// The form in which a run's report is written.
#[derive(Clone, Copy, Debug, PartialEq, Eq)]
pub enum Form {
    /// Lines of words.
    Text,
    /// JSON lines (RFC 8259): an object a line.
    Json,
}
