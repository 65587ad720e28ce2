/// What a transfer is for (Cyphal Specification, section 4.1.1).
#[derive(Clone, Copy, Debug, PartialEq, Eq)]
pub enum Kind {
    /// Published on a subject.
    Message,
    /// Asked of a server.
    Request,
    /// Answered to a client.
    Response,
}

/// What the frames of one session have in common (Cyphal Specification, section 4.1).
#[derive(Clone, Copy, Debug, PartialEq, Eq)]
pub struct Key {
    /// What the transfer is for.
    pub kind: Kind,
    /// The subject-ID, 0 to 8191, or the service-ID, 0 to 511.
    pub port: u16,
    /// The node-ID of the sender, 0 to 127. An anonymous message has none.
    pub source: Option<u8>,
}
