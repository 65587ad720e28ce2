/// What a client of a file server hears (Cyphal Specification, section 5.3.7).
#[derive(Clone, Copy, Debug)]
pub enum FetchEvent<'a> {
    /// A response of the server to a request to read.
    Reply {
        /// Its transfer-ID, 0 to 31, which is that of the request that it answers.
        tid: u8,
        /// The server's error code; 0 says that there is none.
        code: u16,
        /// The bytes read, at most 256. Fewer are the last of the file.
        bytes: &'a [u8],
    },
    /// The time to wait for a reply to the request that is out is over.
    Late,
}

/// What a client does at an event (Cyphal Specification, section 5.3.7).
#[derive(Clone, Copy, Debug, PartialEq, Eq)]
pub enum FetchOut {
    /// It makes the next request.
    Ask {
        /// The request's transfer-ID, 0 to 31.
        tid: u8,
        /// The number of bytes of the file before those that it asks for.
        offset: u64,
    },
    /// It goes on waiting: the reply isn't to the request that is out.
    Wait,
    /// The end: it has the file.
    Done,
    /// The end: the server refused the request that was out.
    Refused {
        /// The server's error code, which isn't 0.
        code: u16,
    },
    /// The end: for the eighth time a request at one offset was late.
    GaveUp {
        /// The number of bytes so far.
        offset: u64,
    },
    /// The end: the file is longer than the limit.
    TooLong {
        /// The number of bytes with those of the reply, which is above the limit.
        length: u64,
    },
}
