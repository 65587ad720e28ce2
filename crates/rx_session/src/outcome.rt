ghost use Rattle.std.specs.Prelude.{◌≡◌, take};

/// A transfer that was received (Cyphal Specification, section 4.1.4).
#[derive(Clone, Copy, Debug)]
pub struct Delivery<'a> {
    /// The number of the bus that its first frame came on.
    pub bus: u8,
    /// The priority of its last frame, 0 to 7.
    pub priority: u8,
    /// The transfer-ID, 0 to 31.
    pub tid: u8,
    /// The line of its first frame.
    pub first: u64,
    /// The line of its last frame.
    pub last: u64,
    /// The moment of its first frame, in microseconds.
    pub moment: u64,
    /// The payload without its CRC, cut to the extent.
    pub payload: &'a [u8],
}

/// What a frame came to (Cyphal Specification, section 4.1.4).
#[derive(Clone, Copy, Debug)]
pub enum Outcome<'a> {
    /// The frame is none that the session expects.
    Ignored,
    /// The frame was taken, and its transfer isn't complete.
    Held,
    /// The frame ends a transfer whose bytes don't fit their CRC (Cyphal Specification,
    /// section 4.2).
    BadCrc,
    /// The frame ends a transfer.
    Delivered(Delivery<'a>),
}

/// A delivery whose payload is the front of its session's buffer.
#[derive(Clone, Copy, Debug, PartialEq, Eq)]
pub struct Front {
    /// The number of the bus that its first frame came on.
    pub bus: u8,
    /// The priority of its last frame, 0 to 7.
    pub priority: u8,
    /// The transfer-ID, 0 to 31.
    pub tid: u8,
    /// The line of its first frame.
    pub first: u64,
    /// The line of its last frame.
    pub last: u64,
    /// The moment of its first frame, in microseconds.
    pub moment: u64,
    /// The number of payload bytes received, of which the buffer may have fewer.
    pub count: u64,
}

/// What a session knows of a transfer of several frames that it delivers.
#[derive(Clone, Copy, Debug, PartialEq, Eq)]
pub struct Begun {
    /// The line of its first frame.
    pub first: u64,
    /// When that was received, in microseconds.
    pub moment: u64,
    /// The number of payload bytes, of which the buffer may have fewer.
    pub count: u64,
}

/// An outcome that borrows nothing.
#[derive(Clone, Copy, Debug, PartialEq, Eq)]
pub enum Step {
    /// The frame is none that the session expects.
    Ignored,
    /// The frame was taken, and its transfer isn't complete.
    Held,
    /// The frame ends a transfer whose bytes don't fit their CRC.
    BadCrc,
    /// The frame is a whole transfer.
    Whole,
    /// The frame ends a transfer of several.
    Delivered(Begun),
}

impl Front {
    /// The delivery, with its payload lent from the session's buffer.
    #[inline(always)]
    pub fn lend(self, buffer: &[u8]) -> Delivery<'_>
        ensures payload { result.payload.now ≡ take self.count buffer.now }
        ensures bus { result.bus ≡ self.bus }
        ensures priority { result.priority ≡ self.priority }
        ensures tid { result.tid ≡ self.tid }
        ensures first { result.first ≡ self.first }
        ensures last { result.last ≡ self.last }
        ensures moment { result.moment ≡ self.moment }
    {
        let count = if self.count < buffer.len() as u64 {
            self.count as usize
        } else {
            buffer.len()
        };
        Delivery {
            bus: self.bus,
            priority: self.priority,
            tid: self.tid,
            first: self.first,
            last: self.last,
            moment: self.moment,
            payload: &buffer[..count],
        }
    }
}
