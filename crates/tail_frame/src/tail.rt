ghost use Rattle.std.specs.Prelude.{◌≡◌, ◌<◌, IsTrue};
ghost use Rattle.tail_frame.specs.Frames.{tail_of, tail_byte};

/// The tail byte, the last data byte of a frame (Cyphal Specification, section 4.2).
#[derive(Clone, Copy, Debug, PartialEq, Eq)]
pub struct Tail {
    /// Bit 7: whether the frame is its transfer's first.
    pub start: bool,
    /// Bit 6: whether the frame is its transfer's last.
    pub end: bool,
    /// Bit 5: set in the first frame of a transfer, and alternating.
    pub toggle: bool,
    /// Bits 4 to 0: the transfer-ID, 0 to 31.
    pub tid: u8,
}

impl Tail {
    /// The tail that a byte says (Cyphal Specification, section 4.2). `to_byte` undoes it.
    #[inline(always)]
    pub fn parse(byte: u8) -> Tail
        ensures value { result ≡ tail_of byte }
        ensures range { result.tid < 32 }
        ensures undone { tail_byte result ≡ byte }
    {
        Tail {
            start: byte / 0x80 == 1,
            end: byte / 0x40 % 2 == 1,
            toggle: byte / 0x20 % 2 == 1,
            tid: byte % 0x20,
        }
    }

    /// The byte of a tail (Cyphal Specification, section 4.2). `parse` undoes it.
    #[inline]
    pub fn to_byte(self) -> u8
        requires { self.tid < 32 }
        ensures value { result ≡ tail_byte self }
        ensures undone { tail_of result ≡ self }
    {
        self.start as u8 * 0x80 + self.end as u8 * 0x40 + self.toggle as u8 * 0x20 + self.tid
    }
}
