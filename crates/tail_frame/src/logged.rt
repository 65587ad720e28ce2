use crate::frame_data::FrameData;

/// One line of a log: a CAN frame that was received.
#[derive(Drop)]
pub struct Record {
    /// The line of the log, counted from 1.
    pub line: u64,
    /// When it was received, in microseconds.
    pub moment: u64,
    /// The bus on which it was received: its place among the buses of the plan, counted from 0.
    pub bus: u8,
    /// The CAN identifier.
    pub ident: u32,
    /// The data.
    pub bytes: FrameData,
}
