/// A frame of a transfer on a bus.
#[derive(Clone, Copy, Debug, PartialEq, Eq)]
pub struct Row {
    /// The number of the transfer among all, counted from 0.
    pub transfer: u64,
    /// The bus, counted from 0.
    pub bus: u8,
    /// The number of the frame, counted from 0.
    pub frame: u64,
}
