//! The line of a report on a frame that left a node.
ghost use Rattle.std.specs.Prelude.{◌≡◌, ◌≤◌, ◌+◌, ◌*◌, ◌++◌, length};
ghost use Rattle.line_text.specs.Buffer.{room_of, text_of};
ghost use Rattle.line_text.specs.TxLine.{tx_text};

use crate::text_buffer::TextBuffer;

impl TextBuffer {
    /// Appends the line of a frame that left a node at a moment, in microseconds, on a bus: `tx`,
    /// the moment, the bus's name, the identifier of 29 bits and the data. There is room for 80
    /// bytes besides the name and two digits for each byte of the data.
    pub fn put_tx(&mut self, moment: u64, bus: &[u8], ident: u32, bytes: &[u8])
        requires room { 80 + length bus.now + 2 * length bytes.now ≤ room_of self.old }
        ensures text { text_of self.new
            ≡ text_of self.old ++ tx_text moment bus.now ident bytes.now }
    {
        self.put_slice(b"tx ");
        self.put_moment(moment);
        self.put_slice(b" ");
        self.put_slice(bus);
        self.put_slice(b" ");
        self.put_ident(ident);
        self.put_slice(b" ");
        self.put_hex(bytes);
        self.put_slice(b"\n");
    }
}
