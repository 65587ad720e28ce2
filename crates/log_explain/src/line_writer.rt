//! The text of the lines on records.
ghost use Rattle.std.specs.Prelude.{◌≡◌, ◌≤◌, ◌+◌, ◌++◌, ◌∷◌, [], IfOk};
ghost use Rattle.line_text.specs.Buffer.{Puts, room_of};
ghost use Rattle.line_text.specs.Text.{spaced};
ghost use Rattle.log_explain.specs.Text.{kind_word, source_word, transfer_words};

use crate::bus_words::BusWords;
use crate::line::{FrameLine, Transfer};
use crate::port_words::PortWords;
use crate::reason_words::put_reason;
use crate::second::Second;
use crate::ten_lines::TenLines;
use can_id::Kind;
use cy_bits::{BusName, NoMemory, ShortList};
use line_text::TextBuffer;
use std::alloc::Global;

/// The most bytes of a line, and of those behind them that are written too.
pub const LINE: usize = 384;

/// Puts the lines on records together. It keeps the words that lines have in common.
#[derive(Drop)]
pub struct LineWriter {
    /// The names of the buses.
    pub buses: BusWords,
    /// The number of the last line.
    lines: TenLines,
    /// The second of the last line.
    second: Second,
    /// The numbers of the ports.
    ports: PortWords,
}

impl LineWriter {
    ghost use Rattle.log_explain.specs.Text.{frame_text, place_words};

    /// A writer of lines on buses with these names.
    pub fn new(alloc: Global, names: ShortList<BusName, 3>) -> Result<LineWriter, NoMemory>
        ensures { IfOk result (λ w. w.buses.names ≡ names) }
    {
        let ports = PortWords::new(alloc)?;
        Ok(LineWriter {
            buses: BusWords::new(names),
            lines: TenLines::of(0),
            second: Second::of(0),
            ports,
        })
    }

    /// Puts the line on a record.
    #[inline(always)]
    pub fn put(&mut self, text: &mut TextBuffer, line: &FrameLine)
        requires { 384 ≤ room_of text.old }
        ensures names { self.new.buses.names ≡ self.old.buses.names }
        ensures text { let names = self.old.buses.names in
            Puts (frame_text names line.now) text.old text.new }
    {
        self.put_place(text, line);
        put_transfer(&self.ports, text, line.transfer);
        put_reason(&self.buses, text, line.reason);
    }

    /// Puts where a record stands, when it was received, and on which bus.
    #[inline(always)]
    fn put_place(&mut self, text: &mut TextBuffer, line: &FrameLine)
        requires { 384 ≤ room_of text.old }
        ensures names { self.new.buses.names ≡ self.old.buses.names }
        ensures text { let names = self.old.buses.names in
            Puts (spaced (place_words names line.now)) text.old text.new }
        ensures room { room_of text.old ≤ room_of text.new + 104 }
    {
        self.lines.put(text, line.line);
        self.second.put(text, line.moment);
        self.buses.put(text, line.bus);
    }
}

/// Puts the words of the transfer that a frame is one of, or of none.
#[inline(always)]
fn put_transfer(ports: &PortWords, text: &mut TextBuffer, transfer: Option<Transfer>)
    requires { 64 ≤ room_of text.old }
    ensures text { Puts (spaced (transfer_words transfer)) text.old text.new }
    ensures room { room_of text.old ≤ room_of text.new + 44 }
{
    match transfer {
        None => text.put_slice(b"- - - - "),
        Some(transfer) => {
            text.put(&kind_block(transfer.key.kind), 4);
            ports.put(text, transfer.key.port);
            put_source(text, transfer.key.source);
            text.put_byte_word(transfer.tid);
        }
    }
}

/// Puts a sender's node-ID or `-`, and a space.
#[inline(always)]
fn put_source(text: &mut TextBuffer, source: Option<u8>)
    requires { 8 ≤ room_of text.old }
    ensures text { Puts (source_word source ++ 32 ∷ []) text.old text.new }
    ensures room { room_of text.old ≤ room_of text.new + 4 }
{
    match source {
        Some(source) => text.put_byte_word(source),
        None => text.put_slice(b"- "),
    }
}

/// The word of what a transfer is for, and a space.
#[inline(always)]
fn kind_block(kind: Kind) -> [u8; 4]
    ensures { result ≡ kind_word kind ++ 32 ∷ [] }
{
    match kind {
        Kind::Message => *b"msg ",
        Kind::Request => *b"req ",
        Kind::Response => *b"res ",
    }
}
