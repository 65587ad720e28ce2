//! The text of a report's lines.
ghost use Rattle.std.specs.Prelude.{◌≡◌, ◌≤◌, ◌+◌, ◌*◌, [], None, OnOk, OnErr, length};
ghost use Rattle.line_text.specs.Buffer.{Puts, room_of, text_of};
ghost use Rattle.text_lines.specs.Text.{end_text};
ghost use Rattle.value_put.specs.Told.{Begins};

use crate::bus_words::BusWords;
use crate::second::Second;
use crate::typed_text::put_typed;
use crate::words::{
    LINE, put_key, put_label, put_payload, put_place, put_raw, put_reading, put_received,
    put_transfer, reserve_for, reserve_with,
};
use cy_bits::{NoMemory, ShortList};
use line_text::TextBuffer;
use node_plan::BusPlan;
use report_lines::{FullLine, LineRef, Numbers, Refused, RxRef, TxRef};
use std::alloc::Global;
use value_put::Stop;

/// Puts the lines of a report together. It keeps the words that lines have in common.
///
/// What isn't inlined takes its part of a line by value: then a line of bytes isn't put into memory
/// for it.
#[derive(Drop)]
pub struct LineWriter {
    /// Where the memory for a reading comes from.
    alloc: Global,
    /// The second of the last `rx` line.
    second: Second,
    /// The names of the buses, and the words of the last line on a message.
    names: BusWords,
    /// The bytes of the last payload that was read, and some behind them that don't count.
    bytes: TextBuffer,
}

#[tactic(auto, unfolding(crate::specs::Writer::writes_for))]
impl LineWriter {
    ghost use Rattle.text_lines.specs.Writer.{front_text, writes_for, Writes};

    /// A writer of lines with the names of these buses. Takes no memory.
    pub fn new(alloc: Global, buses: &ShortList<BusPlan, 3>) -> LineWriter
        ensures { writes_for result ≡ buses.now }
    {
        LineWriter {
            alloc,
            second: Second::of(0),
            names: BusWords::new(buses),
            bytes: TextBuffer::new(alloc),
        }
    }

    /// Appends the text of a line. Memory is taken for the text, and for what the payload says
    /// where the port has a type; want of it leaves the text as it was.
    #[inline(always)]
    pub fn push(&mut self, text: &mut TextBuffer, line: &LineRef<'_>) -> Result<(), NoMemory>
        ensures buses { writes_for self.new ≡ writes_for self.old }
        ensures ok { OnOk result (Writes self.old line.now text.old text.new) }
        ensures err { OnErr result (text_of text.new ≡ text_of text.old) }
    {
        match line {
            LineRef::Rx(rx) => self.push_rx(text, rx),
            LineRef::NoSession(refused) => self.push_refused(text, *refused),
            LineRef::Tx(tx) => self.push_tx(text, *tx),
            LineRef::Full(full) => self.push_full(text, *full),
        }
    }

    /// Appends the last line of a report that was read to its end. Want of memory leaves the text
    /// as it was.
    pub fn push_end(text: &mut TextBuffer, numbers: &Numbers) -> Result<(), NoMemory>
        ensures ok { OnOk result (Puts (end_text numbers.now) text.old text.new) }
        ensures err { OnErr result (text_of text.new ≡ text_of text.old) }
    {
        text.reserve(LINE)?;
        text.put_slice(b"end ");
        put_received(text, numbers);
        put_label(text, b"sent ", numbers.sent);
        put_label(text, b"held ", numbers.held);
        text.put_slice(b"bound ");
        text.put_number(numbers.bound);
        text.put_slice(b"\n");
        Ok(())
    }

    /// Appends the text of a transfer that was received.
    #[inline(always)]
    fn push_rx(&mut self, text: &mut TextBuffer, rx: &RxRef<'_>) -> Result<(), NoMemory>
        ensures buses { writes_for self.new ≡ writes_for self.old }
        ensures ok { OnOk result (Writes self.old (LineRef.Rx rx.now) text.old text.new) }
        ensures err { OnErr result (text_of text.new ≡ text_of text.old) }
    {
        match rx.port_type {
            None => self.push_raw(text, rx),
            Some(_) => self.push_typed(text, *rx),
        }
    }

    /// Appends the text of a transfer on a port without a type.
    #[inline(always)]
    pub fn push_raw(&mut self, text: &mut TextBuffer, rx: &RxRef<'_>) -> Result<(), NoMemory>
        requires { rx.now.port_type ≡ None }
        ensures buses { writes_for self.new ≡ writes_for self.old }
        ensures ok { OnOk result (Writes self.old (LineRef.Rx rx.now) text.old text.new) }
        ensures err { OnErr result (text_of text.new ≡ text_of text.old) }
    {
        reserve_for(text, rx.payload)?;
        self.put_front(text, rx);
        put_raw(text);
        Ok(())
    }

    /// Appends the text of a transfer on a port that may have a type.
    #[inline(never)]
    fn push_typed(&mut self, text: &mut TextBuffer, rx: RxRef<'_>) -> Result<(), NoMemory>
        ensures buses { writes_for self.new ≡ writes_for self.old }
        ensures ok { OnOk result (Writes self.old (LineRef.Rx rx.entry) text.old text.new) }
        ensures err { OnErr result (text_of text.new ≡ text_of text.old) }
    {
        let start = text.len();
        match self.push_at_once(text, &rx) {
            Ok(()) => Ok(()),
            Err(_) => {
                text.cut(start);
                self.push_by_value(text, rx)
            }
        }
    }

    /// The same without a value. Where it stops, nothing is said of the payload, and some of the
    /// text may be appended.
    #[inline(always)]
    fn push_at_once(&mut self, text: &mut TextBuffer, rx: &RxRef<'_>) -> Result<(), Stop>
        ensures buses { writes_for self.new ≡ writes_for self.old }
        ensures told { OnOk result (Writes self.old (LineRef.Rx rx.now) text.old text.new) }
        ensures front { Begins (text_of text.old) (text_of text.new) }
    {
        let Some(shape) = rx.port_type else {
            return Err(Stop::GivesUp);
        };
        reserve_for(text, rx.payload)?;
        self.put_front(text, rx);
        put_typed(shape, rx.payload, &mut self.bytes, text)
    }

    /// The same by the value: it names the path and the cause where the payload can't be read.
    #[cold]
    #[inline(never)]
    fn push_by_value(&mut self, text: &mut TextBuffer, rx: RxRef<'_>) -> Result<(), NoMemory>
        ensures buses { writes_for self.new ≡ writes_for self.old }
        ensures ok { OnOk result (Writes self.old (LineRef.Rx rx.entry) text.old text.new) }
        ensures err { OnErr result (text_of text.new ≡ text_of text.old) }
    {
        let reading = rx.reading(self.alloc)?;
        reserve_with(text, rx.payload, &reading)?;
        self.put_front(text, &rx);
        put_reading(text, &reading);
        Ok(())
    }

    /// Appends the words of a transfer up to its payload.
    #[inline(always)]
    fn put_front(&mut self, text: &mut TextBuffer, rx: &RxRef<'_>)
        requires { 512 + 2 * length rx.now.payload.now ≤ room_of text.old }
        ensures buses { writes_for self.new ≡ writes_for self.old }
        ensures text { Puts (front_text (writes_for self.old) rx.now) text.old text.new }
        ensures room { let digits = 2 * length rx.now.payload.now in
            room_of text.old ≤ room_of text.new + digits + 200 }
    {
        self.second.put(text, rx.moment);
        put_key(&mut self.names, text, rx.bus, &rx.key);
        put_transfer(text, rx);
        put_payload(text, rx.payload);
    }

    /// Appends the text of a start frame that had no session.
    #[cold]
    #[inline(never)]
    fn push_refused(&mut self, text: &mut TextBuffer, refused: Refused) -> Result<(), NoMemory>
        ensures buses { writes_for self.new ≡ writes_for self.old }
        ensures ok { OnOk result (Writes self.old (LineRef.NoSession refused) text.old text.new) }
        ensures err { OnErr result (text_of text.new ≡ text_of text.old) }
    {
        text.reserve(LINE)?;
        text.put_slice(b"nosession ");
        text.put_moment(refused.moment);
        put_key(&mut self.names, text, refused.bus, &refused.key);
        text.put_number(refused.line);
        text.put_slice(b"\n");
        Ok(())
    }

    /// Appends the text of a frame that left the node.
    #[inline(never)]
    fn push_tx(&self, text: &mut TextBuffer, tx: TxRef<'_>) -> Result<(), NoMemory>
        ensures ok { OnOk result (Writes self.now (LineRef.Tx tx.entry) text.old text.new) }
        ensures err { OnErr result (text_of text.new ≡ text_of text.old) }
    {
        text.reserve(LINE)?;
        text.put_tx(
            tx.moment,
            self.names.name(tx.bus),
            tx.ident,
            tx.bytes.as_slice(),
        );
        Ok(())
    }

    /// Appends the text of a bus that had no places for a transfer.
    #[cold]
    #[inline(never)]
    fn push_full(&self, text: &mut TextBuffer, full: FullLine) -> Result<(), NoMemory>
        ensures ok { OnOk result (Writes self.now (LineRef.Full full) text.old text.new) }
        ensures err { OnErr result (text_of text.new ≡ text_of text.old) }
    {
        text.reserve(LINE)?;
        text.put_slice(b"full ");
        put_place(&self.names, text, full.moment, full.bus);
        text.put_number(full.port as u64);
        text.put_slice(b" ");
        text.put_number(full.needed);
        text.put_slice(b" ");
        text.put_number(full.free);
        text.put_slice(b"\n");
        Ok(())
    }
}
