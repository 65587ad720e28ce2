//! The JSON text of a report's lines.
ghost use Rattle.std.specs.Prelude.{◌≡◌, ◌≤◌, ◌+◌, ◌*◌, ◌++◌, None, OnOk, OnErr, Some, codes};
ghost use Rattle.std.specs.Prelude.{length};
ghost use Rattle.dsdl_types.specs.Fits.{Fits};
ghost use Rattle.dsdl_types.specs.Views.{sch, val};
ghost use Rattle.line_text.specs.Buffer.{Puts as PutsBytes, room_of, text_of};
ghost use Rattle.value_json.specs.Pieces.{Begins, Puts, exact};
ghost use Rattle.value_json.specs.Json.{json_of};
ghost use Rattle.value_put.specs.Told.{Begins as Began};
ghost use Rattle.json_lines.specs.Text.{end_json, line_end};

use crate::members::{
    put_error, put_key, put_label, put_node, put_payload, put_place, put_received, put_transfer,
};
use crate::said::{Said, read_payload};
use crate::typed_json::put_typed;
use cy_bits::{NoMemory, ShortList};
use dsdl_types::{ReadWhy, Schema, Value};
use line_text::TextBuffer;
use node_plan::BusPlan;
use node_plan::buses::copy_of;
use report_lines::{CompiledShape, FullLine, LineRef, Numbers, Refused, RxRef, TxRef};
use std::alloc::Global;
use value_json::put_value;
use value_put::Stop;

/// The most bytes of a line besides those of its payload and of what that says.
const LINE: usize = 512;

/// Puts the lines of a report together as JSON: one object a line.
#[derive(Drop)]
pub struct JsonWriter {
    /// Where the memory for a value comes from.
    alloc: Global,
    /// The buses whose names lines have.
    buses: ShortList<BusPlan, 3>,
    /// The bytes of the last payload that was read, and some behind them that don't count.
    bytes: TextBuffer,
}

#[tactic(auto, unfolding(crate::specs::Writer::writes_for))]
impl JsonWriter {
    ghost use Rattle.json_lines.specs.Writer.{Writes, front_of, port_type, refused_text};
    ghost use Rattle.json_lines.specs.Writer.{valued_json, writes_for};

    /// A writer of lines with the names of these buses. Takes no memory.
    pub fn new(alloc: Global, buses: &ShortList<BusPlan, 3>) -> JsonWriter
        ensures { writes_for result ≡ buses.now }
    {
        JsonWriter {
            alloc,
            buses: copy_of(buses),
            bytes: TextBuffer::new(alloc),
        }
    }

    /// Appends the JSON text of a line. Memory is taken for the text, and for what the payload
    /// says where the port has a type; want of it leaves the text as it was.
    pub fn push(&mut self, text: &mut TextBuffer, line: &LineRef<'_>) -> Result<(), NoMemory>
        ensures buses { writes_for self.new ≡ writes_for self.old }
        ensures ok { OnOk result (Writes self.old line.now text.old text.new) }
        ensures err { OnErr result (text_of text.new ≡ text_of text.old) }
    {
        match line {
            LineRef::Rx(rx) => self.push_rx(text, rx),
            LineRef::NoSession(refused) => self.push_refused(text, refused),
            LineRef::Tx(tx) => self.push_tx(text, tx),
            LineRef::Full(full) => self.push_full(text, full),
        }
    }

    /// Appends the last line of a report that was read to its end. Want of memory leaves the text
    /// as it was.
    pub fn push_end(text: &mut TextBuffer, numbers: &Numbers) -> Result<(), NoMemory>
        ensures ok { OnOk result (PutsBytes (end_json numbers.now) text.old text.new) }
        ensures err { OnErr result (text_of text.new ≡ text_of text.old) }
    {
        text.reserve(LINE)?;
        text.put_slice(b"{\"line\":\"end\"");
        put_received(text, numbers);
        put_node(text, numbers);
        text.put_slice(b"}\n");
        Ok(())
    }

    /// Appends the text of a transfer that was received.
    fn push_rx(&mut self, text: &mut TextBuffer, rx: &RxRef<'_>) -> Result<(), NoMemory>
        ensures buses { writes_for self.new ≡ writes_for self.old }
        ensures ok { OnOk result (Writes self.old (LineRef.Rx rx.now) text.old text.new) }
        ensures err { OnErr result (text_of text.new ≡ text_of text.old) }
    {
        match rx.port_type {
            None => self.push_raw(text, rx),
            Some(shape) => self.push_typed(text, rx, shape),
        }
    }

    /// Appends the text of a transfer on a port without a type.
    #[inline(always)]
    pub fn push_raw(&self, text: &mut TextBuffer, rx: &RxRef<'_>) -> Result<(), NoMemory>
        requires { rx.now.port_type ≡ None }
        ensures ok { OnOk result (Writes self.now (LineRef.Rx rx.now) text.old text.new) }
        ensures err { OnErr result (text_of text.new ≡ text_of text.old) }
    {
        reserve_for(text, rx.payload, &[])?;
        self.put_front(text, rx);
        text.put_slice(b"}\n");
        Ok(())
    }

    /// Appends the text of a transfer on a port with a type.
    fn push_typed(
        &mut self,
        text: &mut TextBuffer,
        rx: &RxRef<'_>,
        shape: &CompiledShape,
    ) -> Result<(), NoMemory>
        requires { port_type rx.now ≡ Some (sch shape.now.schema) }
        ensures buses { writes_for self.new ≡ writes_for self.old }
        ensures ok { OnOk result (Writes self.old (LineRef.Rx rx.now) text.old text.new) }
        ensures err { OnErr result (text_of text.new ≡ text_of text.old) }
    {
        let start = text.len();
        match self.push_at_once(text, rx, shape) {
            Ok(()) => Ok(()),
            Err(_) => {
                text.cut(start);
                self.push_by_value(text, rx, shape)
            }
        }
    }

    /// The same without a value. Where it stops, nothing is said of the payload, and some of the
    /// text may be appended.
    #[inline(always)]
    fn push_at_once(
        &mut self,
        text: &mut TextBuffer,
        rx: &RxRef<'_>,
        shape: &CompiledShape,
    ) -> Result<(), Stop>
        requires { port_type rx.now ≡ Some (sch shape.now.schema) }
        ensures buses { writes_for self.new ≡ writes_for self.old }
        ensures put { OnOk result (Writes self.old (LineRef.Rx rx.now) text.old text.new) }
        ensures front { Began (text_of text.old) (text_of text.new) }
    {
        reserve_for(text, rx.payload, &[])?;
        self.put_front(text, rx);
        put_typed(shape, rx.payload, &mut self.bytes, text)
    }

    /// The same by the value: it names the path and the cause where the payload can't be read.
    #[cold]
    #[inline(never)]
    fn push_by_value(
        &self,
        text: &mut TextBuffer,
        rx: &RxRef<'_>,
        shape: &CompiledShape,
    ) -> Result<(), NoMemory>
        requires { port_type rx.now ≡ Some (sch shape.now.schema) }
        ensures ok { OnOk result (Writes self.now (LineRef.Rx rx.now) text.old text.new) }
        ensures err { OnErr result (text_of text.new ≡ text_of text.old) }
    {
        let said = read_payload(self.alloc, shape, rx.payload)?;
        match said {
            Said::Value(value) => self.push_good(text, rx, &shape.schema, &value),
            Said::Bad { path, why } => self.push_bad(text, rx, path.as_str(), why),
        }
    }

    /// Appends the text of a transfer, and the value that its payload is read as.
    fn push_good(
        &self,
        text: &mut TextBuffer,
        rx: &RxRef<'_>,
        schema: &Schema,
        value: &Value,
    ) -> Result<(), NoMemory>
        requires { Fits (sch schema.now) (val value.now) }
        ensures ok { let line = valued_json (writes_for self.now) rx.now
            (sch schema.now) (val value.now) in
            OnOk result (Puts line text.old text.new) }
        ensures err { OnErr result (text_of text.new ≡ text_of text.old) }
    {
        reserve_for(text, rx.payload, &[])?;
        let len = text.len();
        self.put_front(text, rx);
        text.put_slice(b",\"value\":");
        let put = put_last(text, schema, value);
        if put.is_err() {
            text.cut(len);
        }
        put
    }

    /// Appends the text of a transfer, and why its payload can't be read.
    fn push_bad(
        &self,
        text: &mut TextBuffer,
        rx: &RxRef<'_>,
        path: &str,
        why: ReadWhy,
    ) -> Result<(), NoMemory>
        ensures ok { let line = refused_text (writes_for self.now) rx.now path.now why in
            OnOk result (PutsBytes line text.old text.new) }
        ensures err { OnErr result (text_of text.new ≡ text_of text.old) }
    {
        reserve_for(text, rx.payload, path.as_bytes())?;
        self.put_front(text, rx);
        text.put_slice(b",\"error\":");
        put_error(text, path, why);
        text.put_slice(b"}\n");
        Ok(())
    }

    /// Puts the members of a transfer up to its payload.
    #[inline(always)]
    fn put_front(&self, text: &mut TextBuffer, rx: &RxRef<'_>)
        requires { 512 + 2 * length rx.now.payload.now ≤ room_of text.old }
        ensures text { PutsBytes (front_of (writes_for self.now) rx.now) text.old text.new }
        ensures room { let digits = 2 * length rx.now.payload.now in
            room_of text.old ≤ room_of text.new + digits + 300 }
    {
        put_place(
            text,
            b"{\"line\":\"rx\",\"time\":",
            &self.buses,
            rx.moment,
            rx.bus,
        );
        put_key(text, &rx.key);
        put_transfer(text, rx);
        put_payload(text, rx.payload);
    }

    /// Appends the text of a start frame that had no session.
    fn push_refused(&self, text: &mut TextBuffer, refused: &Refused) -> Result<(), NoMemory>
        ensures ok { let line = LineRef.NoSession refused.now in
            OnOk result (Writes self.now line text.old text.new) }
        ensures err { OnErr result (text_of text.new ≡ text_of text.old) }
    {
        text.reserve(LINE)?;
        put_place(
            text,
            b"{\"line\":\"nosession\",\"time\":",
            &self.buses,
            refused.moment,
            refused.bus,
        );
        put_key(text, &refused.key);
        put_label(text, b",\"at\":", refused.line);
        text.put_slice(b"}\n");
        Ok(())
    }

    /// Appends the text of a frame that left the node.
    fn push_tx(&self, text: &mut TextBuffer, tx: &TxRef<'_>) -> Result<(), NoMemory>
        ensures ok { OnOk result (Writes self.now (LineRef.Tx tx.now) text.old text.new) }
        ensures err { OnErr result (text_of text.new ≡ text_of text.old) }
    {
        text.reserve(LINE)?;
        put_place(
            text,
            b"{\"line\":\"tx\",\"time\":",
            &self.buses,
            tx.moment,
            tx.bus,
        );
        text.put_slice(b",\"id\":\"");
        text.put_ident(tx.ident);
        text.put_slice(b"\",\"data\":\"");
        text.put_hex(tx.bytes.as_slice());
        text.put_slice(b"\"}\n");
        Ok(())
    }

    /// Appends the text of a bus that had no places for a transfer.
    fn push_full(&self, text: &mut TextBuffer, full: &FullLine) -> Result<(), NoMemory>
        ensures ok { OnOk result (Writes self.now (LineRef.Full full.now) text.old text.new) }
        ensures err { OnErr result (text_of text.new ≡ text_of text.old) }
    {
        text.reserve(LINE)?;
        put_place(
            text,
            b"{\"line\":\"full\",\"time\":",
            &self.buses,
            full.moment,
            full.bus,
        );
        put_label(text, b",\"port\":", full.port as u64);
        put_label(text, b",\"needed\":", full.needed);
        put_label(text, b",\"free\":", full.free);
        text.put_slice(b"}\n");
        Ok(())
    }
}

/// Takes memory for a line with this payload and this path.
#[inline(always)]
fn reserve_for(text: &mut TextBuffer, payload: &[u8], path: &[u8]) -> Result<(), NoMemory>
    ensures text { text_of text.new ≡ text_of text.old }
    ensures room { OnOk result (512 + 2 * length payload.now + length path.now ≤ room_of text.new) }
{
    let Some(digits) = payload.len().checked_mul(2) else {
        return Err(NoMemory);
    };
    let Some(bytes) = digits.checked_add(path.len()) else {
        return Err(NoMemory);
    };
    let Some(room) = bytes.checked_add(LINE) else {
        return Err(NoMemory);
    };
    text.reserve(room)
}

/// Appends a value and the end of a line. Where it fails, the text begins as it was.
fn put_last(text: &mut TextBuffer, schema: &Schema, value: &Value) -> Result<(), NoMemory>
    requires { Fits (sch schema.now) (val value.now) }
    ensures put { OnOk result
        (Puts (json_of (sch schema.now) (val value.now) ++ exact line_end) text.old text.new) }
    ensures front { Begins (text_of text.old) (text_of text.new) }
{
    put_value(text, schema, value)?;
    text.push(b"}\n")
}
