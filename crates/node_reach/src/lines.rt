//! The lines that are written.
ghost use Rattle.std.specs.Prelude.{◌≡◌, ◌<◌, ◌≤◌, ◌+◌, ◌++◌, OnOk, length};
ghost use Rattle.frag.specs.Wire.{frames};
ghost use Rattle.line_text.specs.Buffer.{text_of, room_of};
ghost use Rattle.node_reach.specs.Buses.{bus_names};
ghost use Rattle.line_text.specs.TxLine.{tx_text};
ghost use Rattle.node_reach.specs.Lines.{tx_on, tx_lines, uid_bytes, given_line, full_line, node_line, offline_line, signed, end_line};
ghost use Rattle.node_reach.specs.Monitored.{estimate_line};

use cy_bits::NoMemory;
use frag::Frames;
use line_text::TextBuffer;
use net_monitor::NodeState;
use time_sync::Estimate;

/// A transfer that is sent on each bus.
#[derive(Clone, Copy)]
pub(crate) struct Outgoing<'a> {
    /// When it is sent, in microseconds.
    pub moment: u64,
    /// The identifier of its frames.
    pub ident: u32,
    /// Its transfer-ID, 0 to 31.
    pub tid: u8,
    /// Its payload.
    pub payload: &'a [u8],
}

/// Appends the lines of a transfer's frames, classic CAN, bus by bus.
pub(crate) fn put_transfer(text: &mut TextBuffer, sent: Outgoing<'_>) -> Result<(), NoMemory>
    requires tid { sent.tid < 32 }
    requires len { length sent.payload.now ≤ 512 }
    ensures { let s = sent.entry in OnOk result (text_of text.new ≡ text_of text.old
        ++ tx_lines s.moment s.ident (frames 8 s.payload.now s.tid) bus_names) }
{
    put_on_bus(text, b"can0", sent)?;
    put_on_bus(text, b"can1", sent)?;
    put_on_bus(text, b"can2", sent)
}

/// Appends the lines of a transfer's frames on one bus.
fn put_on_bus(text: &mut TextBuffer, bus: &[u8], sent: Outgoing<'_>) -> Result<(), NoMemory>
    requires bus { length bus.now ≤ 15 }
    requires tid { sent.tid < 32 }
    requires len { length sent.payload.now ≤ 512 }
    ensures { let s = sent.entry in OnOk result (text_of text.new ≡ text_of text.old
        ++ tx_on s.moment s.ident bus.now (frames 8 s.payload.now s.tid)) }
{
    for bytes in Frames::new(sent.payload, sent.tid, 8) {
        put_frame(text, bus, sent.moment, sent.ident, bytes.as_slice())?;
    }
    Ok(())
}

/// Appends the line of a frame on one bus.
fn put_frame(
    text: &mut TextBuffer,
    bus: &[u8],
    moment: u64,
    ident: u32,
    bytes: &[u8],
) -> Result<(), NoMemory>
    requires bus { length bus.now ≤ 15 }
    requires bytes { length bytes.now ≤ 64 }
    ensures { OnOk result
        (text_of text.new ≡ text_of text.old ++ tx_text moment bus.now ident bytes.now) }
{
    text.reserve(256)?;
    text.put_tx(moment, bus, ident, bytes);
    Ok(())
}

/// Appends the line that a unique id is given a node-ID.
pub(crate) fn put_given(
    text: &mut TextBuffer,
    moment: u64,
    node: u8,
    uid: u64,
) -> Result<(), NoMemory>
    ensures { OnOk result (text_of text.new ≡ text_of text.old ++ given_line moment node uid) }
{
    text.reserve(128)?;
    text.put_slice(b"given ");
    text.put_moment(moment);
    text.put_slice(b" ");
    text.put_byte_word(node);
    text.put_hex(&uid_bytes(uid));
    text.put_slice(b"\n");
    Ok(())
}

/// Appends the line that no node-ID is free for a unique id.
pub(crate) fn put_full(text: &mut TextBuffer, moment: u64, uid: u64) -> Result<(), NoMemory>
    ensures { OnOk result (text_of text.new ≡ text_of text.old ++ full_line moment uid) }
{
    text.reserve(128)?;
    text.put_slice(b"full ");
    text.put_moment(moment);
    text.put_slice(b" ");
    text.put_hex(&uid_bytes(uid));
    text.put_slice(b"\n");
    Ok(())
}

/// Appends the last line: the number of records, and that of what a word says.
pub(crate) fn put_end(
    text: &mut TextBuffer,
    records: u64,
    word: &[u8],
    count: u64,
) -> Result<(), NoMemory>
    requires { length word.now ≤ 15 }
    ensures { OnOk result
        (text_of text.new ≡ text_of text.old ++ end_line records word.now count) }
{
    text.reserve(128)?;
    text.put_slice(b"end records ");
    text.put_number(records);
    text.put_slice(b" ");
    text.put_slice(word);
    text.put_slice(b" ");
    text.put_number(count);
    text.put_slice(b"\n");
    Ok(())
}

/// Appends how a node is that is online.
pub(crate) fn put_node(text: &mut TextBuffer, state: &NodeState) -> Result<(), NoMemory>
    ensures { OnOk result (text_of text.new ≡ text_of text.old ++ node_line state.now) }
{
    let beat = &state.beat;
    text.reserve(256)?;
    text.put_slice(b"node ");
    text.put_byte_word(state.node);
    text.put_slice(b"uptime ");
    text.put_number(u64::from(beat.uptime));
    text.put_slice(b" health ");
    text.put_byte_word(beat.health.value);
    text.put_slice(b"mode ");
    text.put_byte_word(beat.mode.value);
    text.put_slice(b"code ");
    text.put_byte_word(beat.vendor_specific_status_code);
    text.put_slice(b"restarts ");
    text.put_number(state.restarts);
    text.put_slice(b"\n");
    Ok(())
}

/// Appends that a node was heard and isn't online.
pub(crate) fn put_offline(text: &mut TextBuffer, node: u8) -> Result<(), NoMemory>
    ensures { OnOk result (text_of text.new ≡ text_of text.old ++ offline_line node) }
{
    text.reserve(128)?;
    text.put_slice(b"offline ");
    text.put_number(u64::from(node));
    text.put_slice(b"\n");
    Ok(())
}

/// Appends the network's time, if there is an estimate.
pub(crate) fn put_estimate(
    text: &mut TextBuffer,
    estimate: Option<Estimate>,
) -> Result<(), NoMemory>
    ensures { OnOk result (text_of text.new ≡ text_of text.old ++ estimate_line estimate) }
{
    text.reserve(128)?;
    match estimate {
        Some(estimate) => {
            text.put_slice(b"time ");
            text.put_byte_word(estimate.source);
            put_signed(text, estimate.offset);
            text.put_slice(b"\n");
        }
        None => text.put_slice(b"time -\n"),
    }
    Ok(())
}

/// Appends a whole number, with a minus sign where it is below 0. There is room for 32 bytes.
fn put_signed(text: &mut TextBuffer, number: i64)
    requires { 32 ≤ room_of text.old }
    ensures text { text_of text.new ≡ text_of text.old ++ signed number }
    ensures room { room_of text.old ≤ room_of text.new + 24 }
{
    if number < 0 {
        text.put_slice(b"-");
    }
    text.put_number(number.unsigned_abs());
}

/// The low 48 bits of a unique id, the highest byte first.
fn uid_bytes(uid: u64) -> [u8; 6]
    ensures { result ≡ uid_bytes uid }
{
    [
        (uid / 0x100_0000_0000 % 256) as u8,
        (uid / 0x1_0000_0000 % 256) as u8,
        (uid / 0x100_0000 % 256) as u8,
        (uid / 0x1_0000 % 256) as u8,
        (uid / 0x100 % 256) as u8,
        (uid % 256) as u8,
    ]
}
