//! The lines that are written.
ghost use Rattle.std.specs.Prelude.{◌≡◌, ◌++◌, ◌∷◌, ◌+◌, ◌≤◌, codes, decimal, length, OnOk};
ghost use Rattle.std.specs.Map.{values_of};
ghost use Rattle.line_text.specs.Buffer.{text_of, room_of};
ghost use Rattle.line_text.specs.Text.{line_of};
ghost use Rattle.bus_survey.specs.Lines.{moment_or, number_or, kind_word, sender_word, name_of, bus_line, bus_lines, count_words, flow_line, flow_lines, end_line};

use crate::bus_counts::BusCounts;
use crate::buses::Buses;
use crate::flow::{Flow, FlowKind, Sender};
use crate::flow_counts::FlowCounts;
use crate::flow_table::FlowTable;
use cy_bits::{BusName, NoMemory, ShortList};
use line_text::TextBuffer;

/// Room for a line, and for what is put behind its last number.
const LINE: usize = 1024;

/// Appends the lines of the buses with these names, in their order.
pub(crate) fn put_buses(
    text: &mut TextBuffer,
    names: &ShortList<BusName, 3>,
    buses: &Buses,
) -> Result<(), NoMemory>
    ensures { OnOk result
        (text_of text.new ≡ text_of text.old ++ bus_lines names.now buses.now.counts) }
{
    let listed = names.as_slice();
    for bus in 0..listed.len() {
        put_bus(text, &listed[bus], &buses.counts[bus])?;
    }
    Ok(())
}

/// Appends the line of a bus.
fn put_bus(text: &mut TextBuffer, name: &BusName, counts: &BusCounts) -> Result<(), NoMemory>
    ensures { OnOk result
        (text_of text.new ≡ text_of text.old ++ bus_line name.now counts.now) }
{
    text.reserve(LINE)?;
    text.put_slice(b"bus ");
    text.put_slice(name.as_str().as_bytes());
    put_count(text, b" records ", counts.records);
    put_count(text, b" discarded ", counts.discarded);
    put_moment(text, b" first ", counts.first);
    put_moment(text, b" last ", counts.last);
    put_count(text, b" silence ", counts.silence);
    text.put_slice(b"\n");
    Ok(())
}

/// Appends the lines of flows, in their order, on buses with these names.
pub(crate) fn put_flows(
    text: &mut TextBuffer,
    names: &ShortList<BusName, 3>,
    flows: &FlowTable,
) -> Result<(), NoMemory>
    ensures { OnOk result (text_of text.new
        ≡ text_of text.old ++ flow_lines names.now (values_of flows.now.counts.entries)) }
{
    for (flow, counts) in flows.counts.values() {
        put_flow(text, names, flow, counts)?;
    }
    Ok(())
}

/// Appends the line of a flow.
fn put_flow(
    text: &mut TextBuffer,
    names: &ShortList<BusName, 3>,
    flow: &Flow,
    counts: &FlowCounts,
) -> Result<(), NoMemory>
    ensures { OnOk result
        (text_of text.new ≡ text_of text.old ++ flow_line names.now flow.now counts.now) }
{
    text.reserve(LINE)?;
    text.put_slice(b"port ");
    text.put_slice(kind_word(flow.kind));
    put_port(text, flow.port);
    put_sender(text, flow.sender);
    put_receiver(text, flow.destination);
    text.put_slice(b" ");
    text.put_slice(name_of(names, flow.bus));
    put_counts(text, counts);
    Ok(())
}

/// Appends what is counted of a flow, and the end of its line.
fn put_counts(text: &mut TextBuffer, counts: &FlowCounts)
    requires room { 512 ≤ room_of text.old }
    ensures { text_of text.new ≡ text_of text.old ++ 32 ∷ line_of (count_words counts.now) }
{
    let starts = &counts.starts;
    put_count(text, b" frames ", counts.frames);
    put_count(text, b" starts ", starts.count);
    put_count(text, b" copies ", starts.copies);
    put_count(text, b" gaps ", starts.gaps);
    put_count(text, b" bytes ", counts.bytes);
    put_number(text, b" every ", starts.waits.least);
    put_number(text, b" ", starts.waits.greatest);
    text.put_slice(b"\n");
}

/// Appends the last line.
pub(crate) fn put_end(
    text: &mut TextBuffer,
    records: u64,
    discarded: u64,
    nodes: u64,
) -> Result<(), NoMemory>
    ensures { OnOk result
        (text_of text.new ≡ text_of text.old ++ end_line records discarded nodes) }
{
    text.reserve(LINE)?;
    put_count(text, b"end records ", records);
    put_count(text, b" discarded ", discarded);
    put_count(text, b" nodes ", nodes);
    text.put_slice(b"\n");
    Ok(())
}

/// Appends a word and a number.
#[inline(always)]
fn put_count(text: &mut TextBuffer, word: &[u8], count: u64)
    requires short { length word.now ≤ 16 }
    requires room { 64 ≤ room_of text.old }
    ensures text { text_of text.new ≡ text_of text.old ++ (word.now ++ decimal count) }
    ensures room { room_of text.old ≤ room_of text.new + 40 }
{
    text.put_slice(word);
    text.put_number(count);
}

/// Appends a word, and a number or `-` where there is none.
#[inline(always)]
fn put_number(text: &mut TextBuffer, word: &[u8], number: Option<u64>)
    requires short { length word.now ≤ 16 }
    requires room { 64 ≤ room_of text.old }
    ensures text { text_of text.new ≡ text_of text.old ++ (word.now ++ number_or number) }
    ensures room { room_of text.old ≤ room_of text.new + 40 }
{
    match number {
        Some(number) => put_count(text, word, number),
        None => put_none(text, word),
    }
}

/// Appends a word, and a moment or `-` where there is none.
fn put_moment(text: &mut TextBuffer, word: &[u8], moment: Option<u64>)
    requires short { length word.now ≤ 16 }
    requires room { 64 ≤ room_of text.old }
    ensures text { text_of text.new ≡ text_of text.old ++ (word.now ++ moment_or moment) }
    ensures room { room_of text.old ≤ room_of text.new + 40 }
{
    match moment {
        Some(moment) => {
            text.put_slice(word);
            text.put_moment(moment);
        }
        None => put_none(text, word),
    }
}

/// Appends a word, and `-`.
#[inline(always)]
fn put_none(text: &mut TextBuffer, word: &[u8])
    requires short { length word.now ≤ 16 }
    requires room { 64 ≤ room_of text.old }
    ensures text { text_of text.new ≡ text_of text.old ++ (word.now ++ codes "-") }
    ensures room { room_of text.old ≤ room_of text.new + 40 }
{
    text.put_slice(word);
    text.put_slice(b"-");
}

/// Appends a space, and a port.
#[inline(always)]
fn put_port(text: &mut TextBuffer, port: u16)
    requires room { 64 ≤ room_of text.old }
    ensures text { text_of text.new ≡ text_of text.old ++ (32 ∷ decimal port) }
    ensures room { room_of text.old ≤ room_of text.new + 40 }
{
    put_count(text, b" ", u64::from(port));
}

/// Appends a space, and a sender.
#[inline(always)]
fn put_sender(text: &mut TextBuffer, sender: Sender)
    requires room { 64 ≤ room_of text.old }
    ensures text { text_of text.new ≡ text_of text.old ++ (32 ∷ sender_word sender) }
    ensures room { room_of text.old ≤ room_of text.new + 40 }
{
    match sender {
        Sender::Node(node) => put_count(text, b" ", u64::from(node)),
        Sender::Anonymous => put_none(text, b" "),
    }
}

/// Appends a space, and a receiver or `-` where there is none.
#[inline(always)]
fn put_receiver(text: &mut TextBuffer, receiver: Option<u8>)
    requires room { 64 ≤ room_of text.old }
    ensures text { text_of text.new ≡ text_of text.old ++ (32 ∷ number_or receiver) }
    ensures room { room_of text.old ≤ room_of text.new + 40 }
{
    match receiver {
        Some(node) => put_count(text, b" ", u64::from(node)),
        None => put_none(text, b" "),
    }
}

/// The word of what frames are for.
fn kind_word(kind: FlowKind) -> &'static [u8]
    ensures word { result.now ≡ kind_word kind }
    ensures short { length result.now ≡ 3 }
{
    match kind {
        FlowKind::Message => b"msg",
        FlowKind::Request => b"req",
        FlowKind::Response => b"res",
    }
}

/// The name of a bus, by its place.
fn name_of(names: &ShortList<BusName, 3>, bus: u8) -> &[u8]
    ensures name { result.now ≡ name_of names.now bus }
    ensures short { length result.now ≤ 15 }
{
    match names.get(bus as usize) {
        Some(name) => name.as_str().as_bytes(),
        None => b"",
    }
}
