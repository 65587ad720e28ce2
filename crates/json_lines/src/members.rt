//! Members of lines that have room in a text.
ghost use Rattle.std.specs.Prelude.{◌≡◌, ◌≤◌, ◌+◌, ◌*◌, ◌++◌, decimal, length};
ghost use Rattle.line_text.specs.Buffer.{Puts, room_of};
ghost use Rattle.node_plan.specs.Buses.{bus_text};
ghost use Rattle.value_json.specs.Words.{quoted};
ghost use Rattle.json_lines.specs.Text.{error_text, key_members, node_members, payload_member};
ghost use Rattle.json_lines.specs.Text.{kind_front, place_text, received_members, source_json};
ghost use Rattle.json_lines.specs.Text.{transfer_members, why_name};

use can_id::{Key, Kind};
use cy_bits::ShortList;
use dsdl_types::ReadWhy;
use line_text::TextBuffer;
use node_plan::BusPlan;
use report_lines::{Numbers, RxRef};
use value_text::read_why_number;

/// Puts a label and a number.
#[inline(always)]
pub fn put_label(text: &mut TextBuffer, label: &[u8], number: u64)
    requires { length label.now + 24 ≤ room_of text.old }
    ensures text { Puts (label.now ++ decimal number) text.old text.new }
    ensures room { room_of text.old ≤ room_of text.new + length label.now + 20 }
{
    text.put_slice(label);
    text.put_number(number);
}

/// Puts what is in front of a moment, the moment and the name of a bus.
#[inline(always)]
pub fn put_place(
    text: &mut TextBuffer,
    front: &[u8],
    buses: &ShortList<BusPlan, 3>,
    moment: u64,
    bus: u8,
)
    requires { length front.now + 100 ≤ room_of text.old }
    ensures text { Puts (front.now ++ place_text buses.now moment bus) text.old text.new }
    ensures room { room_of text.old ≤ room_of text.new + length front.now + 45 }
{
    text.put_slice(front);
    text.put_moment(moment);
    text.put_slice(b",\"bus\":\"");
    put_bus(text, buses, bus);
    text.put_slice(b"\"");
}

/// Puts the name of a bus.
#[inline(always)]
fn put_bus(text: &mut TextBuffer, buses: &ShortList<BusPlan, 3>, bus: u8)
    requires { 16 ≤ room_of text.old }
    ensures text { Puts (bus_text buses.now bus) text.old text.new }
    ensures room { room_of text.old ≤ room_of text.new + 15 }
{
    if let Some(plan) = buses.get(bus as usize) {
        text.put_slice(plan.name.as_str().as_bytes());
    }
}

/// Puts a kind, a port and a sender.
#[inline(always)]
pub fn put_key(text: &mut TextBuffer, key: &Key)
    requires { 120 ≤ room_of text.old }
    ensures text { Puts (key_members key.now) text.old text.new }
    ensures room { room_of text.old ≤ room_of text.new + 73 }
{
    put_label(text, kind_front(key.kind), key.port as u64);
    text.put_slice(b",\"source\":");
    put_source(text, key.source);
}

/// What is in front of a port: a kind.
#[inline(always)]
fn kind_front(kind: Kind) -> &'static [u8]
    ensures text { result.now ≡ kind_front kind }
    ensures length { length result.now ≡ 21 }
{
    match kind {
        Kind::Message => b",\"kind\":\"msg\",\"port\":",
        Kind::Request => b",\"kind\":\"req\",\"port\":",
        Kind::Response => b",\"kind\":\"res\",\"port\":",
    }
}

/// Puts the sender, or null.
#[inline(always)]
fn put_source(text: &mut TextBuffer, source: Option<u8>)
    requires { 24 ≤ room_of text.old }
    ensures text { Puts (source_json source) text.old text.new }
    ensures room { room_of text.old ≤ room_of text.new + 20 }
{
    match source {
        Some(source) => text.put_number(source as u64),
        None => text.put_slice(b"null"),
    }
}

/// Puts priority, transfer-ID, and the lines of the first and the last frame.
#[inline(always)]
pub fn put_transfer(text: &mut TextBuffer, rx: &RxRef<'_>)
    requires { 160 ≤ room_of text.old }
    ensures text { let t = rx.now in
        Puts (transfer_members t.priority t.tid t.first t.last) text.old text.new }
    ensures room { room_of text.old ≤ room_of text.new + 124 }
{
    put_label(text, b",\"priority\":", rx.priority as u64);
    put_label(text, b",\"transfer_id\":", rx.tid as u64);
    put_label(text, b",\"first\":", rx.first);
    put_label(text, b",\"last\":", rx.last);
}

/// Puts a payload in hex.
#[inline(always)]
pub fn put_payload(text: &mut TextBuffer, payload: &[u8])
    requires { 2 * length payload.now + 32 ≤ room_of text.old }
    ensures text { Puts (payload_member payload.now) text.old text.new }
    ensures room { room_of text.old ≤ room_of text.new + 2 * length payload.now + 13 }
{
    text.put_slice(b",\"payload\":\"");
    text.put_hex(payload);
    text.put_slice(b"\"");
}

/// Puts why a payload can't be read.
pub fn put_error(text: &mut TextBuffer, path: &str, why: ReadWhy)
    requires { length path.now + 100 ≤ room_of text.old }
    ensures text { Puts (error_text path.now why) text.old text.new }
    ensures room { room_of text.old ≤ room_of text.new + length path.now + 64 }
{
    text.put_slice(b"{\"why\":\"");
    text.put_slice(why_name(why));
    put_label(text, b"\",\"number\":", read_why_number(why));
    text.put_slice(b",\"at\":\"");
    text.put_slice(path.as_bytes());
    text.put_slice(b"\"}");
}

/// The name of a cause.
fn why_name(why: ReadWhy) -> &'static [u8]
    ensures text { result.now ≡ why_name why }
    ensures short { length result.now ≤ 12 }
{
    match why {
        ReadWhy::BadTag(_) => b"BadTag",
        ReadWhy::BadLength(_) => b"BadLength",
        ReadWhy::BadDelimiter(_) => b"BadDelimiter",
    }
}

/// Puts how much was received.
pub fn put_received(text: &mut TextBuffer, numbers: &Numbers)
    requires { 200 ≤ room_of text.old }
    ensures text { Puts (received_members numbers.now) text.old text.new }
    ensures room { room_of text.old ≤ room_of text.new + 127 }
{
    put_label(text, b",\"records\":", numbers.records);
    put_label(text, b",\"delivered\":", numbers.delivered);
    put_label(text, b",\"badcrc\":", numbers.badcrc);
    put_label(text, b",\"nosession\":", numbers.nosession);
}

/// Puts how much was sent and held.
pub fn put_node(text: &mut TextBuffer, numbers: &Numbers)
    requires { 150 ≤ room_of text.old }
    ensures text { Puts (node_members numbers.now) text.old text.new }
    ensures room { room_of text.old ≤ room_of text.new + 85 }
{
    put_label(text, b",\"sent\":", numbers.sent);
    put_label(text, b",\"held\":", numbers.held);
    put_label(text, b",\"bound\":", numbers.bound);
}
