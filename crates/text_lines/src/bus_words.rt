//! The names of buses in lines.
ghost use Rattle.std.specs.Prelude.{◌≡◌, ◌≤◌, length};
ghost use Rattle.text_lines.specs.Text.{bus_text, message_words};
ghost use Rattle.text_lines.specs.Words.{word_text};

use crate::word::Word;
use crate::words::kind_word;
use can_id::Kind;
use cy_bits::ShortList;
use itoa::Buffer;
use line_text::TextBuffer;
use node_plan::BusPlan;
use node_plan::buses::copy_of;

/// The buses of a plan, and the words of the last line on a message, which many lines in a row have
/// in common.
#[derive(Drop)]
pub struct BusWords {
    /// The buses.
    pub buses: ShortList<BusPlan, 3>,
    /// The bus of the last line on a message.
    bus: u8,
    /// The port of the last line on a message.
    port: u16,
    /// A space, the name of that bus, `msg` and that port, with a space behind each.
    word: Word,
    ghost word_is: { word_text word ≡ message_words buses bus port },
}

impl BusWords {
    ghost use Rattle.std.specs.Prelude.{◌+◌};
    ghost use Rattle.line_text.specs.Buffer.{Puts, room_of};
    ghost use Rattle.text_lines.specs.Text.{port_words};

    /// The words of these buses.
    pub fn new(buses: &ShortList<BusPlan, 3>) -> BusWords
        ensures { result.buses ≡ buses.now }
    {
        BusWords {
            buses: copy_of(buses),
            bus: 0,
            port: 0,
            word: message_words(buses, 0, 0),
        }
    }

    /// Puts the name of a bus, a kind and a port behind a text, with a space in front and one
    /// behind each.
    #[inline(always)]
    pub fn put(&mut self, text: &mut TextBuffer, bus: u8, kind: Kind, port: u16)
        requires { 128 ≤ room_of text.old }
        ensures buses { self.new.buses ≡ self.old.buses }
        ensures text { Puts (port_words self.old.buses bus kind port) text.old text.new }
        ensures room { room_of text.old ≤ room_of text.new + 64 }
    {
        match kind {
            Kind::Message => self.put_message(text, bus, port),
            Kind::Request => self.put_any(text, bus, kind, port),
            Kind::Response => self.put_any(text, bus, kind, port),
        }
    }

    /// The same of a message. Its words become those that are kept.
    #[inline(always)]
    fn put_message(&mut self, text: &mut TextBuffer, bus: u8, port: u16)
        requires { 64 ≤ room_of text.old }
        ensures buses { self.new.buses ≡ self.old.buses }
        ensures text { Puts (message_words self.old.buses bus port) text.old text.new }
        ensures room { room_of text.old ≤ room_of text.new + 32 }
    {
        if bus != self.bus || port != self.port {
            self.move_to(bus, port);
        }
        self.word.put(text);
    }

    /// Keeps the words of another bus and port.
    #[inline(never)]
    fn move_to(&mut self, bus: u8, port: u16)
        ensures buses { self.new.buses ≡ self.old.buses }
        ensures bus { self.new.bus ≡ bus }
        ensures port { self.new.port ≡ port }
    {
        let word = message_words(&self.buses, bus, port);
        self.word = word;
        self.bus = bus;
        self.port = port;
    }

    /// Puts the words of any transfer, without those that are kept.
    #[cold]
    #[inline(never)]
    fn put_any(&self, text: &mut TextBuffer, bus: u8, kind: Kind, port: u16)
        requires { 128 ≤ room_of text.old }
        ensures text { Puts (port_words self.now.buses bus kind port) text.old text.new }
        ensures room { room_of text.old ≤ room_of text.new + 64 }
    {
        text.put_slice(b" ");
        self.put_name(text, bus);
        text.put_slice(b" ");
        text.put_slice(kind_word(kind));
        text.put_number(port as u64);
        text.put_slice(b" ");
    }

    /// The name of a bus.
    pub fn name(&self, bus: u8) -> &[u8]
        ensures name { result.now ≡ bus_text self.now.buses bus }
        ensures length { length result.now ≤ 15 }
    {
        name_in(&self.buses, bus)
    }

    /// Puts the name of a bus behind a text.
    pub fn put_name(&self, text: &mut TextBuffer, bus: u8)
        requires { 16 ≤ room_of text.old }
        ensures text { Puts (bus_text self.now.buses bus) text.old text.new }
        ensures room { room_of text.old ≤ room_of text.new + 15 }
    {
        text.put_slice(name_in(&self.buses, bus));
    }
}

/// The name of the bus at a place of the plan.
fn name_in(buses: &ShortList<BusPlan, 3>, bus: u8) -> &[u8]
    ensures name { result.now ≡ bus_text buses.now bus }
    ensures length { length result.now ≤ 15 }
{
    match buses.get(bus as usize) {
        Some(plan) => plan.name.as_str().as_bytes(),
        None => &[],
    }
}

/// The words of a bus and a port in a line on a message.
fn message_words(buses: &ShortList<BusPlan, 3>, bus: u8, port: u16) -> Word
    ensures { word_text result ≡ message_words buses.now bus port }
{
    let mut word = Word::new();
    word.push(b" ");
    word.push(name_in(buses, bus));
    word.push(b" msg ");
    word.push(Buffer::new().format(port).as_bytes());
    word.push(b" ");
    word
}
