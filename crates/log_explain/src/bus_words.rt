//! The names of buses in lines.
ghost use Rattle.std.specs.Prelude.{◌≡◌, map};
ghost use Rattle.log_explain.specs.Words.{bus_word};
ghost use Rattle.text_lines.specs.Words.{word_text};

use cy_bits::{BusName, ShortList};
use line_text::TextBuffer;
use text_lines::word::Word;

/// The names of buses, and the word of each in a line.
#[derive(Drop)]
pub struct BusWords {
    /// The names.
    pub names: ShortList<BusName, 3>,
    /// Each with a space on each side.
    words: ShortList<Word, 3>,
    ghost words_are: { map word_text words ≡ map bus_word names },
}

impl BusWords {
    ghost use Rattle.std.specs.Prelude.{◌≤◌, ◌+◌};
    ghost use Rattle.line_text.specs.Buffer.{Puts, room_of};
    ghost use Rattle.log_explain.specs.Text.{name_of};

    /// The words of buses with these names.
    pub fn new(names: ShortList<BusName, 3>) -> BusWords
        ensures { result.names ≡ names }
    {
        let words = words_of(&names);
        BusWords { names, words }
    }

    /// Puts the name of a bus behind a text, by its place, with a space on each side.
    #[inline(always)]
    pub fn put(&self, text: &mut TextBuffer, bus: u8)
        requires { 32 ≤ room_of text.old }
        ensures text { Puts (bus_word (name_of self.now.names bus)) text.old text.new }
        ensures room { room_of text.old ≤ room_of text.new + 32 }
    {
        match self.words.get(bus as usize) {
            Some(word) => word.put(text),
            None => text.put_slice(b"  "),
        }
    }
}

/// The words of buses with these names.
fn words_of(names: &ShortList<BusName, 3>) -> ShortList<Word, 3>
    ensures { map word_text result ≡ map bus_word names.now }
{
    let mut words = ShortList::new();
    for name in names.as_slice() {
        words.push(word_of(name));
    }
    words
}

/// The word of a bus with this name.
fn word_of(name: &BusName) -> Word
    ensures { word_text result ≡ bus_word name.now }
{
    let mut word = Word::new();
    word.push(b" ");
    word.push(name.as_str().as_bytes());
    word.push(b" ");
    word
}
