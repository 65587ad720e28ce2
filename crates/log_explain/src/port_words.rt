//! The numbers of ports in lines.
ghost use Rattle.std.specs.Prelude.{◌≡◌, ◌<◌, ◌++◌, ◌∷◌, [], decimal, length, map};
ghost use Rattle.log_explain.specs.Words.{numbers};
ghost use Rattle.text_lines.specs.Words.{block_text};

use cy_bits::NoMemory;
use line_text::TextBuffer;
use std::alloc::Global;
use text_lines::word::Word;

/// How many subjects there are.
const SUBJECTS: u16 = 8192;

/// The numbers of all subjects, and so those of all ports.
#[derive(Drop)]
pub struct PortWords {
    /// For each its number and a space; the last byte is the length of the two.
    blocks: Vec<[u8; 8]>,
    ghost blocks_are: { map block_text blocks.items ≡ numbers 0 (length blocks.items) },
}

impl PortWords {
    ghost use Rattle.std.specs.Prelude.{◌≤◌, ◌+◌};
    ghost use Rattle.line_text.specs.Buffer.{Puts, room_of};

    /// Takes memory for the numbers.
    pub fn new(alloc: Global) -> Result<PortWords, NoMemory> {
        let mut blocks = Vec::new(alloc);
        for subject in 0..SUBJECTS {
            blocks.push(block_of(subject))?;
        }
        Ok(PortWords { blocks })
    }

    /// Puts the number of a port and a space behind a text.
    #[inline(always)]
    pub fn put(&self, text: &mut TextBuffer, port: u16)
        requires { 32 ≤ room_of text.old }
        ensures text { Puts (decimal port ++ 32 ∷ []) text.old text.new }
        ensures room { room_of text.old ≤ room_of text.new + 21 }
    {
        match self.blocks.get(port as usize) {
            Some(block) => text.put(block, (block[7] as usize).min(8)),
            None => text.put_number_word(u64::from(port)),
        }
    }
}

/// The number of a subject and a space; the last byte is the length of the two.
fn block_of(subject: u16) -> [u8; 8]
    requires { subject < 8192 }
    ensures { block_text result ≡ decimal subject ++ 32 ∷ [] }
{
    let mut word = Word::new();
    word.push_number(u64::from(subject));
    word.push(b" ");
    word.block()
}
