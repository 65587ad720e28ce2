//! The line on a frame that left a node, by itself.
ghost use Rattle.std.specs.Prelude.{◌≡◌, IfOk};
ghost use Rattle.line_text.specs.TxLine.{tx_text};

use crate::words::LINE;
use cy_bits::{NoMemory, Text};
use line_text::TextBuffer;
use report_lines::Tx;
use std::alloc::Global;

/// The line on a frame that left a node on a bus of this name, as a report has it, with its newline:
/// `tx`, the moment in seconds, the bus, the identifier and the data in hex.
pub fn tx_text(alloc: Global, tx: &Tx, bus: &str) -> Result<Text, NoMemory>
    ensures { let tx = tx.now in
        IfOk result (λ text. text ≡ tx_text tx.moment bus.now tx.ident tx.bytes) }
{
    let mut line = TextBuffer::new(alloc);
    line.reserve(LINE + bus.len())?;
    line.put_tx(tx.moment, bus.as_bytes(), tx.ident, tx.bytes.as_slice());
    let text = std::str::from_utf8(line.as_slice()).unwrap();
    Text::from_str(alloc, text)
}
