ghost use Rattle.std.specs.Prelude.{◌≡◌, ◌<◌, ◌≤◌, ◌+◌, ◌++◌, OnOk, length};
ghost use Rattle.can_id.specs.Identifiers.{bits};
ghost use Rattle.log_text.specs.Written.{name_at};
ghost use Rattle.log_gen.specs.Rows.{source_of};
ghost use Rattle.line_text.specs.Buffer.{text_of};
ghost use Rattle.log_gen.specs.Rules.{bus_names, line_of, times};

use crate::row::Row;
use can_id::{Ident, make};
use cy_bits::NoMemory;
use line_text::TextBuffer;

/// Appends the line of a frame with these bytes so many times.
pub(crate) fn put_copies(
    text: &mut TextBuffer,
    row: Row,
    bytes: &[u8],
    count: u64,
) -> Result<(), NoMemory>
    requires transfer { row.transfer < 20000 }
    requires bus { row.bus < 3 }
    requires size { length bytes.now ≤ 8 }
    ensures { OnOk result
        (text_of text.new ≡ text_of text.old ++ times count (line_of row bytes.now)) }
{
    for _ in 0..count {
        put_line(text, row, bytes)?;
    }
    Ok(())
}

/// Appends the line of a frame with these bytes.
fn put_line(text: &mut TextBuffer, row: Row, bytes: &[u8]) -> Result<(), NoMemory>
    requires transfer { row.transfer < 20000 }
    requires bus { row.bus < 3 }
    requires size { length bytes.now ≤ 8 }
    ensures { OnOk result (text_of text.new ≡ text_of text.old ++ line_of row bytes.now) }
{
    text.reserve(128)?;
    text.put_slice(b"(");
    text.put_moment(1000 * row.transfer + 300 * u64::from(row.bus));
    text.put_slice(b") ");
    text.put_slice(name_of(row.bus));
    text.put_slice(b" ");
    text.put_ident(ident_of(row.transfer));
    text.put_slice(b"#");
    text.put_hex(bytes);
    text.put_slice(b"\n");
    Ok(())
}

/// The name of a bus.
fn name_of(bus: u8) -> &'static [u8]
    requires { bus < 3 }
    ensures value { result.now ≡ name_at bus_names bus }
    ensures size { length result.now ≡ 4 }
{
    match bus {
        0 => b"can0",
        1 => b"can1",
        _ => b"can2",
    }
}

/// The identifier of a transfer's frames.
fn ident_of(transfer: u64) -> u32
    ensures { result ≡ bits (Ident.Message 4 100 (source_of transfer + 1)) }
{
    make(Ident::Message {
        priority: 4,
        subject: 100,
        source: (transfer % 4) as u8 + 1,
    })
}
