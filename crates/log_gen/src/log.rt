ghost use Rattle.std.specs.Prelude.{◌≡◌, ◌<◌, ◌≤◌, [], List, OnOk, IfOk};
ghost use Rattle.line_text.specs.Buffer.{text_of};
ghost use Rattle.log_gen.specs.Rows.{frame_count, on_bus, on_buses, place_of, rows};
ghost use Rattle.log_gen.specs.Rules.{log_text, payload_of, text_of_rows, way_of};
ghost use Rattle.log_gen.specs.declared.row.Row.{Row};

use crate::line::put_copies;
use crate::payload::payload_of;
use crate::row::Row;
use crate::transfers::transfers;
use crate::way::way_of;
use cy_bits::{Bytes, NoMemory};
use frag::Frames;
use line_text::TextBuffer;
use std::alloc::Global;

/// The log of a number.
pub fn log_bytes(alloc: Global, number: u32) -> Result<Bytes, NoMemory>
    ensures { IfOk result (λ log. log ≡ log_text number) }
{
    let mut text = TextBuffer::new(alloc);
    put_transfers(&mut text, number, transfers())?;
    Bytes::from_slice(alloc, text.as_slice())
}

/// Puts the first transfers into an empty log.
fn put_transfers(text: &mut TextBuffer, number: u32, count: u64) -> Result<(), NoMemory>
    requires few { count ≤ 20000 }
    requires empty { text_of text.old ≡ [] }
    ensures { OnOk result
        (text_of text.new ≡ text_of_rows number (rows (payload_of number) (way_of number) count)) }
{
    for transfer in 0..count {
        put_transfer(text, number, transfer)?;
    }
    Ok(())
}

/// Puts a transfer on each of its three buses.
fn put_transfer(text: &mut TextBuffer, number: u32, transfer: u64) -> Result<(), NoMemory>
    requires { transfer < 20000 }
    ensures { OnOk result ((past : List Row) → text_of text.old ≡ text_of_rows number past
        → text_of text.new
        ≡ text_of_rows number (on_buses (payload_of number) (way_of number) transfer 3 past)) }
{
    for bus in 0..3 {
        put_on_bus(text, number, transfer, bus)?;
    }
    Ok(())
}

/// Puts a transfer on a bus, as it stands there.
fn put_on_bus(text: &mut TextBuffer, number: u32, transfer: u64, bus: u8) -> Result<(), NoMemory>
    requires transfer { transfer < 20000 }
    requires bus { bus < 3 }
    ensures { OnOk result ((past : List Row) → text_of text.old ≡ text_of_rows number past
        → let way = way_of number (place_of transfer) bus in
        let count = frame_count (payload_of number) transfer in
        text_of text.new ≡ text_of_rows number (on_bus way transfer bus count past)) }
{
    let place = transfer / 4;
    let way = way_of(number, place, bus);
    let payload = payload_of(number, transfer);
    let mut frame = 0;
    for bytes in Frames::new(payload.as_slice(), (place % 32) as u8, 8) {
        let row = Row {
            transfer,
            bus,
            frame,
        };
        put_copies(text, row, bytes.as_slice(), way.copies(frame))?;
        frame += 1;
    }
    Ok(())
}
