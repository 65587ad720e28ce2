//! Which frames a log has.
ghost use Rattle.std.specs.Prelude.{◌≡◌, ◌≤◌, ◌<◌, ◌++◌, [], List as ListOf, OnOk, IfOk, replicate};
ghost use Rattle.log_gen.specs.Rows.{frame_count, on_bus, on_buses, pairs_of, place_of, rows, source_of};
ghost use Rattle.log_gen.specs.Rules.{origin_by, payload_of, way_of};
ghost use Rattle.log_gen.specs.declared.row.Row.{Row};

use crate::payload::payload_of;
use crate::transfers::transfers;
use crate::way::way_of;
use cy_bits::{List, NoMemory};
use frag::{Pair, count};
use std::alloc::Global;

/// The pair of each frame of a source, by its number from 0 to 3, in the order of the log: the place of its transfer in
/// what the source sent, and its number in the transfer.
pub fn origin_by(alloc: Global, number: u32, source: u8) -> Result<List<Pair>, NoMemory>
    ensures { IfOk result (λ pairs. pairs ≡ origin_by number source) }
{
    let mut pairs = List::empty(alloc);
    push_transfers(&mut pairs, number, source, transfers())?;
    Ok(pairs)
}

/// Puts the pairs of a source's frames of the first transfers into an empty list.
fn push_transfers(
    pairs: &mut List<Pair>,
    number: u32,
    source: u8,
    count: u64,
) -> Result<(), NoMemory>
    requires few { count ≤ 20000 }
    requires empty { pairs.old ≡ [] }
    ensures { OnOk result
        (pairs.new ≡ pairs_of source (rows (payload_of number) (way_of number) count)) }
{
    for transfer in 0..count {
        if transfer % 4 == source as u64 {
            push_transfer(pairs, number, transfer)?;
        }
    }
    Ok(())
}

/// Puts the pairs of a transfer's frames on its three buses.
fn push_transfer(pairs: &mut List<Pair>, number: u32, transfer: u64) -> Result<(), NoMemory>
    requires { transfer < 20000 }
    ensures { OnOk result ((past : ListOf Row) → pairs.old ≡ pairs_of (source_of transfer) past
        → pairs.new ≡ pairs_of (source_of transfer)
        (on_buses (payload_of number) (way_of number) transfer 3 past)) }
{
    for bus in 0..3 {
        push_on_bus(pairs, number, transfer, bus)?;
    }
    Ok(())
}

/// Puts the pairs of a transfer's frames on a bus.
fn push_on_bus(pairs: &mut List<Pair>, number: u32, transfer: u64, bus: u8) -> Result<(), NoMemory>
    requires { transfer < 20000 }
    ensures { OnOk result ((past : ListOf Row) → pairs.old ≡ pairs_of (source_of transfer) past
        → let way = way_of number (place_of transfer) bus in
        let frames = frame_count (payload_of number) transfer in
        pairs.new ≡ pairs_of (source_of transfer) (on_bus way transfer bus frames past)) }
{
    let place = transfer / 4;
    let way = way_of(number, place, bus);
    let payload = payload_of(number, transfer);
    for frame in 0..count(payload.len() as u64, 8) {
        let pair = Pair { j: place, i: frame };
        push_copies(pairs, pair, way.copies(frame))?;
    }
    Ok(())
}

/// Puts a pair so many times.
fn push_copies(pairs: &mut List<Pair>, pair: Pair, count: u64) -> Result<(), NoMemory>
    ensures { OnOk result (pairs.new ≡ pairs.old ++ replicate count pair) }
{
    for _ in 0..count {
        pairs.push(pair)?;
    }
    Ok(())
}
