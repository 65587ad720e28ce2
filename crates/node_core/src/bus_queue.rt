ghost use Rattle.std.specs.Prelude.{◌≡◌, ◌≤◌, true};
ghost use Rattle.node_core.specs.Queues.{is_frame_size};

use crate::transfer::Transfer;
use cy_bits::NoMemory;
use node_plan::BusPlan;
use report_lines::FullLine;
use std::alloc::Global;
use tx_queue::TxQueue;

/// The frames that wait to leave on a bus.
#[derive(Drop)]
pub struct BusQueue {
    /// The size of the bus's frames, 8 or 64 bytes.
    pub mtu: u8,
    /// How many frames leave after a step at most.
    pub rate: u32,
    /// The frames.
    pub frames: TxQueue,
    pub ghost size: { is_frame_size mtu ≡ true },
    pub ghost few: { frames.places ≤ 4096 },
}

impl BusQueue {
    ghost use Rattle.std.specs.Prelude.{◌<◌, ◌^◌, IfOk, length, map};
    ghost use Rattle.std.specs.Option.{option_to_list};
    ghost use Rattle.node_core.specs.Buses.{queue_of};
    ghost use Rattle.node_core.specs.Queues.{full_line, push};
    ghost use Rattle.node_core.specs.Steps.{empty_queue};
    ghost use Rattle.node_core.specs.Transfers.{sends_of};
    ghost use Rattle.node_plan.specs.IsPlan.{IsMtu};
    ghost use Rattle.report_lines.specs.declared.line.Line.TheVariants.{Full};

    /// Nothing waits on a bus, where so many frames may. Takes the memory for these.
    pub(crate) fn new(alloc: Global, bus: &BusPlan, places: u32) -> Result<BusQueue, NoMemory>
        requires mtu { IsMtu bus.now.mtu }
        requires few { places ≤ 4096 }
        ensures { IfOk result (λ queue. queue_of queue ≡ empty_queue places bus.now) }
    {
        Ok(BusQueue {
            mtu: bus.mtu,
            rate: bus.rate,
            frames: TxQueue::new(alloc, places)?,
        })
    }

    /// Puts the frames of a transfer behind those that wait: all of them, or none where fewer
    /// places are free. Then it tells so, with a moment and the number of the bus. Takes no memory.
    pub(crate) fn push(&mut self, moment: u64, bus: u8, transfer: &Transfer<'_>) -> Option<FullLine>
        requires tid { transfer.now.tid < 32 }
        requires len { length transfer.now.payload.now ≤ 2 ^ 40 }
        ensures queue { queue_of self.new ≡ push (sends_of transfer.now) (queue_of self.old) }
        ensures full { let x = sends_of transfer.now in
            map Full (option_to_list result) ≡ full_line moment bus x (queue_of self.old) }
    {
        let Transfer {
            ident,
            tid,
            payload,
            ..
        } = *transfer;
        match self.frames.push_transfer(ident, tid, payload, self.mtu) {
            Ok(()) => None,
            Err(full) => Some(FullLine {
                moment,
                bus,
                port: transfer.port,
                needed: full.needed,
                free: full.free,
            }),
        }
    }
}
