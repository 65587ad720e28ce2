//! The frames that wait to leave a node.
ghost use Rattle.std.specs.Prelude.{◌≡◌, ◌≤◌, ◌<◌, ◌+◌, ◌*◌, ◌^◌, ◌++◌, IfOk, length, map};
ghost use Rattle.std.specs.Option.{option_to_list};
ghost use Rattle.node_plan.specs.IsPlan.{IsPlan};
ghost use Rattle.node_core.specs.Buses.{queue_of};
ghost use Rattle.node_core.specs.Queues.{fulls_from, push, waiting};
ghost use Rattle.node_core.specs.Steps.{empty_queue};
ghost use Rattle.node_core.specs.Transfers.{sends_of};
ghost use Rattle.report_lines.specs.declared.line.Line.TheVariants.{Full};

use crate::bus_queue::BusQueue;
use crate::transfer::Transfer;
use cy_bits::{NoMemory, ShortList};
use node_plan::Plan;
use report_lines::FullLine;
use std::alloc::Global;
use tx_queue::OutFrame;

/// The lists of a node's buses, of which there are at most 3, and how many frames wait in all.
#[derive(Drop)]
pub struct BusQueues {
    /// The list of each bus, in the plan's order.
    pub buses: Vec<BusQueue>,
    queued: u64,
    pub ghost few: { length buses.items ≤ 3 },
    pub ghost total: { queued ≡ waiting (map queue_of buses.items) },
}

impl BusQueues {
    ghost use Rattle.node_core.specs.Pops.{queue_at, popped};
    ghost use Rattle.tx_queue.specs.Waiting.{leaving};

    /// Nothing waits on the buses of a plan. Takes the memory for all that may wait.
    pub(crate) fn new(alloc: Global, plan: &Plan) -> Result<BusQueues, NoMemory>
        requires { IsPlan plan.now }
        ensures { IfOk result (λ queues.
            map queue_of queues.buses.items ≡ map (empty_queue plan.now.queue) plan.now.buses) }
    {
        Ok(BusQueues {
            buses: empty_queues(alloc, plan)?,
            queued: 0,
        })
    }

    /// Puts the frames of a transfer behind those that wait on each bus. Tells on which there is no
    /// room.
    pub(crate) fn push_all(
        &mut self,
        moment: u64,
        transfer: &Transfer<'_>,
    ) -> ShortList<FullLine, 3>
        requires tid { transfer.now.tid < 32 }
        requires len { length transfer.now.payload.now ≤ 2 ^ 40 }
        ensures queues { let x = sends_of transfer.now in
            map queue_of self.new.buses.items ≡ map (push x) (map queue_of self.old.buses.items) }
        ensures fulls { let x = sends_of transfer.now in
            map Full result ≡ fulls_from moment 0 x (map queue_of self.old.buses.items) }
    {
        let fulls = push_on_each(self.buses.as_mut_slice(), moment, transfer);
        self.queued = count(self.buses.as_slice());
        fulls
    }

    /// Takes the first of the frames with the least identifier that wait on a bus.
    pub(crate) fn pop(&mut self, bus: u8) -> Option<OutFrame>
        requires { bus < length self.old.buses.items }
        ensures frame { let old = map queue_of self.old.buses.items in
            result ≡ leaving (queue_at old bus).waiting }
        ensures others { let old = map queue_of self.old.buses.items in
            map queue_of self.new.buses.items ≡ popped old bus }
    {
        let frame = self.buses[bus as usize].frames.pop();
        self.queued = count(self.buses.as_slice());
        frame
    }

    /// How many frames wait.
    #[inline(always)]
    pub fn waiting(&self) -> u64
        ensures { result ≡ waiting (map queue_of self.now.buses.items) }
    {
        self.queued
    }
}

/// Puts the frames of a transfer at the end of each of these lists. Tells in which there is no
/// room.
fn push_on_each(
    buses: &mut [BusQueue],
    moment: u64,
    transfer: &Transfer<'_>,
) -> ShortList<FullLine, 3>
    requires few { length buses.old ≤ 3 }
    requires tid { transfer.now.tid < 32 }
    requires len { length transfer.now.payload.now ≤ 2 ^ 40 }
    ensures queues { let x = sends_of transfer.now in
        map queue_of buses.new ≡ map (push x) (map queue_of buses.old) }
    ensures fulls { let x = sends_of transfer.now in
        map Full result ≡ fulls_from moment 0 x (map queue_of buses.old) }
{
    let mut fulls = ShortList::new();
    for (bus, queue) in buses.iter_mut().enumerate() {
        put(&mut fulls, queue.push(moment, bus as u8, transfer));
    }
    fulls
}

/// Puts a line behind others, if there is one.
fn put(fulls: &mut ShortList<FullLine, 3>, full: Option<FullLine>)
    requires { length fulls.old < 3 }
    ensures { fulls.new ≡ fulls.old ++ option_to_list full }
{
    if let Some(full) = full {
        fulls.push(full);
    }
}

/// How many frames wait in these lists.
fn count(buses: &[BusQueue]) -> u64
    requires { length buses.now ≤ 3 }
    ensures { result ≡ waiting (map queue_of buses.now) }
{
    let mut total = 0;
    for queue in buses {
        total += queue.frames.waiting.len() as u64;
    }
    total
}

/// A list for each bus of a plan.
fn empty_queues(alloc: Global, plan: &Plan) -> Result<Vec<BusQueue>, NoMemory>
    requires { IsPlan plan.now }
    ensures { IfOk result (λ buses.
        map queue_of buses.items ≡ map (empty_queue plan.now.queue) plan.now.buses) }
{
    let mut buses = Vec::new(alloc);
    for bus in plan.buses.as_slice() {
        buses.push(BusQueue::new(alloc, bus, plan.queue)?)?;
    }
    Ok(buses)
}
