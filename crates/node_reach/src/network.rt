//! What is known of a network by its heartbeats and its messages of time.
ghost use Rattle.std.specs.Prelude.{◌≡◌, ◌<◌, ◌≤◌, ◌^◌};

use crate::transfer::Transfer;
use cy_bits::NoMemory;
use dsdl_types::Value;
use net_monitor::{Monitor, Renewal};
use std::alloc::Global;
use std_types::node::Heartbeat;
use std_types::time::Synchronization;
use std_types::{Standard, StdName, StdType, ports, std_type};
use time_sync::Sync;
use wire_values::payload_value;

/// How many stamps there are.
const STAMPS: u64 = 1 << 56;

/// Who is online, and the network's time.
#[derive(Drop)]
pub struct Network {
    alloc: Global,
    /// What the heartbeats say.
    pub monitor: Monitor,
    /// What the messages of time say.
    pub sync: Sync,
    /// The moment of the last heartbeat, in microseconds, or 0.
    pub latest_beat: u64,
    /// The moment of the last message of time, in microseconds, or 0.
    pub latest_message: u64,
    /// The type of heartbeats.
    pub beat_type: StdType,
    /// The type of messages of time.
    pub message_type: StdType,
    ghost beats: { monitor.latest ≡ latest_beat },
    ghost messages: { sync.latest ≡ latest_message },
    ghost low: { latest_message < 10 ^ 18 },
}

impl Network {
    ghost use Rattle.std.specs.Prelude.{[], Some, IfOk, IfSome, OnOk, option_map};
    ghost use Rattle.node_reach.specs.Told.{owned};
    ghost use Rattle.node_reach.specs.Monitors.{Knows, Learns, LearnsBeat, LearnsMessage};

    /// A network of which nothing is known.
    pub(crate) fn new(alloc: Global) -> Result<Network, NoMemory>
        ensures knows { IfOk result (λ network. Knows network [] []) }
    {
        let beat_type = std_type(alloc, StdName::Heartbeat)?;
        let message_type = std_type(alloc, StdName::Synchronization)?;
        Ok(Network {
            alloc,
            monitor: Monitor::new(),
            sync: Sync::new(),
            latest_beat: 0,
            latest_message: 0,
            beat_type,
            message_type,
        })
    }

    /// Hears a record of this moment, at which a transfer may have ended, and tells what it made of
    /// its node where it is a heartbeat.
    pub(crate) fn hear(
        &mut self,
        moment: u64,
        transfer: Option<Transfer<'_>>,
    ) -> Result<Option<Renewal>, NoMemory>
        requires moment { moment < 10 ^ 18 }
        requires source { IfSome transfer (λ t. t.source < 128) }
        ensures learns { let t = option_map owned transfer.entry in
            IfOk result (Learns moment t self.old self.new) }
    {
        match transfer {
            Some(transfer) => self.take(moment, transfer),
            None => Ok(None),
        }
    }

    /// Takes a transfer that ended at a moment, if it is a heartbeat or a message of time.
    fn take(&mut self, moment: u64, transfer: Transfer<'_>) -> Result<Option<Renewal>, NoMemory>
        requires moment { moment < 10 ^ 18 }
        requires source { transfer.source < 128 }
        ensures learns { let t = Some (owned transfer.entry) in
            IfOk result (Learns moment t self.old self.new) }
    {
        match transfer.port {
            ports::HEARTBEAT => self.take_beat(transfer),
            ports::SYNCHRONIZATION => {
                self.take_message(moment, transfer)?;
                Ok(None)
            }
            _ => Ok(None),
        }
    }

    /// Takes the payload of a transfer as a heartbeat, if it can be read, and tells what that made
    /// of its node.
    fn take_beat(&mut self, transfer: Transfer<'_>) -> Result<Option<Renewal>, NoMemory>
        requires source { transfer.source < 128 }
        ensures learns { IfOk result (LearnsBeat (owned transfer.entry) self.old self.new) }
    {
        let Some(value) = payload_value(self.alloc, &self.beat_type.schema, transfer.payload)?
        else {
            return Ok(None);
        };
        let beat = Heartbeat::of_value(self.alloc, &value)?;
        let latest = self.latest_beat.max(transfer.moment);
        let renewal = self.monitor.event(latest, transfer.source, &beat);
        self.latest_beat = latest;
        Ok(Some(renewal))
    }

    /// Takes the payload of a transfer that ended at a moment as a message of time, if it can be
    /// read.
    fn take_message(&mut self, moment: u64, transfer: Transfer<'_>) -> Result<(), NoMemory>
        requires moment { moment < 10 ^ 18 }
        requires source { transfer.source < 128 }
        ensures learns { let t = owned transfer.entry in
            OnOk result (LearnsMessage moment t self.old self.new) }
    {
        let Some(value) = payload_value(self.alloc, &self.message_type.schema, transfer.payload)?
        else {
            return Ok(());
        };
        let message = Synchronization::of_value(self.alloc, &value)?;
        // These change no number: a transfer begins no later than it ends, its transfer-ID is at
        // most 31, and the stamp has 56 bits.
        let began = transfer.moment.min(moment);
        let tid = transfer.tid % 32;
        let stamp = message.previous_transmission_timestamp_microsecond % STAMPS;
        let latest = self.latest_message.max(began);
        self.sync.hear(latest, transfer.source, tid, stamp);
        self.latest_message = latest;
        Ok(())
    }
}
