//! A monitor that hears a log.
ghost use Rattle.std.specs.Prelude.{◌≡◌, ◌≤◌, ◌<◌, ◌+◌, ◌^◌, ◌++◌, [], IfOk, OnOk, refl};
ghost use Rattle.line_text.specs.Buffer.{text_of};
ghost use Rattle.tail_frame.specs.declared.logged.Record.{Record};
ghost use Rattle.node_reach.specs.Ears.{Hears};
ghost use Rattle.node_reach.specs.Monitored.{monitor_ears, monitor_voice, node_lines, state_in, state_line};
ghost use Rattle.node_reach.specs.Monitors.{Monitors, TakesRecord};

use crate::ear::{Ear, TIMEOUT};
use crate::lines::{put_end, put_estimate, put_node, put_offline};
use crate::network::Network;
use can_id::Kind;
use cy_bits::NoMemory;
use line_text::TextBuffer;
use log_loop::Listener;
use net_monitor::{NodeState, Renewal};
use std::alloc::Global;
use std_types::{StdName, ports};
use tail_frame::Record;

/// A monitor, and what it takes to hear a log.
#[derive(Drop)]
pub struct Monitoring {
    /// What it hears.
    pub ear: Ear,
    /// What it knows of the network.
    pub network: Network,
    /// How many records it heard.
    pub records: u64,
}

impl Monitoring {
    /// A monitor with this node-ID of its own that heard nothing yet. A number above 127 is no
    /// node's, so with it none is left out.
    pub(crate) fn new(alloc: Global, own: u8) -> Result<Monitoring, NoMemory>
        ensures own { IfOk result (λ it. it.ear.own ≡ own) }
        ensures monitors { IfOk result (λ it. Monitors own it []) }
        ensures latest { IfOk result (λ it. it.ear.latest ≡ 0) }
        ensures records { IfOk result (λ it. it.records ≡ 0) }
    {
        Ok(Monitoring {
            ear: listening(alloc, own)?,
            network: Network::new(alloc)?,
            records: 0,
        })
    }

    /// Hears the next record of a log, at a moment not before the last one, and tells what the
    /// heartbeat made of its node that ended there, if one did.
    pub(crate) fn take(&mut self, rec: &Record) -> Result<Option<Renewal>, NoMemory>
        requires moment { self.old.ear.latest ≤ rec.now.moment }
        requires moment_low { rec.now.moment < 10 ^ 18 }
        requires count { self.old.records < 2 ^ 28 }
        ensures takes { IfOk result (TakesRecord rec.now self.old self.new) }
        ensures own { self.new.ear.own ≡ self.old.ear.own }
        ensures latest { self.new.ear.latest ≡ rec.now.moment }
        ensures count { self.new.records ≤ self.old.records + 1 }
    {
        let heard = self.ear.hear(rec)?;
        let transfer = self.ear.transfer(heard);
        let renewal = self.network.hear(rec.moment, transfer)?;
        self.records += 1;
        Ok(renewal)
    }
}

/// An ear for heartbeats and messages of time.
fn listening(alloc: Global, own: u8) -> Result<Ear, NoMemory>
    ensures hears { IfOk result (λ ear. Hears (monitor_ears own) ear []) }
    ensures latest { IfOk result (λ ear. ear.latest ≡ 0) }
{
    let mut ear = Ear::new(alloc, own, TIMEOUT)?;
    ear.subscribe(alloc, Kind::Message, ports::HEARTBEAT, StdName::Heartbeat)?;
    ear.subscribe(
        alloc,
        Kind::Message,
        ports::SYNCHRONIZATION,
        StdName::Synchronization,
    )?;
    Ok(ear)
}

impl Listener for Monitoring {
    ghost event = { Record };

    ghost voice = { λ first. monitor_voice first.ear.own };

    ghost heard = { λ first now past. Monitors first.ear.own now past };

    ghost ended = { λ first now past. Monitors first.ear.own now past };

    ghost broke = { λ first now past. Unit {0} };

    ghost cut_short = { λ first now past. Unit {0} };

    ghost latest = { λ now. now.ear.latest };

    ghost count = { λ now. now.records };

    fn hear(&mut self, rec: &Record, _gathered: &mut TextBuffer) -> Result<(), NoMemory> {
        self.take(rec)?;
        Ok(())
    }

    fn finish(&mut self, gathered: &mut TextBuffer) -> Result<(), NoMemory> {
        let moment = self.ear.latest;
        let heard = self.network.monitor.heard();
        let online = self.network.monitor.online(moment);
        put_nodes(gathered, online.as_slice(), heard.as_slice())?;
        put_estimate(gathered, self.network.sync.estimate(moment))?;
        put_end(gathered, self.records, b"online", online.len() as u64)
    }

    ghost heard_broke = { λ first now past h. tt };

    ghost comes = { λ first rec past. record { event = rec; of = refl; may = tt } };
}

/// Gathers the lines of nodes, of which these are online.
fn put_nodes(gathered: &mut TextBuffer, online: &[NodeState], nodes: &[u8]) -> Result<(), NoMemory>
    ensures { OnOk result
        (text_of gathered.new ≡ text_of gathered.old ++ node_lines online.now nodes.now) }
{
    for node in nodes {
        put_state(gathered, online, *node)?;
    }
    Ok(())
}

/// Gathers the line of a node, of which these are online.
fn put_state(gathered: &mut TextBuffer, online: &[NodeState], node: u8) -> Result<(), NoMemory>
    ensures { OnOk result (text_of gathered.new
        ≡ text_of gathered.old ++ state_line node (state_in node online.now)) }
{
    match state_of(online, node) {
        Some(state) => put_node(gathered, &state),
        None => put_offline(gathered, node),
    }
}

/// How a node is among those online, if it is one of them.
fn state_of(online: &[NodeState], node: u8) -> Option<NodeState>
    ensures { result ≡ state_in node online.now }
{
    for state in online {
        if state.node == node {
            return Some(*state);
        }
    }
    None
}
