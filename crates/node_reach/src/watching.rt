//! A watch over the nodes of a log: who comes and goes, as it happens.
ghost use Rattle.std.specs.Prelude.{◌≡◌, ◌≤◌, ◌++◌, [], List, IfOk, OnOk, refl};
ghost use Rattle.line_text.specs.Buffer.{text_of};
ghost use Rattle.net_monitor.specs.Beats.{Beat};
ghost use Rattle.net_monitor.specs.Renewals.{IsCalm};
ghost use Rattle.net_monitor.specs.Stands.{Stands};
ghost use Rattle.tail_frame.specs.declared.logged.Record.{Record};
ghost use Rattle.node_reach.specs.ChangeLines.{change_lines};
ghost use Rattle.node_reach.specs.Watched.{nodes_voice};
ghost use Rattle.node_reach.specs.Watches.{Watches, TellsGone, changes_of, calm_with, count_with};

use crate::change_lines::{put_downs, put_nodes_end, put_renewal};
use crate::monitoring::Monitoring;
use cy_bits::NoMemory;
use line_text::TextBuffer;
use log_loop::Listener;
use net_monitor::Renewal;
use std::alloc::Global;
use tail_frame::Record;

/// A monitor whose news are told at once.
#[derive(Drop)]
pub struct Watching {
    /// The monitor. It has no node-ID of its own.
    pub monitoring: Monitoring,
    /// A moment in microseconds until which nobody goes offline, whatever is heard.
    pub calm: u64,
    /// How many restarts were told.
    pub restarts: u64,
}

/// A number that is no node's, so with it for its own a monitor leaves no node out.
const NOBODY: u8 = 128;

impl Watching {
    /// A watch that heard nothing yet.
    pub(crate) fn new(alloc: Global) -> Result<Watching, NoMemory>
        ensures watches { IfOk result (λ it. Watches it []) }
        ensures latest { IfOk result (λ it. it.monitoring.ear.latest ≡ 0) }
        ensures records { IfOk result (λ it. it.monitoring.records ≡ 0) }
    {
        Ok(Watching {
            monitoring: Monitoring::new(alloc, NOBODY)?,
            calm: u64::MAX,
            restarts: 0,
        })
    }

    /// Tells who goes offline until a moment that is not before the last record's.
    fn tell_gone(&mut self, moment: u64, gathered: &mut TextBuffer) -> Result<(), NoMemory>
        requires { self.old.monitoring.ear.latest ≤ moment }
        ensures monitoring { self.new.monitoring ≡ self.old.monitoring }
        ensures restarts { self.new.restarts ≡ self.old.restarts }
        ensures gone { let before = self.old.monitoring.ear.latest in
            OnOk result ((past : List Beat) → Stands past self.old.monitoring.network.monitor
            → IsCalm before self.old.calm past → TellsGone before moment self.new.calm past
            (text_of gathered.old) (text_of gathered.new)) }
    {
        if moment <= self.calm {
            return Ok(());
        }
        let before = self.monitoring.ear.latest;
        let gone = self.monitoring.network.monitor.gone(before, moment);
        self.calm = gone.calm;
        put_downs(gathered, moment, gone.nodes.as_slice())
    }

    /// Tells what a heartbeat made of its node, if there was one, at a record of this moment.
    fn tell_renewal(
        &mut self,
        moment: u64,
        renewal: Option<Renewal>,
        gathered: &mut TextBuffer,
    ) -> Result<(), NoMemory>
        ensures monitoring { self.new.monitoring ≡ self.old.monitoring }
        ensures calm { self.new.calm ≡ calm_with self.old.calm renewal }
        ensures restarts { self.new.restarts ≡ count_with self.old.restarts renewal }
        ensures text { OnOk result (text_of gathered.new
            ≡ text_of gathered.old ++ change_lines moment (changes_of moment renewal)) }
    {
        match renewal {
            Some(renewal) => {
                self.count(&renewal);
                put_renewal(gathered, moment, &renewal)
            }
            None => Ok(()),
        }
    }

    /// Keeps until when a node stays online, and counts it where it restarted.
    fn count(&mut self, renewal: &Renewal)
        ensures monitoring { self.new.monitoring ≡ self.old.monitoring }
        ensures calm { self.new.calm ≡ calm_with self.old.calm (Some renewal.now) }
        ensures restarts { self.new.restarts ≡ count_with self.old.restarts (Some renewal.now) }
    {
        self.calm = self.calm.min(renewal.state.online_until());
        if renewal.uptime_before().is_some() {
            self.restarts = self.restarts.saturating_add(1);
        }
    }
}

impl Listener for Watching {
    ghost event = { Record };

    ghost voice = { λ first. nodes_voice };

    ghost heard = { λ first now past. Watches now past };

    ghost ended = { λ first now past. Watches now past };

    ghost broke = { λ first now past. Unit {0} };

    ghost cut_short = { λ first now past. Unit {0} };

    ghost latest = { λ now. now.monitoring.ear.latest };

    ghost count = { λ now. now.monitoring.records };

    fn hear(&mut self, rec: &Record, gathered: &mut TextBuffer) -> Result<(), NoMemory> {
        self.tell_gone(rec.moment, gathered)?;
        let renewal = self.monitoring.take(rec)?;
        self.tell_renewal(rec.moment, renewal, gathered)
    }

    fn finish(&mut self, gathered: &mut TextBuffer) -> Result<(), NoMemory> {
        let heard = self.monitoring.network.monitor.heard();
        let nodes = heard.len() as u64;
        put_nodes_end(gathered, self.monitoring.records, nodes, self.restarts)
    }

    ghost heard_broke = { λ first now past h. tt };

    ghost comes = { λ first rec past. record { event = rec; of = refl; may = tt } };
}
