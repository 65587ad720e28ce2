//! A node whose frames are explained: the listener that tells why each came to what it did.
ghost use Rattle.std.specs.Prelude.{◌≡◌, ◌≤◌, ◌<◌, ◌+◌, ◌*◌, ◌^◌, [], refl, IfOk, OnOk, Some, None, length, replicate};
ghost use Rattle.can_id.specs.Identifiers.{IsIdent, key_of};
ghost use Rattle.can_id.specs.declared.key.Kind.{Kind as KindOf};
ghost use Rattle.tail_frame.specs.Frames.{discard_of, frame_of, seen};
ghost use Rattle.tail_frame.specs.declared.logged.Record.{Record};
ghost use Rattle.rx_table.specs.Views.{place_in, subscriptions};
ghost use Rattle.line_text.specs.Buffer.{room_of};
ghost use Rattle.node_core.specs.Heard.{IsElsewhere};
ghost use Rattle.node_core.specs.Quick.{IsLead, LeadsTo};
ghost use Rattle.node_core.specs.Shapes.{port_schema};
ghost use Rattle.node_core.specs.Stands.{Takes};
ghost use Rattle.log_explain.specs.Counts.{counts};
ghost use Rattle.log_explain.specs.Explained.{explain_voice};
ghost use Rattle.log_explain.specs.Explains.{Explains, Hears};

use crate::asked::{count, keep_hint, last_line, line_with, passing, place_by, sender_of, slot_on};
use crate::line::FrameLine;
use crate::line_writer::{LINE, LineWriter};
use crate::reasons::{Reason, reason_at, reason_of_frame};
use crate::session_line::put_end;
use crate::session_lines::{count_sessions, put_sessions};
use crate::tallies::{Tallies, slot_of};
use can_id::Ident;
use cy_bits::{BusName, NoMemory, ShortList};
use line_text::TextBuffer;
use log_loop::Listener;
use node_core::{Lead, Node};
use std::alloc::Global;
use tail_frame::{Discard, Frame, Record, frame_of, read_frame};

/// A node, and what is counted of the lines of its sessions.
#[derive(Drop)]
pub struct Explaining {
    /// Puts the lines on records together.
    pub writer: LineWriter,
    /// The node.
    pub node: Node,
    /// What is counted of each session.
    pub tallies: Tallies,
    /// How many records it heard.
    pub records: u64,
}

impl Explaining {
    /// A node that heard nothing yet, on buses with these names.
    pub(crate) fn new(
        alloc: Global,
        names: ShortList<BusName, 3>,
        node: Node,
    ) -> Result<Explaining, NoMemory>
        ensures names { IfOk result (λ now. now.writer.buses.names ≡ names) }
        ensures node { IfOk result (λ now. now.node ≡ node) }
        ensures counted { length node.table.ports.items ≤ 2 ^ 16 → IfOk result (λ now.
            now.tallies.by_slot.items
            ≡ replicate (length node.table.ports.items * 128) (counts [])) }
        ensures records { IfOk result (λ now. now.records ≡ 0) }
    {
        let tallies = Tallies::new(alloc, node.table.ports.len())?;
        let writer = LineWriter::new(alloc, names)?;
        Ok(Explaining {
            writer,
            node,
            tallies,
            records: 0,
        })
    }

    /// Hears a record that is on no port, if it is a frame: the node stays as it is.
    #[inline(never)]
    fn hear_nowhere(&mut self, rec: &Record, gathered: &mut TextBuffer)
        requires latest { self.old.node.latest ≤ rec.now.moment }
        requires few { self.old.records < 2 ^ 28 }
        requires room { 384 ≤ room_of gathered.old }
        requires nowhere { IsElsewhere (subscriptions port_schema self.old.node.table) rec.now }
        ensures heard { Hears rec.now self.old self.new gathered.old gathered.new }
        ensures latest { self.new.node.latest ≤ rec.now.moment }
        ensures count { self.new.records ≤ self.old.records + 1 }
    {
        if let Some(frame) = frame_of(rec) {
            if let Ident::Message { .. } = frame.ident {
                return self.pass_by(rec, &frame, gathered);
            }
        }
        self.hear_aside(rec, gathered);
    }

    /// The same of any record.
    #[inline(never)]
    fn hear_aside(&mut self, rec: &Record, gathered: &mut TextBuffer)
        requires latest { self.old.node.latest ≤ rec.now.moment }
        requires few { self.old.records < 2 ^ 28 }
        requires room { 384 ≤ room_of gathered.old }
        requires nowhere { IsElsewhere (subscriptions port_schema self.old.node.table) rec.now }
        ensures heard { Hears rec.now self.old self.new gathered.old gathered.new }
        ensures latest { self.new.node.latest ≤ rec.now.moment }
        ensures count { self.new.records ≤ self.old.records + 1 }
    {
        match read_frame(rec) {
            Ok(frame) => self.pass_by(rec, &frame, gathered),
            Err(why) => self.hear_none(rec, why, gathered),
        }
    }

    /// Hears a record that is no frame, by the first rule that it breaks.
    #[inline(always)]
    fn hear_none(&mut self, rec: &Record, why: Discard, gathered: &mut TextBuffer)
        requires latest { self.old.node.latest ≤ rec.now.moment }
        requires few { self.old.records < 2 ^ 28 }
        requires room { 384 ≤ room_of gathered.old }
        requires why { discard_of rec.now ≡ Some why }
        ensures heard { Hears rec.now self.old self.new gathered.old gathered.new }
        ensures latest { self.new.node.latest ≤ rec.now.moment }
        ensures count { self.new.records ≤ self.old.records + 1 }
    {
        let line = FrameLine {
            line: rec.line,
            moment: rec.moment,
            bus: rec.bus,
            transfer: None,
            reason: Reason::Discarded(why),
        };
        self.writer.put(gathered, &line);
        self.records += 1;
    }

    /// Hears a record that leads to the port at a place.
    #[inline(always)]
    fn hear_message(
        &mut self,
        place: usize,
        rec: &Record,
        gathered: &mut TextBuffer,
    ) -> Result<(), NoMemory>
        requires latest { self.old.node.latest ≤ rec.now.moment }
        requires few { self.old.records < 2 ^ 28 }
        requires room { 384 ≤ room_of gathered.old }
        requires leads { LeadsTo self.old.node rec.now place }
        ensures heard { OnOk result (Hears rec.now self.old self.new gathered.old gathered.new) }
        ensures latest { self.new.node.latest ≤ rec.now.moment }
        ensures count { self.new.records ≤ self.old.records + 1 }
    {
        if let Some(frame) = frame_of(rec) {
            if let Some(source) = sender_of(frame.ident, self.node.plan.node) {
                let slot = slot_of(place, source);
                let last = self.tallies.last_line(slot);
                let index = self.tallies.hint(slot);
                if let Some(reason) = reason_at(&self.node.table, place, index, &frame, last) {
                    take_message(&mut self.node, rec, place)?;
                    let line = line_with(&frame, reason);
                    self.tallies.add(slot, &line);
                    self.writer.put(gathered, &line);
                    self.records += 1;
                    return Ok(());
                }
            }
        }
        self.hear_by(Lead::AtPort(place), rec, gathered)
    }

    /// Hears a record that leads there.
    #[cold]
    #[inline(never)]
    fn hear_by(
        &mut self,
        lead: Lead,
        rec: &Record,
        gathered: &mut TextBuffer,
    ) -> Result<(), NoMemory>
        requires latest { self.old.node.latest ≤ rec.now.moment }
        requires few { self.old.records < 2 ^ 28 }
        requires room { 384 ≤ room_of gathered.old }
        requires lead { IsLead self.old.node rec.now lead }
        ensures heard { OnOk result (Hears rec.now self.old self.new gathered.old gathered.new) }
        ensures latest { self.new.node.latest ≤ rec.now.moment }
        ensures count { self.new.records ≤ self.old.records + 1 }
    {
        match frame_of(rec) {
            Some(frame) => match place_by(&self.node, lead, rec, &frame) {
                Some(place) => self.hear_at(place, rec, &frame, gathered),
                None => {
                    self.pass_by(rec, &frame, gathered);
                    Ok(())
                }
            },
            None => {
                self.hear_aside(rec, gathered);
                Ok(())
            }
        }
    }

    /// Hears a frame on no port.
    #[inline(always)]
    fn pass_by(&mut self, rec: &Record, frame: &Frame, gathered: &mut TextBuffer)
        requires latest { self.old.node.latest ≤ rec.now.moment }
        requires few { self.old.records < 2 ^ 28 }
        requires room { 384 ≤ room_of gathered.old }
        requires frame { frame_of rec.now ≡ Some (seen frame.now) }
        requires line { frame.now.line ≡ rec.now.line }
        requires moment { frame.now.moment ≡ rec.now.moment }
        requires bus { frame.now.bus ≡ rec.now.bus }
        requires ident { IsIdent frame.now.ident }
        requires nowhere { let key = key_of frame.now.ident in
            place_in key.kind key.port self.old.node.table ≡ None }
        ensures heard { Hears rec.now self.old self.new gathered.old gathered.new }
        ensures latest { self.new.node.latest ≤ rec.now.moment }
        ensures count { self.new.records ≤ self.old.records + 1 }
    {
        let line = line_with(frame, passing(self.node.plan.node, frame.ident));
        self.writer.put(gathered, &line);
        self.records += 1;
    }

    /// Hears a frame on the port at a place.
    #[inline(always)]
    fn hear_at(
        &mut self,
        place: usize,
        rec: &Record,
        frame: &Frame,
        gathered: &mut TextBuffer,
    ) -> Result<(), NoMemory>
        requires latest { self.old.node.latest ≤ rec.now.moment }
        requires few { self.old.records < 2 ^ 28 }
        requires room { 384 ≤ room_of gathered.old }
        requires frame { frame_of rec.now ≡ Some (seen frame.now) }
        requires line { frame.now.line ≡ rec.now.line }
        requires moment { frame.now.moment ≡ rec.now.moment }
        requires bus { frame.now.bus ≡ rec.now.bus }
        requires ident { IsIdent frame.now.ident }
        requires place { let key = key_of frame.now.ident in
            place_in key.kind key.port self.old.node.table ≡ Some place }
        ensures heard { OnOk result (Hears rec.now self.old self.new gathered.old gathered.new) }
        ensures latest { self.new.node.latest ≤ rec.now.moment }
        ensures count { self.new.records ≤ self.old.records + 1 }
    {
        let key = frame.ident.key();
        let slot = slot_on(place, key.source);
        let last = last_line(&self.tallies, slot);
        let reason = reason_of_frame(&self.node.table, self.node.plan.node, frame, last);
        take(&mut self.node, rec)?;
        keep_hint(&self.node, place, key.source, &mut self.tallies);
        let line = line_with(frame, reason);
        count(&mut self.tallies, slot, &line);
        self.writer.put(gathered, &line);
        self.records += 1;
        Ok(())
    }
}

/// Lets a node take a record that leads to the port at a place.
#[inline(always)]
fn take_message(node: &mut Node, rec: &Record, place: usize) -> Result<(), NoMemory>
    requires latest { node.old.latest ≤ rec.now.moment }
    requires leads { LeadsTo node.old rec.now place }
    ensures plan { node.new.plan ≡ node.old.plan }
    ensures latest { node.new.latest ≤ rec.now.moment }
    ensures takes { OnOk result (Takes rec.now node.old node.new) }
{
    match node.quick(rec, place) {
        Some(_) => Ok(()),
        None => take(node, rec),
    }
}

/// Lets a node take a record.
#[inline(never)]
fn take(node: &mut Node, rec: &Record) -> Result<(), NoMemory>
    requires latest { node.old.latest ≤ rec.now.moment }
    ensures plan { node.new.plan ≡ node.old.plan }
    ensures latest { node.new.latest ≤ rec.now.moment }
    ensures takes { OnOk result (Takes rec.now node.old node.new) }
{
    node.step(rec)?;
    Ok(())
}

impl Listener for Explaining {
    ghost event = { Record };

    ghost voice = { λ first. explain_voice first.node.plan };

    ghost heard = { λ first now past. Explains first.node.plan now past };

    ghost ended = { λ first now past. Unit {0} };

    ghost broke = { λ first now past. Unit {0} };

    ghost cut_short = { λ first now past. Unit {0} };

    ghost latest = { λ now. now.node.latest };

    ghost count = { λ now. now.records };

    #[inline(always)]
    fn hear(&mut self, rec: &Record, gathered: &mut TextBuffer) -> Result<(), NoMemory> {
        gathered.reserve(LINE)?;
        match self.node.lead(rec) {
            Lead::Nowhere => {
                self.hear_nowhere(rec, gathered);
                Ok(())
            }
            Lead::AtPort(place) => self.hear_message(place, rec, gathered),
            Lead::Service => self.hear_by(Lead::Service, rec, gathered),
        }
    }

    fn finish(&mut self, gathered: &mut TextBuffer) -> Result<(), NoMemory> {
        let buses = &self.writer.buses;
        put_sessions(gathered, &buses.names, &self.node.table, &self.tallies)?;
        put_end(gathered, self.records, count_sessions(&self.node.table))
    }

    ghost heard_broke = { λ first now past h. tt };

    ghost comes = { λ first rec past. record { event = rec; of = refl; may = tt } };
}
