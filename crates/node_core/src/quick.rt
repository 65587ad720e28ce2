//! The quick way of a message: it comes from a source whose session is found without a search.
ghost use Rattle.std.specs.Prelude.{◌≡◌, ◌≢◌, ◌≤◌, None, Some, IfSome};
ghost use Rattle.std.specs.Bool.{OnFalse, OnTrue};
ghost use Rattle.can_id.specs.Identifiers.{key_of};
ghost use Rattle.tail_frame.specs.Frames.{frame_of, seen};
ghost use Rattle.rx_table.specs.Views.{place_in};
ghost use Rattle.rx_table.specs.declared.fed.Met.TheVariants as on_port;
ghost use Rattle.rx_table.specs.declared.fed.PortMet.TheVariants as on_session;
ghost use Rattle.node_core.specs.Came.{answer_in, met_lines, IsMetAs};
ghost use Rattle.node_core.specs.Keeps.{keeps};
ghost use Rattle.node_core.specs.Quick.{AsksNothing, IsLead, IsPlaced, IsUntyped, LeadsTo};
ghost use Rattle.node_core.specs.Quick.{lead_of, quick_is_bad, quick_lines, quick_met};
ghost use Rattle.node_core.specs.Stands.{FrameGives, FrameTellsBadCrc, Gives, KeepsSessions};
ghost use Rattle.node_core.specs.Stands.{StandsAsBefore, Takes, TakesFrame, TellsBadCrc};
ghost use Rattle.node_core.specs.Told.{answer_is_bad};
ghost use Rattle.report_lines.specs.Lent.{HasType, told_lines};
ghost use Rattle.node_core.specs.Types.{type_at};

use crate::fed::{line_on, untyped_line};
use crate::heard::subject_in;
use crate::node::Node;
use report_lines::LineRef;
use rx_session::Step;
use rx_table::{Met, PortMet, frame_for};
use tail_frame::{Frame, Record};

/// Where the identifier of a record leads, before the record is read as a frame.
#[derive(Clone, Copy, Debug, PartialEq, Eq)]
pub enum Lead {
    /// It is of a service.
    Service,
    /// It is of a subject that has no port.
    Nowhere,
    /// It is of the subject of the port at this place among those of the table.
    AtPort(usize),
}

/// A message that a node heard: its frame, the places of its port and of its session, and what that
/// made of it.
#[derive(Clone, Copy, Debug)]
pub struct Quick<'a> {
    /// The frame.
    pub frame: Frame<'a>,
    /// The place of its port among those of the table.
    pub place: usize,
    /// The place of its session among those of the port.
    pub index: usize,
    /// What the session made of it.
    pub step: Step,
}

impl Quick<'_> {
    /// The same as what a frame came to in a table.
    #[inline(always)]
    pub fn met(&self) -> Met
        ensures { result ≡ quick_met self.now }
    {
        Met::Port {
            place: self.place,
            met: PortMet::Session {
                index: self.index,
                step: self.step,
            },
        }
    }
}

impl Node {
    /// Where the identifier of a record leads.
    #[inline(always)]
    pub fn lead(&self, rec: &Record) -> Lead
        ensures value { result ≡ lead_of self.now rec.now }
        ensures leads { IsLead self.now rec.now result }
    {
        match subject_in(rec.ident) {
            None => Lead::Service,
            Some(subject) => match self.table.place(subject) {
                None => Lead::Nowhere,
                Some(place) => Lead::AtPort(place),
            },
        }
    }

    /// Takes the next record of the log, at a moment not before the last one, if it is a message
    /// of a source whose session is found without a search; its identifier leads to the port at
    /// this place. `None` says nothing, and leaves the sessions as they were.
    #[inline(always)]
    pub fn quick<'a>(&mut self, rec: &'a Record, place: usize) -> Option<Quick<'a>>
        requires latest { self.old.latest ≤ rec.now.moment }
        requires leads { LeadsTo self.old rec.now place }
        ensures plan { self.new.plan ≡ self.old.plan }
        ensures latest { self.new.latest ≤ rec.now.moment }
        ensures keeps { keeps self.new ≡ keeps self.old }
        ensures of { IfSome result (λ q. frame_of rec.now ≡ Some (seen q.frame)) }
        ensures stands { IfSome result (λ _. Takes rec.now self.old self.new) }
        ensures lines { IfSome result (λ q. Gives self.old rec.now (quick_lines self.new q)) }
        ensures badcrc { IfSome result (λ q.
            TellsBadCrc self.old rec.now (quick_is_bad self.new q)) }
        ensures met { IfSome result (λ q.
            IsMetAs self.old self.new (seen q.frame) (quick_met q)) }
        ensures asks { IfSome result (λ _. AsksNothing self.old rec.now) }
        ensures place { IfSome result (λ q. IsPlaced self.new q) }
        ensures none { result ≡ None → StandsAsBefore self.old self.new }
    {
        let frame = frame_for(self.plan.node, rec)?;
        let (index, step) = self.hear_at(place, &frame)?;
        Some(Quick {
            frame,
            place,
            index,
            step,
        })
    }

    /// Takes a frame that is for the node, on the port at this place.
    #[inline(always)]
    fn hear_at(&mut self, place: usize, frame: &Frame) -> Option<(usize, Step)>
        requires latest { self.old.latest ≤ frame.now.moment }
        requires place { let key = key_of frame.now.ident in
            place_in key.kind key.port self.old.table ≡ Some place }
        ensures plan { self.new.plan ≡ self.old.plan }
        ensures latest { self.new.latest ≤ frame.now.moment }
        ensures keeps { keeps self.new ≡ keeps self.old }
        ensures place { let key = key_of frame.now.ident in
            place_in key.kind key.port self.new.table ≡ Some place }
        ensures stands { IfSome result (λ _. TakesFrame (seen frame.now) self.old self.new) }
        ensures lines { let f = seen frame.now in IfSome result (λ p. FrameGives self.old f
            (met_lines self.new f (on_port.Port place (on_session.Session p.0 p.1)))) }
        ensures badcrc { let f = seen frame.now in IfSome result (λ p.
            FrameTellsBadCrc self.old f (answer_is_bad
            (answer_in self.new f (on_port.Port place (on_session.Session p.0 p.1))))) }
        ensures met { IfSome result (λ p. IsMetAs self.old self.new (seen frame.now)
            (on_port.Port place (on_session.Session p.0 p.1))) }
        ensures none { result ≡ None → KeepsSessions self.old self.new }
    {
        rx_table::laws::outcome_tells();
        let (index, step) = self.table.quick(place, frame)?;
        self.latest = frame.moment;
        Some((index, step))
    }

    /// Whether the port of a message that was heard last has no type.
    #[inline(always)]
    pub fn is_untyped(&self, quick: &Quick<'_>) -> bool
        requires { IsPlaced self.now quick.now }
        ensures untyped { let port_type = type_at self.now.table (key_of quick.now.frame.ident) in
            OnTrue result (port_type ≡ None) }
        ensures typed { let port_type = type_at self.now.table (key_of quick.now.frame.ident) in
            OnFalse result (port_type ≢ None) }
    {
        self.table.shape_on(quick.place).compiled().is_none()
    }

    /// The line on a frame that came to this in the table as the last one, if there is one.
    #[inline(always)]
    pub fn told_met<'a>(&'a self, frame: &Frame<'a>, met: Met) -> Option<LineRef<'a>>
        ensures line { told_lines result ≡ met_lines self.now (seen frame.now) met }
        ensures typed { IfSome result (HasType (type_at self.now.table)) }
    {
        line_on(&self.table, frame, self.table.lend(met, frame))
    }

    /// The line on a message that was heard last, if there is one, where its port has no type.
    #[inline(always)]
    pub fn told_untyped<'a>(&'a self, quick: &Quick<'a>) -> Option<LineRef<'a>>
        requires { type_at self.now.table (key_of quick.now.frame.ident) ≡ None }
        ensures line { told_lines result ≡ quick_lines self.now quick.now }
        ensures typed { IfSome result (HasType (type_at self.now.table)) }
        ensures untyped { IfSome result IsUntyped }
    {
        let fed = self.table.lend(quick.met(), &quick.frame);
        untyped_line(&quick.frame, fed)
    }
}
