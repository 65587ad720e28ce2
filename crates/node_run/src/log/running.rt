//! A node that runs: the listener that reports what it hears and what it sends.
ghost use Rattle.std.specs.Prelude.{◌≡◌, ◌≤◌, ◌<◌, ◌+◌, ◌*◌, ◌^◌, ◌∷◌, [], ℕ};
ghost use Rattle.std.specs.Prelude.{OnErr, OnOk, None, Some};
ghost use Rattle.std.specs.Option.{ForSome};
ghost use Rattle.line_text.specs.Buffer.{text_of};
ghost use Rattle.rx_table.specs.Views.{subscriptions};
ghost use Rattle.node_core.specs.Heard.{IsElsewhere};
ghost use Rattle.node_core.specs.Keeps.{keeps};
ghost use Rattle.node_core.specs.Quick.{LeadsTo};
ghost use Rattle.node_core.specs.Shapes.{port_schema};
ghost use Rattle.node_core.specs.Sending.{IsRequestTo};
ghost use Rattle.node_core.specs.Steps.{Tick, ticks_from};
ghost use Rattle.node_run.specs.Goes.{BreaksOff, GoesOn, IsFrom, IsLast};
ghost use Rattle.node_run.specs.Goes.{begun_next, last_tick, latest_of, next_behind, state_in};
ghost use Rattle.node_run.specs.Goes.{ticks_due, ticks_left};
ghost use Rattle.node_run.specs.Follows.{IsFollowed, request_ended};
ghost use Rattle.node_run.specs.Hears.{Said};
ghost use Rattle.node_run.specs.Listens.{AsksNone, BreaksOn, HasTaken, IsOver, failures_in, views};
ghost use Rattle.node_run.specs.Listens.{HasBrokenOff, HasEndedBehind, HasHeardAll, IsCutShort};
ghost use Rattle.node_run.specs.Listens.{OfBroken, OfSaid, some_said, unbroken_said, voice_of};
ghost use Rattle.node_core.proofs.Served.{something_served};

use crate::log::clock::Clock;
use crate::log::report_writer::ReportWriter;
use crate::log::sending::{empty, send};
use crate::log::tally::{Seen, Tally};
use crate::log::telling::{tell, tell_failed, tell_quick};
use cy_bits::{NoMemory, ShortList};
use cy_outside::Tree;
use line_text::TextBuffer;
use log_loop::Listener;
use node_core::{Came, Lead, LineSink, Node, Numbers, Request};
use tail_frame::Record;

/// A node, the numbers of its run, and where its lines go.
#[derive(Drop)]
pub struct Running<'a, 'w, W, K, T> {
    /// The node.
    pub node: &'a mut Node,
    /// When it ticks.
    pub clock: Clock,
    /// What puts the text of lines together.
    pub writer: &'w mut W,
    /// The numbers of the steps.
    pub tally: Tally,
    /// How many frames were sent in all, once the last line is said.
    pub sent: u64,
    /// Where the lines go.
    pub lines: &'a mut K,
    /// The tree whose files are served.
    pub tree: &'a mut T,
}

impl<'a, 'w, W: ReportWriter, K: LineSink, T: Tree> Listener for Running<'a, 'w, W, K, T> {
    ghost event = { Said };

    ghost voice = { λ first.
        voice_of (views W.style K.lines K.failed T.files T.faults T.calls) first };

    ghost heard = { λ first now past.
        OfSaid (HasHeardAll (views W.style K.lines K.failed T.files T.faults T.calls)
        first now) past };

    ghost ended = { λ first now past.
        OfSaid (HasEndedBehind (views W.style K.lines K.failed T.files T.faults T.calls)
        first now) past };

    ghost broke = { λ first now past.
        OfBroken (HasBrokenOff (views W.style K.lines K.failed T.files T.faults T.calls)
        first now) past };

    ghost cut_short = { λ first now past.
        OfSaid (IsCutShort (views W.style K.lines K.failed T.files T.faults T.calls)
        first now) past };

    ghost latest = { λ run. latest_of run.node.now run.clock };

    ghost count = { λ run. run.tally.numbers.records };

    /// The ticks up to the record, and its step. The text of all of them is gathered before any of
    /// it is written, that of 100,000 ticks too where records are so far apart.
    #[inline(always)]
    fn hear(&mut self, rec: &Record, gathered: &mut TextBuffer) -> Result<(), NoMemory> {
        self.tick_up_to(rec.moment, gathered)?;
        self.take(rec, gathered)
    }

    /// What still waits leaves, and then the last line comes.
    fn finish(&mut self, gathered: &mut TextBuffer) -> Result<(), NoMemory> {
        let emptied = empty(
            self.node,
            self.clock.last,
            self.writer,
            self.lines,
            gathered,
        )?;
        let sent = self.tally.numbers.sent.saturating_add(emptied);
        let numbers = Numbers {
            sent,
            ..self.tally.numbers
        };
        self.writer.push_end(gathered, &numbers)?;
        self.sent = sent;
        Ok(())
    }

    ghost heard_broke = { λ first now past h.
        unbroken_said (views W.style K.lines K.failed T.files T.faults T.calls) first now past h };

    ghost comes = { λ first rec past.
        some_said something_served (W.style first.writer.now) (T.files first.tree.now)
        first.node.now.plan rec past };
}

impl<'a, 'w, W: ReportWriter, K: LineSink, T: Tree> Running<'a, 'w, W, K, T> {
    /// The step of a record. A message of a source whose session is found without a search, and a
    /// record on no port of the plan, go the quick way.
    #[inline(always)]
    fn take(&mut self, rec: &Record, gathered: &mut TextBuffer) -> Result<(), NoMemory>
        requires moment { self.old.node.now.latest ≤ rec.now.moment }
        requires few { self.old.tally.numbers.records < 2 ^ 28 }
        ensures over { IsOver W.style T.files self.old self.new }
        ensures latest { self.new.node.now.latest ≤ rec.now.moment }
        ensures count { self.new.tally.numbers.records ≤ self.old.tally.numbers.records + 1 }
        ensures number { self.new.clock.number ≡ self.old.clock.number }
        ensures next { self.new.clock.next ≡ self.old.clock.next }
        ensures last { let qs = (keeps self.new.node.now).queues in
            OnOk result (IsLast rec.now.moment qs self.new.clock.last) }
        ensures ok { let f = failures_in K.failed T.faults T.calls self.old self.new in
            OnOk result (HasTaken (T.files self.old.tree.now) rec.now
            (state_in W.style K.lines self.old) (state_in W.style K.lines self.new)
            (text_of gathered.old) (text_of gathered.new) f) }
        ensures err { let f = failures_in K.failed T.faults T.calls self.old self.new in
            OnErr result (BreaksOn (T.files self.old.tree.now) rec.now
            (state_in W.style K.lines self.old) (state_in W.style K.lines self.new) f) }
    {
        match self.node.lead(rec) {
            Lead::Service => self.take_any(rec, gathered),
            Lead::Nowhere => self.pass_by(rec, gathered),
            Lead::AtPort(place) => self.take_at(rec, place, gathered),
        }
    }

    /// The step of a record on no port of the plan.
    #[inline(always)]
    fn pass_by(&mut self, rec: &Record, gathered: &mut TextBuffer) -> Result<(), NoMemory>
        requires elsewhere { let table = self.old.node.now.table in
            IsElsewhere (subscriptions port_schema table) rec.now }
        requires moment { self.old.node.now.latest ≤ rec.now.moment }
        requires few { self.old.tally.numbers.records < 2 ^ 28 }
        ensures over { IsOver W.style T.files self.old self.new }
        ensures latest { self.new.node.now.latest ≤ rec.now.moment }
        ensures count { self.new.tally.numbers.records ≤ self.old.tally.numbers.records + 1 }
        ensures number { self.new.clock.number ≡ self.old.clock.number }
        ensures next { self.new.clock.next ≡ self.old.clock.next }
        ensures last { let qs = (keeps self.new.node.now).queues in
            OnOk result (IsLast rec.now.moment qs self.new.clock.last) }
        ensures ok { let f = failures_in K.failed T.faults T.calls self.old self.new in
            OnOk result (HasTaken (T.files self.old.tree.now) rec.now
            (state_in W.style K.lines self.old) (state_in W.style K.lines self.new)
            (text_of gathered.old) (text_of gathered.new) f) }
        ensures err { let f = failures_in K.failed T.faults T.calls self.old self.new in
            OnErr result (BreaksOn (T.files self.old.tree.now) rec.now
            (state_in W.style K.lines self.old) (state_in W.style K.lines self.new) f) }
    {
        let seen = Seen::of(None, false);
        self.leave(rec, gathered)?;
        self.tally.count(seen, self.node.held());
        Ok(())
    }

    /// The step of a record whose identifier leads to the port at a place. Each kind of run calls it in
    /// one place alone, so it is put there without a mark; a mark would be dropped, since it is large.
    fn take_at(
        &mut self,
        rec: &Record,
        place: usize,
        gathered: &mut TextBuffer,
    ) -> Result<(), NoMemory>
        requires leads { LeadsTo self.old.node.now rec.now place }
        requires moment { self.old.node.now.latest ≤ rec.now.moment }
        requires few { self.old.tally.numbers.records < 2 ^ 28 }
        ensures over { IsOver W.style T.files self.old self.new }
        ensures latest { self.new.node.now.latest ≤ rec.now.moment }
        ensures count { self.new.tally.numbers.records ≤ self.old.tally.numbers.records + 1 }
        ensures number { self.new.clock.number ≡ self.old.clock.number }
        ensures next { self.new.clock.next ≡ self.old.clock.next }
        ensures last { let qs = (keeps self.new.node.now).queues in
            OnOk result (IsLast rec.now.moment qs self.new.clock.last) }
        ensures ok { let f = failures_in K.failed T.faults T.calls self.old self.new in
            OnOk result (HasTaken (T.files self.old.tree.now) rec.now
            (state_in W.style K.lines self.old) (state_in W.style K.lines self.new)
            (text_of gathered.old) (text_of gathered.new) f) }
        ensures err { let f = failures_in K.failed T.faults T.calls self.old self.new in
            OnErr result (BreaksOn (T.files self.old.tree.now) rec.now
            (state_in W.style K.lines self.old) (state_in W.style K.lines self.new) f) }
    {
        let Some(quick) = self.node.quick(rec, place) else {
            return self.take_any(rec, gathered);
        };
        let seen = tell_quick(self.node, self.writer, self.lines, gathered, rec, &quick)?;
        self.leave(rec, gathered)?;
        self.tally.count(seen, self.node.held());
        Ok(())
    }

    /// The step of any record.
    #[inline(never)]
    fn take_any(&mut self, rec: &Record, gathered: &mut TextBuffer) -> Result<(), NoMemory>
        requires moment { self.old.node.now.latest ≤ rec.now.moment }
        requires few { self.old.tally.numbers.records < 2 ^ 28 }
        ensures over { IsOver W.style T.files self.old self.new }
        ensures latest { self.new.node.now.latest ≤ rec.now.moment }
        ensures count { self.new.tally.numbers.records ≤ self.old.tally.numbers.records + 1 }
        ensures number { self.new.clock.number ≡ self.old.clock.number }
        ensures next { self.new.clock.next ≡ self.old.clock.next }
        ensures last { let qs = (keeps self.new.node.now).queues in
            OnOk result (IsLast rec.now.moment qs self.new.clock.last) }
        ensures ok { let f = failures_in K.failed T.faults T.calls self.old self.new in
            OnOk result (HasTaken (T.files self.old.tree.now) rec.now
            (state_in W.style K.lines self.old) (state_in W.style K.lines self.new)
            (text_of gathered.old) (text_of gathered.new) f) }
        ensures err { let f = failures_in K.failed T.faults T.calls self.old self.new in
            OnErr result (BreaksOn (T.files self.old.tree.now) rec.now
            (state_in W.style K.lines self.old) (state_in W.style K.lines self.new) f) }
    {
        let came = self.node.step(rec)?;
        if came.heard.is_none() {
            let seen = Seen::of(None, came.badcrc);
            self.leave(rec, gathered)?;
            self.tally.count(seen, self.node.held());
            return Ok(());
        }
        let told = self.node.told(rec, came);
        tell(self.writer, self.lines, gathered, told)?;
        let seen = Seen::of(told, came.badcrc);
        self.follow(rec, came, gathered)?;
        self.tally.count(seen, self.node.held());
        Ok(())
    }

    /// Answers the request that a record ended, if there is one, and lets frames leave behind it.
    #[inline(always)]
    fn follow(
        &mut self,
        rec: &Record,
        came: Came,
        gathered: &mut TextBuffer,
    ) -> Result<(), NoMemory>
        requires { let request = request_ended self.old.node.now rec.now came in
            ForSome request (IsRequestTo self.old.node.now.plan.node) }
        ensures followed { let request = request_ended self.old.node.now rec.now came in
            IsFollowed (views W.style K.lines K.failed T.files T.faults T.calls) rec.now request
            self.old self.new (text_of gathered.old) (text_of gathered.new) result }
        ensures last { let qs = (keeps self.new.node.now).queues in
            OnOk result (IsLast rec.now.moment qs self.new.clock.last) }
    {
        if came.may_ask() {
            self.ask(rec, came, gathered)
        } else {
            self.leave(rec, gathered)
        }
    }

    /// The same where the record is a frame of a request. What it asks is read only here.
    #[inline(never)]
    fn ask(&mut self, rec: &Record, came: Came, gathered: &mut TextBuffer) -> Result<(), NoMemory>
        requires { let request = request_ended self.old.node.now rec.now came in
            ForSome request (IsRequestTo self.old.node.now.plan.node) }
        ensures followed { let request = request_ended self.old.node.now rec.now came in
            IsFollowed (views W.style K.lines K.failed T.files T.faults T.calls) rec.now request
            self.old self.new (text_of gathered.old) (text_of gathered.new) result }
        ensures last { let qs = (keeps self.new.node.now).queues in
            OnOk result (IsLast rec.now.moment qs self.new.clock.last) }
    {
        let told = self.node.told(rec, came);
        match self.node.request(came, told)? {
            Some(request) => self.answer(rec, request, gathered),
            None => self.leave(rec, gathered),
        }
    }

    /// Lets frames leave behind a record that asked nothing. Where none wait, nothing is done.
    #[inline(always)]
    fn leave(&mut self, rec: &Record, gathered: &mut TextBuffer) -> Result<(), NoMemory>
        ensures followed { let v = views W.style K.lines K.failed T.files T.faults T.calls in
            IsFollowed v rec.now None
            self.old self.new (text_of gathered.old) (text_of gathered.new) result }
        ensures last { let qs = (keeps self.new.node.now).queues in
            OnOk result (IsLast rec.now.moment qs self.new.clock.last) }
    {
        // The number of frames that were sent is one of 64 bits.
        let _sent = self.tally.numbers.sent;
        if self.node.waiting() == 0 {
            return Ok(());
        }
        self.leave_some(rec, gathered)
    }

    /// The same, where some wait.
    #[inline(never)]
    fn leave_some(&mut self, rec: &Record, gathered: &mut TextBuffer) -> Result<(), NoMemory>
        ensures followed { let v = views W.style K.lines K.failed T.files T.faults T.calls in
            IsFollowed v rec.now None
            self.old self.new (text_of gathered.old) (text_of gathered.new) result }
        ensures last { OnOk result (self.new.clock.last ≡ rec.now.moment) }
    {
        let full = ShortList::new();
        let sent = send(
            self.node,
            rec.moment,
            &full,
            self.writer,
            self.lines,
            gathered,
        )?;
        self.tally.send(sent);
        self.clock.last = rec.moment;
        Ok(())
    }

    /// Answers the request of a record, and lets frames leave behind it. Where the tree failed, the
    /// record's line is told.
    #[inline(never)]
    fn answer(
        &mut self,
        rec: &Record,
        request: Request,
        gathered: &mut TextBuffer,
    ) -> Result<(), NoMemory>
        requires { IsRequestTo self.old.node.now.plan.node request }
        ensures followed { let asked = Some request in
            IsFollowed (views W.style K.lines K.failed T.files T.faults T.calls) rec.now asked
            self.old self.new (text_of gathered.old) (text_of gathered.new) result }
        ensures last { OnOk result (self.new.clock.last ≡ rec.now.moment) }
    {
        let file = self.node.serve(&request, self.tree)?;
        let full = self.node.reply(rec.moment, request, &file)?;
        let sent = send(
            self.node,
            rec.moment,
            &full,
            self.writer,
            self.lines,
            gathered,
        )?;
        tell_failed(self.lines, file.is_failed(), rec.line)?;
        self.tally.send(sent);
        self.clock.last = rec.moment;
        Ok(())
    }

    /// The ticks up to a moment, if one is due.
    #[inline(always)]
    fn tick_up_to(&mut self, moment: u64, gathered: &mut TextBuffer) -> Result<(), NoMemory>
        requires low { moment < 10 ^ 18 }
        requires last { last_tick self.old.clock.number self.old.clock.next ≤ moment }
        ensures asks { AsksNone W.style K.failed self.old self.new }
        ensures latest { self.new.node.now.latest ≡ self.old.node.now.latest }
        ensures records { self.new.tally.numbers.records ≡ self.old.tally.numbers.records }
        ensures last { last_tick self.new.clock.number self.new.clock.next ≤ moment }
        ensures number { let due = ticks_left self.old.clock.number self.old.clock.next moment in
            OnOk result (self.new.clock.number ≡ self.old.clock.number + due) }
        ensures next { let next = next_behind self.old.clock.number self.old.clock.next moment in
            OnOk result (self.new.clock.next ≡ next) }
        ensures ok { let old = state_in W.style K.lines self.old in
            let new = state_in W.style K.lines self.new in
            let number = self.old.clock.number in
            let next = self.old.clock.next in
            OnOk result ((first : ℕ) → IsFrom first number next moment
            → GoesOn (ticks_from first number (ticks_left number next moment)) old new
            (text_of gathered.old) (text_of gathered.new)) }
        ensures err { let old = state_in W.style K.lines self.old in
            let new = state_in W.style K.lines self.new in
            let number = self.old.clock.number in
            let next = self.old.clock.next in
            OnErr result ((first : ℕ) → IsFrom first number next moment
            → BreaksOff (ticks_from first number (ticks_left number next moment)) old new) }
    {
        if moment < self.clock.next {
            return Ok(());
        }
        self.ticks(moment, gathered)
    }

    /// The ticks up to a moment, of which one at least is due.
    #[inline(never)]
    fn ticks(&mut self, moment: u64, gathered: &mut TextBuffer) -> Result<(), NoMemory>
        requires due { self.old.clock.next ≤ moment }
        requires low { moment < 10 ^ 18 }
        ensures asks { AsksNone W.style K.failed self.old self.new }
        ensures latest { self.new.node.now.latest ≡ self.old.node.now.latest }
        ensures records { self.new.tally.numbers.records ≡ self.old.tally.numbers.records }
        ensures last { last_tick self.new.clock.number self.new.clock.next ≤ moment }
        ensures number { let next = begun_next self.old.clock.number self.old.clock.next moment in
            OnOk result (self.new.clock.number ≡ self.old.clock.number + ticks_due next moment) }
        ensures next { let next = begun_next self.old.clock.number self.old.clock.next moment in
            OnOk result (self.new.clock.next ≡ next + ticks_due next moment * 1000000) }
        ensures ok { let old = state_in W.style K.lines self.old in
            let new = state_in W.style K.lines self.new in
            let next = begun_next self.old.clock.number self.old.clock.next moment in
            OnOk result ((first : ℕ) → next ≡ first + self.old.clock.number * 1000000
            → GoesOn (ticks_from first self.old.clock.number (ticks_due next moment)) old new
            (text_of gathered.old) (text_of gathered.new)) }
        ensures err { let old = state_in W.style K.lines self.old in
            let new = state_in W.style K.lines self.new in
            let next = begun_next self.old.clock.number self.old.clock.next moment in
            OnErr result ((first : ℕ) → next ≡ first + self.old.clock.number * 1000000
            → BreaksOff (ticks_from first self.old.clock.number (ticks_due next moment))
            old new) }
    {
        self.clock.begin(moment);
        let due = (moment - self.clock.next) / Clock::SECOND + 1;
        for tick in 0..due {
            self.tick(gathered)?;
        }
        Ok(())
    }

    /// The step of the next tick.
    fn tick(&mut self, gathered: &mut TextBuffer) -> Result<(), NoMemory>
        requires low { self.old.clock.next < 10 ^ 18 }
        ensures asks { AsksNone W.style K.failed self.old self.new }
        ensures latest { self.new.node.now.latest ≡ self.old.node.now.latest }
        ensures records { self.new.tally.numbers.records ≡ self.old.tally.numbers.records }
        ensures number { OnOk result (self.new.clock.number ≡ self.old.clock.number + 1) }
        ensures next { OnOk result (self.new.clock.next ≡ self.old.clock.next + 1000000) }
        ensures ok { let old = state_in W.style K.lines self.old in
            let new = state_in W.style K.lines self.new in
            OnOk result (GoesOn (Tick self.old.clock.number self.old.clock.next ∷ []) old new
            (text_of gathered.old) (text_of gathered.new)) }
        ensures err { let old = state_in W.style K.lines self.old in
            let new = state_in W.style K.lines self.new in
            OnErr result (BreaksOff (Tick self.old.clock.number self.old.clock.next ∷ [])
            old new) }
        ensures stays { OnErr result ((self.new.clock.number ≡ self.old.clock.number)
            × (self.new.clock.next ≡ self.old.clock.next)) }
    {
        let moment = self.clock.next;
        let full = self.node.tick(moment, self.clock.number);
        let sent = send(self.node, moment, &full, self.writer, self.lines, gathered)?;
        self.tally.send(sent);
        self.clock.tick();
        Ok(())
    }
}
