ghost use Rattle.std.specs.Prelude.{◌≡◌, ◌↔◌, ◌<◌, IfOk, OnErr, OnOk, length, ◌==◌, ◌&&◌, nat_eq, None, true, false, ◌+◌, [], take, slice_get, Some, IfSome};
ghost use Rattle.std.specs.List.{position, IsDistinct};
ghost use Rattle.rx_table.specs.PortViews.{entries_in, sources_in, buffered_in, subscription, after_frame, answer_to, OpensFor, after_first, answer_to_first, bytes_for};
ghost use Rattle.indexmap.specs.IndexMap.{get};
ghost use Rattle.tail_frame.specs.Frames.{seen};
ghost use Rattle.rx_session.specs.Extents.{extent_bytes};
ghost use Rattle.rx_session.specs.Seen.{record_of, step_answer, outcome_answer};
ghost use Rattle.rx_session.specs.Session.{Delivered};
ghost use Rattle.rx_table.specs.Keys.{same_kind};
ghost use Rattle.rx_table.specs.Admitted.{has};
ghost use Rattle.rx_table.specs.declared.fed.PortMet.TheVariants as met;
ghost use Rattle.rx_table.specs.Places.{step_nth, outcome_nth, buffer_nth, met_answer, is_opened, NamesSession, put_entry};
ghost use Rattle.rx_table.specs.Table.{EntriesHeard, whole, fed_answer, state_of, subscribed};

use crate::fed::{Fed, PortMet};
use can_id::Kind;
use cy_bits::{NoMemory, ShortList};
use dsdl_types::Shape;
use indexmap::IndexMap;
use rx_session::{Front, Outcome, Session, Step, lend};
use std::alloc::Global;
use tail_frame::Frame;

/// A subscription with the sessions of its sources (Cyphal Specification, section 4.1.4).
#[derive(Drop)]
pub struct Port<S> {
    /// What its transfers are for.
    pub kind: Kind,
    /// The subject-ID or the service-ID.
    pub port: u16,
    /// How many sources get a session, 1 to 128.
    pub sources: u16,
    /// To whose extent payloads are cut.
    pub shape: S,
    /// The sessions by source, in the order of their first start frames.
    pub sessions: IndexMap<u8, Session<S>>,
    /// By the source's lowest seven bits, where its session may be among these.
    hints: [u8; 128],
}

impl<S: Shape> Port<S> {
    /// A subscription that has no source yet.
    pub(crate) fn new(alloc: Global, kind: Kind, port: u16, sources: u16, shape: S) -> Port<S>
        ensures state { state_of (extent_bytes S.shape) result
            ≡ subscribed (record {
              kind = kind;
              port = port;
              sources = sources;
              extent = extent_bytes S.shape shape;
            }) }
        ensures shape { result.shape ≡ shape }
        ensures kind { result.kind ≡ kind }
        ensures port { result.port ≡ port }
        ensures sessions { result.sessions.entries ≡ [] }
    {
        Port {
            kind,
            port,
            sources,
            shape,
            sessions: IndexMap::new(alloc),
            hints: [0; 128],
        }
    }

    /// Whether it is the port of a kind with this number.
    pub(crate) fn is(&self, kind: Kind, port: u16) -> bool
        ensures { result ≡ (same_kind kind self.now.kind && (port == self.now.port)) }
    {
        kind == self.kind && port == self.port
    }

    /// What an anonymous frame delivers: its body, cut to the extent.
    #[tactic(auto, using(rx_session::proofs::Extents::bytes_are))]
    #[cold]
    #[inline(never)]
    pub(crate) fn alone(&self, frame: &Frame) -> Front
        ensures { let d = result in
            let payload = take d.count frame.now.body.now in
            Delivered d.bus d.priority d.tid d.first d.last d.moment payload
            ≡ whole (seen frame.now) (extent_bytes S.shape self.now.shape) }
    {
        Front {
            bus: frame.bus,
            priority: frame.ident.priority(),
            tid: frame.tail.tid,
            first: frame.line,
            last: frame.line,
            moment: frame.moment,
            count: self.shape.extent_bytes() as u64,
        }
    }

    /// The first 128 sources that have a session.
    pub(crate) fn first_sources(&self) -> ShortList<u8, 128>
        ensures { result ≡ take 128 (sources_in self.now) }
    {
        let mut list = ShortList::new();
        let count = self.sessions.len().min(128);
        for index in 0..count {
            let (source, _) = self.sessions.get_index(index).unwrap();
            list.push(*source);
        }
        list
    }

    /// A frame of a source.
    #[inline(always)]
    pub(crate) fn meet(
        &mut self,
        alloc: Global,
        source: u8,
        frame: &Frame,
        timeout: u64,
    ) -> Result<PortMet, NoMemory>
        requires { EntriesHeard frame.now.moment (entries_in self.old) }
        ensures port { subscription S.shape self.new ≡ subscription S.shape self.old }
        ensures shape { self.new.shape ≡ self.old.shape }
        ensures entries { OnOk result (entries_in self.new
            ≡ after_frame S.shape timeout self.old source frame.now) }
        ensures answer { IfOk result (λ m. met_answer (entries_in self.new) (record_of frame.now) m
            ≡ answer_to S.shape timeout self.old source frame.now) }
        ensures place { IfOk result (NamesSession (Some source) (slice_get (sources_in self.old))
            (slice_get (sources_in self.new))) }
        ensures opened { IfOk result (λ m.
            is_opened m ≡ true ↔ OpensFor S.shape self.old source frame.now) }
        ensures grown { IfOk result (λ met.
            buffered_in self.new ≡ buffered_in self.old + bytes_for S.shape self.old met) }
        ensures err { OnErr result (entries_in self.new ≡ entries_in self.old) }
        ensures memory { OnErr result (OpensFor S.shape self.old source frame.now) }
    {
        match self.index_of(source) {
            Some(index) => {
                let step = self.step_at(index, frame, timeout);
                Ok(PortMet::Session { index, step })
            }
            None => self.meet_new(alloc, source, frame, timeout),
        }
    }

    /// A frame of a source whose session is found without a search: its place, and what it made of the
    /// frame. `None` says nothing, and does nothing.
    #[inline(always)]
    pub(crate) fn quick(&mut self, source: u8, frame: &Frame, timeout: u64) -> Option<(usize, Step)>
        requires { EntriesHeard frame.now.moment (entries_in self.old) }
        ensures port { subscription S.shape self.new ≡ subscription S.shape self.old }
        ensures shape { self.new.shape ≡ self.old.shape }
        ensures entries { IfSome result (λ _. entries_in self.new
            ≡ after_frame S.shape timeout self.old source frame.now) }
        ensures answer { IfSome result (λ p.
            met_answer (entries_in self.new) (record_of frame.now) (met.Session p.0 p.1)
            ≡ answer_to S.shape timeout self.old source frame.now) }
        ensures place { IfSome result (λ p. slice_get (sources_in self.new) p.0 ≡ Some source) }
        ensures known { IfSome result (λ p. slice_get (sources_in self.old) p.0 ≡ Some source) }
        ensures buffered { buffered_in self.new ≡ buffered_in self.old }
        ensures none { result ≡ None → entries_in self.new ≡ entries_in self.old }
    {
        let index = self.hinted(source)?;
        let step = self.step_at(index, frame, timeout);
        Some((index, step))
    }

    /// The place of a source's session, if the hint is right.
    #[inline(always)]
    fn hinted(&self, source: u8) -> Option<usize>
        ensures index { IfSome result (λ i.
            Some i ≡ position (nat_eq source) (sources_in self.now)) }
        ensures unique { IsDistinct nat_eq (sources_in self.now) }
        ensures within { IfSome result (λ i. i < length self.now.sessions.entries) }
    {
        let hint = self.hints[(source % 128) as usize] as usize;
        if hint < self.sessions.len() && self.is_at(source, hint) {
            Some(hint)
        } else {
            None
        }
    }

    /// The place of a source's session, without a search where the hint is right.
    #[inline(always)]
    fn index_of(&self, source: u8) -> Option<usize>
        ensures index { result ≡ position (nat_eq source) (sources_in self.now) }
        ensures unique { IsDistinct nat_eq (sources_in self.now) }
        ensures within { IfSome result (λ index. index < length self.now.sessions.entries) }
        ensures absent { result ≡ None → get nat_eq self.now.sessions source ≡ None }
    {
        let hint = self.hints[(source % 128) as usize] as usize;
        if hint < self.sessions.len() && self.is_at(source, hint) {
            return Some(hint);
        }
        self.sessions.get_index_of(&source)
    }

    /// Whether the session at a place is that of a source.
    #[inline(always)]
    fn is_at(&self, source: u8, index: usize) -> bool
        ensures { result ≡ true → slice_get (sources_in self.now) index ≡ Some source }
    {
        match self.sessions.get_index(index) {
            Some((key, _)) => *key == source,
            None => false,
        }
    }

    /// A frame of a source that has no session.
    #[cold]
    #[inline(never)]
    fn meet_new(
        &mut self,
        alloc: Global,
        source: u8,
        frame: &Frame,
        timeout: u64,
    ) -> Result<PortMet, NoMemory>
        requires free { get nat_eq self.old.sessions source ≡ None }
        requires absent { has source (sources_in self.old) ≡ false }
        ensures port { subscription S.shape self.new ≡ subscription S.shape self.old }
        ensures shape { self.new.shape ≡ self.old.shape }
        ensures entries { OnOk result (entries_in self.new
            ≡ after_first S.shape timeout self.old source frame.now) }
        ensures answer { IfOk result (λ m. met_answer (entries_in self.new) (record_of frame.now) m
            ≡ answer_to_first S.shape timeout self.old frame.now) }
        ensures place { IfOk result (NamesSession (Some source) (slice_get (sources_in self.old))
            (slice_get (sources_in self.new))) }
        ensures opened { IfOk result (λ m.
            is_opened m ≡ true ↔ OpensFor S.shape self.old source frame.now) }
        ensures grown { IfOk result (λ met.
            buffered_in self.new ≡ buffered_in self.old + bytes_for S.shape self.old met) }
        ensures err { OnErr result (entries_in self.new ≡ entries_in self.old) }
        ensures start { OnErr result (frame.now.tail.start ≡ true) }
        ensures room { OnErr result (length self.old.sessions.entries < self.old.sources) }
    {
        if !frame.tail.start {
            return Ok(PortMet::Ignored);
        }
        let index = self.sessions.len();
        if index >= self.sources as usize {
            return Ok(PortMet::NoSession);
        }
        let mut session = Session::open(alloc, &self.shape)?;
        let step = session.step(frame, timeout);
        self.sessions.insert(source, session)?;
        self.hints[(source % 128) as usize] = index.min(255) as u8;
        Ok(PortMet::Opened { index, step })
    }

    /// The session at a place takes a frame.
    #[inline(always)]
    fn step_at(&mut self, index: usize, frame: &Frame, timeout: u64) -> Step
        requires within { index < length self.old.sessions.entries }
        requires order { EntriesHeard frame.now.moment (entries_in self.old) }
        ensures port { subscription S.shape self.new ≡ subscription S.shape self.old }
        ensures shape { self.new.shape ≡ self.old.shape }
        ensures entries { entries_in self.new
            ≡ step_nth timeout (entries_in self.old) index (record_of frame.now) }
        ensures buffered { buffered_in self.new ≡ buffered_in self.old }
        ensures outcome { let buffer = buffer_nth (entries_in self.new) index in
            step_answer buffer (record_of frame.now) result
            ≡ outcome_nth timeout (entries_in self.old) index (record_of frame.now) }
    {
        let session = self.sessions.get_index_mut(index).unwrap();
        session.step(frame, timeout)
    }

    /// Puts the bytes of a frame in front of the buffer of the session at a place, where no transfer is
    /// being put together.
    pub(crate) fn put_body(&mut self, index: usize, frame: &Frame)
        ensures port { subscription S.shape self.new ≡ subscription S.shape self.old }
        ensures shape { self.new.shape ≡ self.old.shape }
        ensures entries { entries_in self.new
            ≡ put_entry (entries_in self.old) index (record_of frame.now) }
        ensures buffered { buffered_in self.new ≡ buffered_in self.old }
    {
        if index < self.sessions.len() {
            let session = self.sessions.get_index_mut(index).unwrap();
            session.put_body(frame);
        }
    }

    /// The bytes of the buffer that was opened for a frame.
    #[tactic(auto, using(rx_session::proofs::Extents::bytes_are))]
    pub(crate) fn opened_bytes(&self, met: PortMet) -> u64
        ensures { result ≡ bytes_for S.shape self.now met }
    {
        match met {
            PortMet::Opened { .. } => self.shape.extent_bytes() as u64,
            _ => 0,
        }
    }

    /// What a frame of a source came to, with the payload lent from its session.
    #[inline(always)]
    pub(crate) fn lend<'a>(&'a self, met: PortMet, frame: &Frame<'a>) -> Fed<'a>
        ensures { fed_answer result ≡ met_answer (entries_in self.now) (record_of frame.now) met }
    {
        match met {
            PortMet::NoSession => Fed::NoSession,
            PortMet::Ignored => Fed::Session(Outcome::Ignored),
            PortMet::Session { index, step } => Fed::Session(self.lend_at(index, step, frame)),
            PortMet::Opened { index, step } => Fed::Session(self.lend_at(index, step, frame)),
        }
    }

    /// What the session at a place made of a frame, with the payload lent from its buffer.
    #[inline(always)]
    fn lend_at<'a>(&'a self, index: usize, step: Step, frame: &Frame<'a>) -> Outcome<'a>
        ensures { outcome_answer result
            ≡ step_answer (buffer_nth (entries_in self.now) index) (record_of frame.now) step }
    {
        match self.sessions.get_index(index) {
            Some((_, session)) => session.lend(step, frame),
            None => lend(step, &[], frame),
        }
    }
}
