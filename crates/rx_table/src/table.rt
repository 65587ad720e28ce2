ghost use Rattle.std.specs.Prelude.{◌≡◌, ◌^◌, ◌-◌, min};
ghost use Rattle.rx_table.specs.SubjectPlaces.{ArePlaces, ArePlaces-prop};
ghost use Rattle.rx_table.specs.Table.{held_in};

use crate::fed::{Fed, Met, SubscribeError};
use crate::port::Port;
use crate::subjects::{Subjects, place_at};
use can_id::Kind;
use cy_bits::{NoMemory, ShortList};
use dsdl_types::Shape;
use rx_session::Step;
use std::alloc::Global;
use tail_frame::Frame;

/// Sessions for the sources of every subscribed port (Cyphal Specification, section 4.1.4).
///
/// It stands for a log: the frames with a source that it was fed, in their order.
#[derive(Drop)]
pub struct Table<S> {
    alloc: Global,
    /// The silence of a bus, in microseconds, after which another takes over.
    pub timeout: u64,
    /// The subscriptions, in their order.
    pub ports: Vec<Port<S>>,
    /// The bytes of the buffers of all their sessions, or 2^64 - 1 where they are more.
    held: u64,
    /// The places of subjects among the subscriptions.
    subjects: Subjects,
    ghost sum: { held ≡ min (held_in ports.items) (2 ^ 64 - 1) },
    ghost places: { ArePlaces subjects ports.items } by { ArePlaces-prop subjects ports.items },
}

/// How many subjects there are.
const SUBJECTS: usize = 0x2000;

impl<S: Shape> Table<S> {
    ghost use Rattle.std.specs.Prelude.{◌↔◌, ◌<◌, ◌≤◌, ◌++◌, ◌∷◌, [], IfOk, IfSome, OnErr, OnOk, length, List, ℕ, Err, None, Some, ◌≢◌, map, ◌+◌, is_some};
    ghost use Rattle.std.specs.Borrow.{sem};
    ghost use Rattle.std.specs.Io.BufRead.{Rests};
    ghost use Rattle.can_id.specs.declared.key.Key.{Key as KeyOf};
    ghost use Rattle.can_id.specs.declared.key.Kind.{Kind as KindOf};
    ghost use Rattle.can_id.specs.declared.key.Kind.TheVariants.{Message};
    ghost use Rattle.std.specs.Option.{option_copied};
    ghost use Rattle.tail_frame.specs.Frames.{seen};
    ghost use Rattle.rx_session.specs.Extents.{extent_bytes};
    ghost use Rattle.can_id.specs.Identifiers.{key_of};
    ghost use Rattle.rx_table.specs.Keys.{KeyedFrame};
    ghost use Rattle.rx_session.specs.Seen.{record_of};
    ghost use Rattle.rx_table.specs.Ports.{port_at, held, bound, held_of};
    ghost use Rattle.rx_table.specs.Places.{put_met, put_nth, source_at};
    ghost use Rattle.rx_table.specs.SubjectPlaces.{place_of};
    ghost use Rattle.rx_table.specs.Table.{StandsFor, fed_answer, shape_at, admitted_on, subscribed};
    ghost use Rattle.rx_table.specs.Views.{states_of, subscriptions, place_in, states_after, answer_after, OpensAtPlace, IsOfLog, HasHeardBy, told_by, Keeps, KeepsSessions, TakesIn, Answers, OpensOne, IsIdleAt, IsMetAt, IsFed};
    ghost use Rattle.rx_table.specs.declared.fed.Met.TheVariants as on_port;
    ghost use Rattle.rx_table.specs.declared.fed.PortMet.TheVariants as on_session;
    ghost use Rattle.rx_table.specs.declared.fed.SubscribeError.TheVariants.{Taken};
    ghost use Rattle.rx_table.specs.contracts.table.Table.{the_row};

    /// A table with no subscription and this timeout in microseconds. It stands for the empty log.
    pub fn new(alloc: Global, timeout: u64) -> Result<Table<S>, NoMemory>
        ensures ports { IfOk result (λ t. t.ports.items ≡ []) }
        ensures timeout { IfOk result (λ t. t.timeout ≡ timeout) }
        ensures stands { IfOk result (λ t. IsOfLog S.shape t []) }
    {
        let subjects = Subjects::new(alloc, SUBJECTS)?;
        Ok(Table {
            alloc,
            timeout,
            ports: Vec::new(alloc),
            held: 0,
            subjects,
        })
    }

    /// Subscribes to a kind and port (Cyphal Specification, section 4.1.1), for the first `sources`
    /// sources that send a start frame.
    ///
    /// The table has fewer than 2^16 subscriptions, `sources` is 1 to 128, and the shape's extent
    /// is at most 2^32 bits; what it stands for is told of a table that has no source yet. Taken
    /// where that kind and port is there; the table is then as before, as it is at want of memory.
    pub fn subscribe(
        &mut self,
        kind: Kind,
        port: u16,
        sources: u16,
        shape: S,
    ) -> Result<(), SubscribeError>
    where
        S: Drop,
        requires some { 0 < sources }
        requires few { sources ≤ 128 }
        requires small { extent_bytes S.shape shape ≤ 2 ^ 29 }
        requires room { length self.old.ports.items < 2 ^ 16 }
        ensures timeout { self.new.timeout ≡ self.old.timeout }
        ensures ports { OnOk result (states_of S.shape self.new ≡ states_of S.shape self.old
            ++ subscribed (record {
              kind = kind;
              port = port;
              sources = sources;
              extent = extent_bytes S.shape shape;
            }) ∷ []) }
        ensures count { OnOk result
            (length self.new.ports.items ≡ length self.old.ports.items + 1) }
        ensures shapes { OnOk result (map (λ p. p.shape) self.new.ports.items
            ≡ map (λ p. p.shape) self.old.ports.items ++ shape ∷ []) }
        ensures stands { IsOfLog S.shape self.old []
            → OnOk result (StandsFor self.old.timeout [] (states_of S.shape self.new)) }
        ensures heard { (now : ℕ) → HasHeardBy S.shape now self.old
            → OnOk result (HasHeardBy S.shape now self.new) }
        ensures taken { (result ≡ Err Taken)
            ↔ (port_at kind port (subscriptions S.shape self.old) ≢ None) }
        ensures err { OnErr result (self.new.ports.items ≡ self.old.ports.items) }
    {
        if self.find(kind, port).is_some() {
            return Err(SubscribeError::Taken);
        }
        match self.append(Port::new(self.alloc, kind, port, sources, shape)) {
            Ok(()) => Ok(()),
            Err(_) => Err(SubscribeError::NoMemory),
        }
    }

    /// Puts a subscription that has no source yet behind the others.
    fn append(&mut self, port: Port<S>) -> Result<(), NoMemory>
    where
        S: Drop,
        requires empty { port.sessions.entries ≡ [] }
        requires absent { place_of port.kind port.port self.old.ports.items ≡ None }
        requires room { length self.old.ports.items < 2 ^ 16 }
        ensures timeout { self.new.timeout ≡ self.old.timeout }
        ensures ok { OnOk result (self.new.ports.items ≡ self.old.ports.items ++ port ∷ []) }
        ensures err { OnErr result (self.new.ports.items ≡ self.old.ports.items) }
    {
        let code = self.ports.len() as u32 + 1;
        let kind = port.kind;
        let number = port.port;
        match self.ports.push(port) {
            Ok(()) => {
                self.subjects.put(kind, number, code);
                Ok(())
            }
            Err(_) => Err(NoMemory),
        }
    }

    /// Takes a frame (Cyphal Specification, section 4.1.4), at a moment in microseconds not before
    /// that of any frame taken earlier.
    ///
    /// A frame on no subscribed port leaves the table as it is, and so does an anonymous one, which
    /// is delivered at once. A start frame of a new source opens a session where the port has fewer
    /// sources than it takes: only then is memory taken, and want of it leaves the table as it was.
    /// A frame that isn't a start, of a source with no session, is ignored.
    ///
    /// The short form of `step` and `lend`, for a caller that takes each answer at once; a node
    /// calls these two.
    pub fn feed<'a>(&'a mut self, frame: &Frame<'a>) -> Result<Fed<'a>, NoMemory>
        requires { HasHeardBy S.shape frame.now.moment self.old }
        ensures* after { sem 𝓛 (Rests (the_row S.row) self.entry
            (IsFed S.shape frame.now self.old result)) }
        ensures told { IfOk result (λ fed.
            Answers S.shape self.old (seen frame.now) (fed_answer fed)) }
        ensures memory { OnErr result (OpensOne S.shape self.old (seen frame.now)) }
    {
        match self.step(frame) {
            Ok(met) => {
                self.put_whole(met, frame);
                Ok(self.lend(met, frame))
            }
            Err(refused) => Err(refused),
        }
    }

    /// Puts the bytes of a frame in front of its session's buffer, where it came to a whole
    /// transfer.
    fn put_whole(&mut self, met: Met, frame: &Frame)
        ensures keeps { Keeps S.shape self.old self.new }
        ensures states { states_of S.shape self.new
            ≡ put_met (states_of S.shape self.old) (record_of frame.now) met }
    {
        if let Met::Port { place, met } = met {
            if let Some(index) = met.whole() {
                self.put_body(place, index, frame);
            }
        }
    }

    /// Puts the bytes of a frame in front of the buffer of the session at a place of the port at a
    /// place, where no transfer is being put together.
    fn put_body(&mut self, place: usize, index: usize, frame: &Frame)
        ensures keeps { Keeps S.shape self.old self.new }
        ensures states { states_of S.shape self.new
            ≡ put_nth (states_of S.shape self.old) place index (record_of frame.now) }
    {
        if place < self.ports.len() {
            let port = &mut self.ports[place];
            port.put_body(index, frame);
        }
    }

    /// What `feed` does (Cyphal Specification, section 4.1.4), without borrowing a payload: `lend`
    /// tells it, with the same frame. The bytes of a whole transfer aren't put into its session's
    /// buffer.
    #[inline(always)]
    pub fn step(&mut self, frame: &Frame) -> Result<Met, NoMemory>
        requires { HasHeardBy S.shape frame.now.moment self.old }
        ensures keeps { Keeps S.shape self.old self.new }
        ensures heard { (now : ℕ) → frame.now.moment ≤ now → HasHeardBy S.shape now self.new }
        ensures stands { OnOk result (TakesIn S.shape (seen frame.now) self.old self.new) }
        ensures told { IfOk result (λ met.
            Answers S.shape self.old (seen frame.now) (told_by S.shape self.new frame.now met)) }
        ensures place { IfOk result (IsMetAt S.shape self.old self.new (key_of frame.now.ident)) }
        ensures idle { IfOk result (λ met.
            IsIdleAt S.shape (told_by S.shape self.new frame.now met) self.old self.new) }
        ensures memory { OnErr result (OpensOne S.shape self.old (seen frame.now)) }
        ensures err { OnErr result (KeepsSessions S.shape self.old self.new) }
    {
        let key = frame.ident.key();
        let Some(place) = self.find(key.kind, key.port) else {
            return Ok(Met::NoPort);
        };
        match key.source {
            None => Ok(Met::Anonymous(self.ports[place].alone(frame))),
            Some(source) => self.step_at(place, source, frame),
        }
    }

    /// A frame of a source, on the port at a place.
    #[inline(always)]
    fn step_at(&mut self, place: usize, source: u8, frame: &Frame) -> Result<Met, NoMemory>
        requires within { place < length self.old.ports.items }
        requires heard { HasHeardBy S.shape frame.now.moment self.old }
        ensures keeps { Keeps S.shape self.old self.new }
        ensures states { OnOk result (states_of S.shape self.new
            ≡ states_after S.shape self.old place source frame.now) }
        ensures answer { IfOk result (λ met. told_by S.shape self.new frame.now met
            ≡ answer_after S.shape self.old place source frame.now) }
        ensures place { (key : KeyOf) → place_in key.kind key.port self.old ≡ Some place
            → key.source ≡ Some source → IfOk result (IsMetAt S.shape self.old self.new key) }
        ensures err { OnErr result (KeepsSessions S.shape self.old self.new) }
        ensures memory { OnErr result (OpensAtPlace S.shape self.old place source frame.now) }
    {
        let port = &mut self.ports[place];
        match port.meet(self.alloc, source, frame, self.timeout) {
            Ok(met) => {
                let opened = port.opened_bytes(met);
                self.held = self.held.saturating_add(opened);
                Ok(Met::Port { place, met })
            }
            Err(refused) => Err(refused),
        }
    }

    /// A frame of a source whose session is found without a search, on the port at a place: the
    /// session's place, and what it made of the frame. `None` says nothing, and does nothing.
    #[inline(always)]
    fn quick_at(&mut self, place: usize, source: u8, frame: &Frame) -> Option<(usize, Step)>
        requires within { place < length self.old.ports.items }
        requires heard { HasHeardBy S.shape frame.now.moment self.old }
        ensures keeps { Keeps S.shape self.old self.new }
        ensures states { IfSome result (λ _. states_of S.shape self.new
            ≡ states_after S.shape self.old place source frame.now) }
        ensures answer { IfSome result (λ p.
            told_by S.shape self.new frame.now (on_port.Port place (on_session.Session p.0 p.1))
            ≡ answer_after S.shape self.old place source frame.now) }
        ensures index { IfSome result (λ p.
            source_at (states_of S.shape self.new) place p.0 ≡ Some source) }
        ensures known { IfSome result (λ p.
            source_at (states_of S.shape self.old) place p.0 ≡ Some source) }
        ensures none { result ≡ None → KeepsSessions S.shape self.old self.new }
    {
        let port = &mut self.ports[place];
        match port.quick(source, frame, self.timeout) {
            Some((index, step)) => Some((index, step)),
            None => None,
        }
    }

    /// What `step` does with a frame of a source whose session is found without a search, on the
    /// port at this place: the session's place, and what it made of the frame. `None` says nothing,
    /// and does nothing.
    #[inline(always)]
    pub fn quick(&mut self, place: usize, frame: &Frame) -> Option<(usize, Step)>
        requires place { let key = key_of frame.now.ident in
            place_in key.kind key.port self.old ≡ Some place }
        requires heard { HasHeardBy S.shape frame.now.moment self.old }
        ensures keeps { Keeps S.shape self.old self.new }
        ensures place { let key = key_of frame.now.ident in
            place_in key.kind key.port self.new ≡ Some place }
        ensures heard { (now : ℕ) → frame.now.moment ≤ now → HasHeardBy S.shape now self.new }
        ensures stands { IfSome result (λ _. TakesIn S.shape (seen frame.now) self.old self.new) }
        ensures told { IfSome result (λ p.
            let met = on_port.Port place (on_session.Session p.0 p.1) in
            Answers S.shape self.old (seen frame.now) (told_by S.shape self.new frame.now met)) }
        ensures index { let key = key_of frame.now.ident in IfSome result (λ p.
            source_at (states_of S.shape self.new) place p.0 ≡ key.source) }
        ensures known { let key = key_of frame.now.ident in IfSome result (λ p.
            source_at (states_of S.shape self.old) place p.0 ≡ key.source) }
        ensures none { result ≡ None → KeepsSessions S.shape self.old self.new }
    {
        let key = frame.ident.key();
        match key.source {
            None => None,
            Some(source) => self.quick_at(place, source, frame),
        }
    }

    /// What a frame came to, with the payload lent from the frame or from a session's buffer.
    #[inline(always)]
    pub fn lend<'a>(&'a self, met: Met, frame: &Frame<'a>) -> Fed<'a>
        ensures { fed_answer result ≡ told_by S.shape self.now frame.now met }
    {
        match met {
            Met::NoPort => Fed::NoPort,
            Met::Anonymous(front) => Fed::Anonymous(front.lend(frame.body)),
            Met::Port { place, met } => {
                if place < self.ports.len() {
                    self.ports[place].lend(met, frame)
                } else {
                    Fed::NoPort
                }
            }
        }
    }

    /// The bytes of the buffers of all sessions, or 2^64 - 1 where they are more. Frames that a
    /// plan's ports let in never make them that many. The cost doesn't depend on the subscriptions.
    pub fn held(&self) -> u64
        ensures sum { result ≡ min (held_of (states_of S.shape self.now)) (2 ^ 64 - 1) }
        ensures held { (log : List KeyedFrame) → IsOfLog S.shape self.now log
            → result ≡ held (subscriptions S.shape self.now) log }
        ensures bound { (log : List KeyedFrame) → IsOfLog S.shape self.now log
            → result ≤ bound (subscriptions S.shape self.now) }
    {
        self.held
    }

    /// Whether a kind and port is subscribed.
    #[inline(always)]
    pub fn takes(&self, kind: Kind, port: u16) -> bool
        ensures { result ≡ is_some (port_at kind port (subscriptions S.shape self.now)) }
    {
        self.find(kind, port).is_some()
    }

    /// The shape of a subscription, or `None` where that kind and port isn't subscribed.
    #[inline(always)]
    pub fn shape(&self, kind: Kind, port: u16) -> Option<&S>
        ensures { option_copied result ≡ shape_at kind port self.now.ports.items }
    {
        match self.find(kind, port) {
            Some(place) => Some(&self.ports[place].shape),
            None => None,
        }
    }

    /// The shape of the subscription at a place.
    #[inline(always)]
    pub fn shape_on(&self, place: usize) -> &S
        requires { place < length self.now.ports.items }
        ensures { (kind : KindOf) (port : ℕ) → place_in kind port self.now ≡ Some place
            → shape_at kind port self.now.ports.items ≡ Some result.now }
    {
        &self.ports[place].shape
    }

    /// The sources of a subscription that have a session, in the order of their first start frames.
    /// None where that kind and port isn't subscribed.
    pub fn sources(&self, kind: Kind, port: u16) -> ShortList<u8, 128>
        ensures { (log : List KeyedFrame) → IsOfLog S.shape self.now log
            → result ≡ admitted_on (port_at kind port (subscriptions S.shape self.now)) log }
    {
        match self.find(kind, port) {
            Some(place) => self.ports[place].first_sources(),
            None => ShortList::new(),
        }
    }

    /// The place of a subject's subscription, if it is there.
    #[inline(always)]
    pub fn place(&self, subject: u16) -> Option<usize>
        ensures { result ≡ place_in Message subject self.now }
    {
        self.find_subject(subject)
    }

    /// The place of a subscription.
    #[inline(always)]
    fn find(&self, kind: Kind, port: u16) -> Option<usize>
        ensures { result ≡ place_in kind port self.now }
    {
        match kind {
            Kind::Message => self.find_subject(port),
            Kind::Request => self.search(Kind::Request, port),
            Kind::Response => self.search(Kind::Response, port),
        }
    }

    /// The place of a subject's subscription, without a search where it is below 2^13.
    #[inline(always)]
    fn find_subject(&self, subject: u16) -> Option<usize>
        ensures { result ≡ place_in Message subject self.now }
    {
        match self.subjects.get(subject) {
            Some(code) => place_at(code),
            None => self.search(Kind::Message, subject),
        }
    }

    /// The place of a subscription, by a search.
    #[cold]
    fn search(&self, kind: Kind, port: u16) -> Option<usize>
        ensures { result ≡ place_in kind port self.now }
    {
        self.ports.iter().position(|p| p.is(kind, port))
    }
}
