//! An allocator that hears a log.
ghost use Rattle.std.specs.Prelude.{◌≤◌, ◌<◌};

use crate::answer::{MOST, write_answer};
use crate::lines::{Outgoing, put_end, put_full, put_given, put_transfer};
use can_id::{Ident, make};
use cy_bits::NoMemory;
use line_text::TextBuffer;
use log_loop::Listener;
use pnp_alloc::{AllocEvent, AllocOut, Allocator};
use std::alloc::Global;
use std_types::allocation::NodeIdAllocation;
use std_types::{Standard, StdName, ports, std_type};
use tail_frame::{Record, frame_of};
use wire_values::payload_value;

/// An allocator, and what it takes to hear a log.
#[derive(Drop)]
pub struct Allocating {
    alloc: Global,
    /// The own node-ID, at most 127.
    pub own: u8,
    /// Who was given which node-ID.
    pub allocator: Allocator,
    /// The transfer-ID of the next answer.
    pub tid: u8,
    /// How many records it heard.
    pub records: u64,
    ghost node: { own ≤ 127 },
    ghost cyclic: { tid < 32 },
}

impl Allocating {
    ghost use Rattle.std.specs.Prelude.{◌≡◌, ◌%◌, ◌++◌, [], OnOk, IfOk, IfSome, ℕ};
    ghost use Rattle.line_text.specs.Buffer.{text_of};
    ghost use Rattle.pnp_alloc.specs.Stands.{IsFit};
    ghost use Rattle.pnp_alloc.specs.declared.event.AllocEvent.TheVariants.{Wanted};
    ghost use Rattle.node_reach.specs.Allocated.{seen_by, wanted, event_of, answer_lines};
    ghost use Rattle.node_reach.specs.Allocates.{Allocates, Takes, Says};

    /// An allocator with this node-ID of its own that heard nothing yet.
    pub(crate) fn new(alloc: Global, own: u8) -> Allocating
        requires { own ≤ 127 }
        ensures own { result.own ≡ own }
        ensures allocates { Allocates own result [] }
        ensures records { result.records ≡ 0 }
    {
        Allocating {
            alloc,
            own,
            allocator: Allocator::new(own),
            tid: 0,
            records: 0,
        }
    }

    /// The event of a record, if it is one.
    fn event(&self, rec: &Record) -> Result<Option<AllocEvent>, NoMemory>
        ensures event { IfOk result (λ event. event ≡ event_of self.now.own rec.now) }
        ensures fit { IfOk result (λ event. IfSome event IsFit) }
    {
        let Some(frame) = frame_of(rec) else {
            return Ok(None);
        };
        let key = frame.ident.key();
        match key.source {
            Some(source) => Ok(self.seen(source)),
            None => {
                if key.port == ports::ALLOCATION {
                    self.wanted(frame.body)
                } else {
                    Ok(None)
                }
            }
        }
    }

    /// The event of a frame of a source, which isn't one where the source is the own node.
    fn seen(&self, source: u8) -> Option<AllocEvent>
        requires { source < 128 }
        ensures event { result ≡ seen_by self.now.own source }
        ensures fit { IfSome result IsFit }
    {
        if source == self.own {
            None
        } else {
            Some(AllocEvent::Seen { node: source })
        }
    }

    /// The event of an anonymous message on the subject of allocation, if it is one.
    fn wanted(&self, payload: &[u8]) -> Result<Option<AllocEvent>, NoMemory>
        ensures event { IfOk result (λ event. event ≡ wanted payload.now) }
        ensures fit { IfOk result (λ event. IfSome event IsFit) }
    {
        let standard = std_type(self.alloc, StdName::NodeIdAllocation)?;
        let Some(value) = payload_value(self.alloc, &standard.schema, payload)? else {
            return Ok(None);
        };
        let message = NodeIdAllocation::of_value(self.alloc, &value)?;
        if message.allocated_node_id.is_empty() {
            Ok(Some(AllocEvent::Wanted {
                uid: message.unique_id_hash,
            }))
        } else {
            Ok(None)
        }
    }

    /// Takes an event, and gathers what is said on it.
    fn take(
        &mut self,
        moment: u64,
        event: AllocEvent,
        gathered: &mut TextBuffer,
    ) -> Result<(), NoMemory>
        requires { IsFit event }
        ensures records { self.new.records ≡ self.old.records }
        ensures answered { OnOk result (Takes event self.old self.new) }
        ensures text { OnOk result
            (Says moment event self.old (text_of gathered.old) (text_of gathered.new)) }
    {
        match event {
            AllocEvent::Seen { node: _node } => {
                let _noted = self.allocator.hear(event);
                Ok(())
            }
            AllocEvent::Wanted { uid } => self.answer(moment, uid, gathered),
        }
    }

    /// Answers a unique id that wants a node-ID.
    fn answer(&mut self, moment: u64, uid: u64, gathered: &mut TextBuffer) -> Result<(), NoMemory>
        ensures records { self.new.records ≡ self.old.records }
        ensures answered { OnOk result (Takes (Wanted uid) self.old self.new) }
        ensures text { OnOk result
            (Says moment (Wanted uid) self.old (text_of gathered.old) (text_of gathered.new)) }
    {
        match self.allocator.hear(AllocEvent::Wanted { uid }) {
            AllocOut::Noted => Ok(()),
            AllocOut::Given { node } => {
                put_given(gathered, moment, node, uid)?;
                self.send(moment, uid, node, gathered)?;
                self.tid = (self.tid + 1) % 32;
                Ok(())
            }
            AllocOut::Full => put_full(gathered, moment, uid),
        }
    }

    /// Gathers the lines of the message by which a unique id is given a node-ID.
    fn send(
        &self,
        moment: u64,
        uid: u64,
        node: u8,
        gathered: &mut TextBuffer,
    ) -> Result<(), NoMemory>
        ensures { OnOk result ((number : ℕ) → self.now.tid ≡ number % 32 → text_of gathered.new
            ≡ text_of gathered.old ++ answer_lines self.now.own moment number uid node) }
    {
        let mut payload = [0; MOST];
        let size = write_answer(self.alloc, uid, node, &mut payload)?;
        let ident = make(Ident::Message {
            priority: 4,
            subject: ports::ALLOCATION,
            source: self.own,
        });
        put_transfer(
            gathered,
            Outgoing {
                moment,
                ident,
                tid: self.tid,
                payload: &payload[..size],
            },
        )
    }
}

impl Listener for Allocating {
    ghost use Rattle.std.specs.Prelude.{refl};
    ghost use Rattle.tail_frame.specs.declared.logged.Record.{Record};
    ghost use Rattle.node_reach.specs.Allocated.{allocate_voice};
    ghost use Rattle.node_reach.specs.Allocates.{Allocates};

    ghost event = { Record };

    ghost voice = { λ first. allocate_voice first.own };

    ghost heard = { λ first now past. Allocates first.own now past };

    ghost ended = { λ first now past. Allocates first.own now past };

    ghost broke = { λ first now past. Unit {0} };

    ghost cut_short = { λ first now past. Unit {0} };

    ghost latest = { λ now. 0 };

    ghost count = { λ now. now.records };

    fn hear(&mut self, rec: &Record, gathered: &mut TextBuffer) -> Result<(), NoMemory> {
        let event = self.event(rec)?;
        if let Some(event) = event {
            self.take(rec.moment, event, gathered)?;
        }
        self.records += 1;
        Ok(())
    }

    fn finish(&mut self, gathered: &mut TextBuffer) -> Result<(), NoMemory> {
        let owners = self.allocator.owners().len() as u64;
        put_end(gathered, self.records, b"owners", owners)
    }

    ghost heard_broke = { λ first now past h. tt };

    ghost comes = { λ first rec past. record { event = rec; of = refl; may = tt } };
}
