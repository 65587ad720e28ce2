//! A client that hears a log.
use crate::asking::{Asking, SECOND};
use crate::client::Client;
use crate::responses::Responses;
use cy_bits::NoMemory;
use file_client::fetch_laws;
use line_text::TextBuffer;
use log_loop::Listener;
use std::alloc::Global;
use tail_frame::Record;

/// A client that fetches a file, and what it takes to hear a log.
#[derive(Drop)]
pub struct Fetching {
    /// The client.
    pub asking: Asking,
    /// What it hears.
    pub responses: Responses,
    /// The moment of the first record, once it came.
    pub first: Option<u64>,
    /// The last tick that came.
    pub tick: u64,
}

impl Fetching {
    ghost use Rattle.std.specs.Prelude.{◌≡◌, ◌<◌, ◌^◌, ◌++◌, ◌∷◌, [], List, IfOk, OnOk};
    ghost use Rattle.line_text.specs.Buffer.{text_of};
    ghost use Rattle.tail_frame.specs.declared.logged.Record.{Record as RecordOf};
    ghost use Rattle.node_reach.specs.Clients.{IsClient};
    ghost use Rattle.node_reach.specs.Fetched.{ticks_text, events, events_before};
    ghost use Rattle.node_reach.specs.Fetches.{HasAsked, HasTicked, Fetches};

    /// A client that heard nothing yet.
    pub(crate) fn new(alloc: Global, client: Client) -> Result<Fetching, NoMemory>
        requires { IsClient client }
        ensures client { IfOk result (λ it. it.asking.client ≡ client) }
        ensures fetches { IfOk result (λ it. Fetches client it []) }
        ensures latest { IfOk result (λ it. it.responses.ear.latest ≡ 0) }
    {
        let responses = Responses::new(alloc, client.own)?;
        let asking = Asking::new(alloc, client)?;
        Ok(Fetching {
            asking,
            responses,
            first: None,
            tick: 0,
        })
    }

    /// Goes through the ticks before a record. Tick 0 is at the first record, and request 0 is made.
    fn wait(&mut self, rec: &Record, gathered: &mut TextBuffer) -> Result<(), NoMemory>
        requires { rec.now.moment < 10 ^ 18 }
        ensures client { self.new.asking.client ≡ self.old.asking.client }
        ensures responses { self.new.responses ≡ self.old.responses }
        ensures ticks { OnOk result ((past : List RecordOf) → HasTicked self.old past
            → HasTicked self.new (rec.now ∷ past)) }
        ensures asked { let client = self.old.asking.client in OnOk result ((past : List RecordOf)
            → HasTicked self.old past → HasAsked (events client past) self.old.asking
            → HasAsked (events_before client rec.now past) self.new.asking) }
        ensures text { let client = self.old.asking.client in OnOk result ((past : List RecordOf)
            → HasTicked self.old past → HasAsked (events client past) self.old.asking
            → text_of gathered.new ≡ text_of gathered.old ++ ticks_text client rec.now past) }
    {
        let Some(first) = self.first else {
            self.first = Some(rec.moment);
            return self.asking.ask(rec.moment, 0, 0, gathered);
        };
        let last = rec.moment.saturating_sub(first) / SECOND;
        self.asking.wait(first, self.tick, last, gathered)?;
        self.tick = last;
        Ok(())
    }
}

impl Listener for Fetching {
    ghost use Rattle.std.specs.Prelude.{refl};
    ghost use Rattle.tail_frame.specs.declared.logged.Record.{Record as RecordOf};
    ghost use Rattle.node_reach.specs.Fetches.{Fetches};
    ghost use Rattle.node_reach.specs.Fetched.{fetch_voice};

    ghost event = { RecordOf };

    ghost voice = { λ first. fetch_voice first.asking.client };

    ghost heard = { λ first now past. Fetches first.asking.client now past };

    ghost ended = { λ first now past. Fetches first.asking.client now past };

    ghost broke = { λ first now past. Unit {0} };

    ghost cut_short = { λ first now past. Unit {0} };

    ghost latest = { λ now. now.responses.ear.latest };

    ghost count = { λ now. 0 };

    fn hear(&mut self, rec: &Record, gathered: &mut TextBuffer) -> Result<(), NoMemory> {
        fetch_laws();
        if self.asking.has_ended() {
            return Ok(());
        }
        self.wait(rec, gathered)?;
        match self.responses.hear(rec, self.asking.client.server)? {
            Some(response) => self.asking.take(rec.moment, response.event(), gathered),
            None => Ok(()),
        }
    }

    fn finish(&mut self, gathered: &mut TextBuffer) -> Result<(), NoMemory> {
        self.asking.finish(gathered)
    }

    ghost heard_broke = { λ first now past h. tt };

    ghost comes = { λ first rec past. record { event = rec; of = refl; may = tt } };
}
