//! A client of a file server and what it says.
ghost use Rattle.node_reach.specs.Clients.{IsClient};

use crate::client::Client;
use crate::fetch_lines::put_outcome;
use cy_bits::NoMemory;
use file_client::{Fetch, FetchEvent, FetchOut, fetch_laws};
use line_text::TextBuffer;
use std::alloc::Global;

/// The most bytes that a file may have.
const LIMIT: u32 = 0x10_0000;

/// How many microseconds there are from tick to tick.
pub(crate) const SECOND: u64 = 1_000_000;

/// A client that fetches a file, and gathers what it says.
#[derive(Drop)]
pub struct Asking {
    alloc: Global,
    /// Whose file it fetches.
    pub client: Client,
    /// How far it is.
    pub fetch: Fetch,
    ghost fits: { IsClient client },
}

impl Asking {
    ghost use Rattle.std.specs.Prelude.{◌≡◌, ◌<◌, ◌++◌, ◌∷◌, ◌-◌, ◌^◌, [], List, IfOk, OnOk, is_some};
    ghost use Rattle.file_client.specs.Fetch.{Event};
    ghost use Rattle.file_client.specs.Laws.{end_after};
    ghost use Rattle.file_client.specs.Stands.{event_of, IsShort};
    ghost use Rattle.line_text.specs.Buffer.{text_of};
    ghost use Rattle.node_reach.specs.Fetched.{file_limit, lates, request_text, event_text, lates_text, outcome_text};
    ghost use Rattle.node_reach.specs.Fetches.{HasAsked};
    ghost use Rattle.node_reach.specs.Ticks.{tick_moment};

    /// To such a client no event came yet.
    pub(crate) fn new(alloc: Global, client: Client) -> Result<Asking, NoMemory>
        requires client { IsClient client }
        ensures client { IfOk result (λ it. it.client ≡ client) }
        ensures asked { IfOk result (λ it. HasAsked [] it) }
    {
        let fetch = Fetch::open(alloc, LIMIT)?;
        Ok(Asking {
            alloc,
            client,
            fetch,
        })
    }

    /// Whether an end came: then nothing is said on any event.
    pub(crate) fn has_ended(&self) -> bool
        ensures ended { (past : List Event) → HasAsked past self.now
            → result ≡ is_some (end_after file_limit past) }
    {
        self.fetch.end().is_some()
    }

    /// Gathers what is said on a request, with a transfer-ID of 0 to 31, for the bytes from an
    /// offset on.
    pub(crate) fn ask(
        &self,
        moment: u64,
        tid: u8,
        offset: u64,
        gathered: &mut TextBuffer,
    ) -> Result<(), NoMemory>
        requires tid { tid < 32 }
        ensures text { OnOk result (text_of gathered.new
            ≡ text_of gathered.old ++ request_text self.now.client moment tid offset) }
    {
        self.client
            .put_request(self.alloc, moment, tid, offset, gathered)
    }

    /// Takes an event, and gathers what is said on it.
    pub(crate) fn take(
        &mut self,
        moment: u64,
        event: FetchEvent<'_>,
        gathered: &mut TextBuffer,
    ) -> Result<(), NoMemory>
        requires short { IsShort (event_of event) }
        ensures client { self.new.client ≡ self.old.client }
        ensures asked { OnOk result ((past : List Event) → HasAsked past self.old
            → HasAsked (event_of event.entry ∷ past) self.new) }
        ensures text { OnOk result ((past : List Event) → HasAsked past self.old
            → text_of gathered.new ≡ text_of gathered.old
            ++ event_text self.old.client moment (event_of event.entry) past) }
    {
        match self.fetch.event(event) {
            FetchOut::Ask { tid, offset } => self.ask(moment, tid, offset, gathered),
            _ => Ok(()),
        }
    }

    /// Goes through the ticks of a log behind one, up to another: each of them is a Late. Those
    /// behind an end are skipped, since nothing is said on them.
    pub(crate) fn wait(
        &mut self,
        first: u64,
        tick: u64,
        last: u64,
        gathered: &mut TextBuffer,
    ) -> Result<(), NoMemory>
        requires low { tick < last → tick_moment first last < 2 ^ 64 }
        ensures client { self.new.client ≡ self.old.client }
        ensures asked { OnOk result ((past : List Event) → HasAsked past self.old
            → HasAsked (lates (last - tick) past) self.new) }
        ensures text { OnOk result ((past : List Event) → HasAsked past self.old
            → text_of gathered.new ≡ text_of gathered.old
            ++ lates_text self.old.client first tick (last - tick) past) }
    {
        fetch_laws();
        for n in 0..last.saturating_sub(tick) {
            if self.has_ended() {
                break;
            }
            self.take(first + (tick + n + 1) * SECOND, FetchEvent::Late, gathered)?;
        }
        Ok(())
    }

    /// Gathers what is said at the end.
    pub(crate) fn finish(&self, gathered: &mut TextBuffer) -> Result<(), NoMemory>
        ensures text { OnOk result ((past : List Event) → HasAsked past self.now
            → text_of gathered.new ≡ text_of gathered.old ++ outcome_text past) }
    {
        put_outcome(gathered, self.fetch.bytes(), self.fetch.end())
    }
}
