ghost use Rattle.std.specs.Prelude.{◌≡◌, ◌≤◌, ◌<◌, ◌^◌, length, true};
ghost use Rattle.file_client.specs.Fetch.{is_end_if_any};

use crate::{FetchEvent, FetchOut};
use cy_bits::{Bytes, NoMemory};
use std::alloc::Global;

/// How many bytes a reply has at most; one with fewer ends the file.
const PIECE: usize = 256;

/// How many requests at one offset may be late until the client gives up.
const MOST_LATE: u8 = 8;

/// A client that fetches a file (Cyphal Specification, section 5.3.7).
///
/// It stands for a list of events: those that `event` was called with. Only `open` takes memory.
#[derive(Drop)]
pub struct Fetch {
    /// The file so far, and behind it room up to the limit.
    buffer: Bytes,
    /// The number of bytes of the file so far.
    count: usize,
    /// The transfer-ID of the request that is out.
    tid: u8,
    /// How often a request was late since the offset changed.
    lates: u8,
    /// The end, once it came.
    end: Option<FetchOut>,
    ghost fits: { count ≤ length buffer },
    ghost limited: { length buffer < 2 ^ 32 },
    ghost cyclic: { tid < 32 },
    ghost few: { lates < 8 },
    ghost ended: { is_end_if_any end ≡ true },
}

impl Fetch {
    ghost use Rattle.std.specs.Prelude.{ℕ, List, [], ◌∷◌, IfOk, None};
    ghost use Rattle.file_client.specs.Fetch.{Event, State, fetched, answer, tid_of, offset_of, ask, finish, on_late, on_piece, on_reply, is_end, AsksInRange};
    ghost use Rattle.file_client.specs.Stands.{Keeps, Stands, event_of, IsShort};

    /// Request 0, at offset 0, is out. Reserves `limit` bytes, as many as the file may have.
    pub fn open(alloc: Global, limit: u32) -> Result<Fetch, NoMemory>
        ensures { IfOk result (λ f. Stands limit [] f) }
    {
        let buffer = Bytes::zeros(alloc, limit as usize)?;
        Ok(Fetch {
            buffer,
            count: 0,
            tid: 0,
            lates: 0,
            end: None,
        })
    }

    /// Takes an event, and answers what the client does now. A reply has at most 256 bytes.
    ///
    /// A reply to another request than the one that is out changes nothing. A code that isn't 0 ends the fetch,
    /// and so do bytes past the limit, fewer than 256 bytes, and the eighth Late at one offset. Anything else is
    /// followed by the next request. After an end each event is answered by it, and nothing changes.
    pub fn event(&mut self, ev: FetchEvent<'_>) -> FetchOut
        requires { IsShort (event_of ev) }
        ensures stands { (limit : ℕ) (past : List Event)
            → Stands limit past self.old → Stands limit (event_of ev.entry ∷ past) self.new }
        ensures answer { (limit : ℕ) (past : List Event)
            → Stands limit past self.old → result ≡ answer limit (event_of ev.entry) past }
        ensures tid { AsksInRange result }
    {
        if let Some(end) = self.end {
            return end;
        }
        match ev {
            FetchEvent::Reply { tid, code, bytes } => self.reply(tid, code, bytes),
            FetchEvent::Late => self.late(),
        }
    }

    /// The transfer-ID of the request that is out, 0 to 31; after an end that of the last one.
    pub fn tid(&self) -> u8
        ensures { (limit : ℕ) (past : List Event)
            → Stands limit past self.now → result ≡ tid_of (fetched limit past) }
    {
        self.tid
    }

    /// The number of bytes of the file so far, which is the offset of the request that is out.
    pub fn offset(&self) -> u64
        ensures { (limit : ℕ) (past : List Event)
            → Stands limit past self.now → result ≡ offset_of (fetched limit past) }
    {
        self.count as u64
    }

    /// The bytes of the file so far.
    pub fn bytes(&self) -> &[u8]
        ensures file { (limit : ℕ) (past : List Event)
            → Stands limit past self.now → result.now ≡ (fetched limit past).file }
        ensures few { length result.now < 2 ^ 32 }
    {
        &self.buffer.as_slice()[..self.count]
    }

    /// The end, once it came.
    pub fn end(&self) -> Option<FetchOut>
        ensures { (limit : ℕ) (past : List Event)
            → Stands limit past self.now → result ≡ (fetched limit past).end }
    {
        self.end
    }

    /// A reply before any end.
    fn reply(&mut self, tid: u8, code: u16, bytes: &[u8]) -> FetchOut
        requires { length bytes.now ≤ 256 }
        ensures keeps { (limit : ℕ) (s : State) → Keeps limit s self.old
            → Keeps limit (on_reply limit s tid code bytes.now).0 self.new }
        ensures answer { (limit : ℕ) (s : State) → Keeps limit s self.old
            → result ≡ (on_reply limit s tid code bytes.now).1 }
        ensures tid { AsksInRange result }
    {
        if tid != self.tid {
            FetchOut::Wait
        } else if code != 0 {
            self.finish(FetchOut::Refused { code })
        } else {
            self.piece(bytes)
        }
    }

    /// The bytes at the offset of the request that is out.
    fn piece(&mut self, bytes: &[u8]) -> FetchOut
        requires { length bytes.now ≤ 256 }
        ensures keeps { (limit : ℕ) (s : State) → Keeps limit s self.old
            → Keeps limit (on_piece limit s bytes.now).0 self.new }
        ensures answer { (limit : ℕ) (s : State) → Keeps limit s self.old
            → result ≡ (on_piece limit s bytes.now).1 }
        ensures tid { AsksInRange result }
    {
        let length = self.count + bytes.len();
        if length > self.buffer.len() {
            return self.finish(FetchOut::TooLong {
                length: length as u64,
            });
        }
        self.buffer.put_at(self.count, bytes);
        self.count = length;
        if bytes.len() < PIECE {
            return self.finish(FetchOut::Done);
        }
        self.lates = 0;
        self.ask()
    }

    /// A Late before any end.
    fn late(&mut self) -> FetchOut
        ensures keeps { (limit : ℕ) (s : State) → Keeps limit s self.old
            → Keeps limit (on_late s).0 self.new }
        ensures answer { (limit : ℕ) (s : State) → Keeps limit s self.old
            → result ≡ (on_late s).1 }
        ensures tid { AsksInRange result }
    {
        if self.lates + 1 == MOST_LATE {
            return self.finish(FetchOut::GaveUp {
                offset: self.count as u64,
            });
        }
        self.lates += 1;
        self.ask()
    }

    /// Makes the next request.
    fn ask(&mut self) -> FetchOut
        ensures keeps { (limit : ℕ) (s : State) → Keeps limit s self.old
            → Keeps limit (ask s).0 self.new }
        ensures answer { (limit : ℕ) (s : State) → Keeps limit s self.old
            → result ≡ (ask s).1 }
        ensures tid { AsksInRange result }
    {
        self.tid = (self.tid + 1) % 32;
        FetchOut::Ask {
            tid: self.tid,
            offset: self.count as u64,
        }
    }

    /// Ends the fetch.
    fn finish(&mut self, end: FetchOut) -> FetchOut
        requires { is_end end ≡ true }
        ensures keeps { (limit : ℕ) (s : State) → Keeps limit s self.old
            → Keeps limit (finish s end).0 self.new }
        ensures answer { result ≡ end }
    {
        self.end = Some(end);
        end
    }
}
