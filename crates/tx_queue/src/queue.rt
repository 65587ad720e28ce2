ghost use Rattle.std.specs.Prelude.{◌≤◌, vec_len, vec_capacity};

use crate::least::first_least;
use crate::{Full, OutFrame};
use cy_bits::NoMemory;
use frag::{Frames, count};
use std::alloc::Global;

/// The frames that wait to be sent on a bus, in the order of pushing (Cyphal Specification,
/// section 4.2).
///
/// Only `new` takes memory.
#[derive(Drop)]
pub struct TxQueue {
    /// How many frames may wait.
    pub places: u32,
    /// Those that wait.
    pub waiting: Vec<OutFrame>,
    pub ghost few: { vec_len waiting ≤ places },
    pub ghost room: { places ≤ vec_capacity waiting },
}

impl TxQueue {
    ghost use Rattle.std.specs.Prelude.{◌≡◌, ◌↔◌, ◌<◌, ◌^◌, ◌++◌, ◌∷◌, [], length, IfOk, IfErr, IsErr, OnErr, OnOk};
    ghost use Rattle.frag.specs.Wire.{IsFrameSize};
    ghost use Rattle.tx_queue.specs.Waiting.{free, leaving, needed, out_frames, staying};

    /// Nothing waits. Reserves the places.
    pub fn new(alloc: Global, places: u32) -> Result<TxQueue, NoMemory>
        ensures places { IfOk result (λ q. q.places ≡ places) }
        ensures empty { IfOk result (λ q. q.waiting.items ≡ []) }
    {
        let waiting = Vec::with_capacity(alloc, places as usize)?;
        Ok(TxQueue { places, waiting })
    }

    /// Puts the frames of a transfer at the end of the list, each with the identifier (Cyphal
    /// Specification, section 4.1.3): a payload of at most 2^40 bytes with a transfer-ID of 0 to
    /// 31, in frames of `mtu` bytes, 8 or 64.
    ///
    /// Answers Full, and puts none of them, where they are more than the free places.
    pub fn push_transfer(
        &mut self,
        ident: u32,
        tid: u8,
        payload: &[u8],
        mtu: u8,
    ) -> Result<(), Full>
        requires mtu { IsFrameSize mtu }
        requires tid { tid < 32 }
        requires len { length payload.now ≤ 2 ^ 40 }
        ensures ok { OnOk result (self.new.waiting.items
            ≡ self.old.waiting.items ++ out_frames ident mtu payload.now tid) }
        ensures full { IsErr result
            ↔ (free self.old.places self.old.waiting.items < needed mtu payload.now tid) }
        ensures needed { IfErr result (λ e. e.needed ≡ needed mtu payload.now tid) }
        ensures free { IfErr result (λ e. e.free ≡ free self.old.places self.old.waiting.items) }
        ensures err { OnErr result (self.new.waiting.items ≡ self.old.waiting.items) }
        ensures places { self.new.places ≡ self.old.places }
    {
        let needed = count(payload.len() as u64, mtu);
        let free = self.places as u64 - self.waiting.len() as u64;
        if needed > free {
            return Err(Full { needed, free });
        }
        for bytes in Frames::new(payload, tid, mtu) {
            self.put(OutFrame { ident, bytes });
        }
        Ok(())
    }

    /// Takes the first of the frames with the least identifier, as the bus does (Cyphal
    /// Specification, section 4.2); None where nothing waits. The others stay in their order.
    pub fn pop(&mut self) -> Option<OutFrame>
        ensures frame { result ≡ leaving self.old.waiting.items }
        ensures others { self.new.waiting.items ≡ staying self.old.waiting.items }
        ensures places { self.new.places ≡ self.old.places }
    {
        if self.waiting.is_empty() {
            return None;
        }
        let place = first_least(self.waiting.as_slice());
        Some(self.waiting.remove(place))
    }

    /// Puts a frame at the end of the list. There is a place for it.
    fn put(&mut self, frame: OutFrame)
        requires { length self.old.waiting.items < self.old.places }
        ensures waiting { self.new.waiting.items ≡ self.old.waiting.items ++ frame ∷ [] }
        ensures places { self.new.places ≡ self.old.places }
    {
        let _ = self.waiting.push(frame);
    }
}
