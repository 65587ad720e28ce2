ghost use Rattle.std.specs.Prelude.{◌≡◌, ◌≤◌, ◌<◌, ◌+◌, ◌^◌, ◌++◌, ◌∷◌, [], length, take, drop, replicate, if◌then◌else◌};
ghost use Rattle.frag.specs.Wire.{IsFrameSize, frames, is_single, padded, padding};
ghost use Rattle.transfer_crc.specs.Crc.{crc_bytes};

use crate::size;
use cy_bits::ShortList;
use std::marker::Model;
use tail_frame::Tail;
use transfer_crc::Crc;

/// The data bytes of each frame of a transfer, first to last, with their tails (Cyphal
/// Specification, section 4.2). Seen as the list of those that are left. No memory is taken.
#[derive(Drop)]
pub struct Frames<'a> {
    payload: &'a [u8],
    trailer: ShortList<u8, 64>,
    place: usize,
    room: u8,
    tid: u8,
    start: bool,
    toggle: bool,
    left: u64,
}

impl<'a> Model for Frames<'a> {
    ghost use Rattle.std.specs.Prelude.{List, ℕ, ◌++◌, ◌<◌, ◌≤◌, length, drop};
    ghost use Rattle.frag.specs.Cut.{cut};

    ghost Value = { List (List ℕ) };

    ghost view = { λ f. cut f.room f.tid
        (f.payload.now ++ drop f.place f.trailer) f.start f.toggle f.left };

    ghost invariant = { λ f. (f.room ≤ 63) × (f.tid < 32) × (f.place ≤ length f.trailer) };
}

impl<'a> Frames<'a> {
    /// The frames of a payload of at most 2^40 bytes (Cyphal Specification, section 4.1.3), with a
    /// transfer-ID of 0 to 31, in frames of `mtu` bytes, 8 or 64.
    pub fn new(payload: &'a [u8], tid: u8, mtu: u8) -> Frames<'a>
        requires mtu { IsFrameSize mtu }
        requires tid { tid < 32 }
        requires len { length payload.now ≤ 2 ^ 40 }
        ensures { result ≡ frames mtu payload.now tid }
    {
        Frames {
            payload,
            trailer: trailer(payload, mtu),
            place: 0,
            room: mtu - 1,
            tid,
            start: true,
            toggle: true,
            left: size::count(payload.len() as u64, mtu),
        }
    }
}

impl<'a> Iterator for Frames<'a> {
    ghost use Rattle.std.specs.Iterator.{YieldsFirst, item_count};

    type Item = ShortList<u8, 64>;

    ghost next_gives = { YieldsFirst (λ f. f) };

    ghost remaining = { item_count (λ f. f) };

    fn next(&mut self) -> Option<ShortList<u8, 64>> {
        if self.left == 0 {
            return None;
        }
        self.left -= 1;
        let mut bytes = ShortList::new();
        let room = self.room as usize;
        let more = room.saturating_sub(self.payload.len());
        self.payload = take_from(self.payload, room, &mut bytes);
        let trailer = behind(self.trailer.as_slice(), self.place);
        let rest = take_from(trailer, more, &mut bytes);
        self.place = self.trailer.len() - rest.len();
        let tail = Tail {
            start: self.start,
            end: self.left == 0,
            toggle: self.toggle,
            tid: self.tid,
        };
        bytes.push(tail.to_byte());
        self.start = false;
        self.toggle = !self.toggle;
        Some(bytes)
    }
}

/// What stands behind a payload: its padding, and the CRC where there are several frames.
fn trailer(payload: &[u8], mtu: u8) -> ShortList<u8, 64>
    requires mtu { IsFrameSize mtu }
    requires len { length payload.now ≤ 2 ^ 40 }
    ensures value { let size = length payload.now in
        let zeros = replicate (padding mtu size) 0 in
        result ≡ (if is_single mtu size then zeros else zeros
        ++ crc_bytes (padded mtu payload.now)) }
    ensures range { length result ≤ 17 }
{
    let mut bytes = zeros(size::padding(payload.len() as u64, mtu));
    if payload.len() < mtu as usize {
        return bytes;
    }
    let mut crc = Crc::new();
    crc.add(payload);
    crc.add(bytes.as_slice());
    bytes.push((crc.value() / 256) as u8);
    bytes.push((crc.value() % 256) as u8);
    bytes
}

/// As many zeros.
fn zeros(count: u8) -> ShortList<u8, 64>
    requires { count ≤ 15 }
    ensures { result ≡ replicate count 0 }
{
    let mut bytes = ShortList::new();
    for _ in 0..count {
        bytes.push(0);
    }
    bytes
}

/// The bytes from a place on.
fn behind(bytes: &[u8], place: usize) -> &[u8]
    requires { place ≤ length bytes.now }
    ensures { result.now ≡ drop place bytes.now }
{
    &bytes[place..]
}

/// Appends the first bytes of a row, at most `count`, to a list, and gives those behind them.
fn take_from<'a>(row: &'a [u8], count: usize, list: &mut ShortList<u8, 64>) -> &'a [u8]
    requires { length list.old + count ≤ 64 }
    ensures taken { list.new ≡ list.old ++ take count row.now }
    ensures left { result.now ≡ drop count row.now }
{
    let size = count.min(row.len());
    for byte in &row[..size] {
        list.push(*byte);
    }
    &row[size..]
}
