ghost use Rattle.std.specs.Prelude.{◌≡◌, ◌≤◌, ◌<◌, ◌+◌, ◌^◌, List, ℕ, length, IsTrue, ◌↔◌};
ghost use Rattle.frag.specs.Wire.{IsFrameSize, IsLeastPadding, fitting, last_size, padding, last_frame};

/// The number of frames of a payload of `len` bytes, at most 2^40, in frames of `mtu` bytes, 8 or
/// 64 (Cyphal Specification, section 4.2).
pub fn count(len: u64, mtu: u8) -> u64
    requires mtu { IsFrameSize mtu }
    requires len { len ≤ 2 ^ 40 }
    ensures { (payload : List ℕ) → length payload ≡ len → result ≡ last_frame mtu payload + 1 }
{
    let room = mtu as u64 - 1;
    if len <= room { 1 } else { (len + 1) / room + 1 }
}

/// The number of zero bytes behind a payload of `len` bytes: as few as give its last frame a length
/// that a frame can have (Cyphal Specification, section 4.2).
#[tactic(auto, unfolding(crate::specs::Wire::padding))]
pub(crate) fn padding(len: u64, mtu: u8) -> u8
    requires mtu { IsFrameSize mtu }
    requires len { len < 2 ^ 63 }
    ensures value { result ≡ padding mtu len }
    ensures least { IsLeastPadding mtu len result }
    ensures small { result ≤ 15 }
{
    let size = last_size(len, mtu);
    fitting(size) - size
}

/// The number of data bytes of the last frame with its tail, without padding.
#[tactic(auto, unfolding(crate::specs::Wire::last_size))]
fn last_size(len: u64, mtu: u8) -> u8
    requires mtu { IsFrameSize mtu }
    requires len { len < 2 ^ 63 }
    ensures value { result ≡ last_size mtu len }
    ensures range { result ≤ mtu }
{
    let room = mtu as u64 - 1;
    if len <= room {
        len as u8 + 1
    } else {
        ((len + 1) % room) as u8 + 2
    }
}

/// The least number of data bytes that a frame can have, not below `size`.
#[tactic(auto, unfolding(crate::specs::Wire::fitting))]
fn fitting(size: u8) -> u8
    requires { size ≤ 64 }
    ensures value { result ≡ fitting size }
    ensures range { size ≤ result }
    ensures close { result ≤ size + 15 }
{
    match size {
        0..=8 => size,
        9..=12 => 12,
        13..=16 => 16,
        17..=20 => 20,
        21..=24 => 24,
        25..=32 => 32,
        33..=48 => 48,
        _ => 64,
    }
}
