ghost use Rattle.std.specs.Prelude.{◌≡◌, ◌<◌, ◌%◌, ◌*◌, IfSome, IfNone, length};
ghost use Rattle.wire_values.specs.Reads.{IsWindow, behind};

/// So many bytes from a place on, if they are there.
pub fn window(bytes: &[u8], place: u64, count: u64) -> Option<&[u8]>
    requires { place % 8 ≡ 0 }
    ensures some { IfSome result (λ w. IsWindow bytes.now place count w.now) }
    ensures none { IfNone result (length (behind bytes.now place) < 8 * count) }
{
    let len = bytes.len() as u64;
    let at = (place / 8).min(len);
    if count > len - at {
        return None;
    }
    Some(&bytes[at as usize..(at + count) as usize])
}
