//! The front of a line, which many lines have in common.
ghost use Rattle.std.specs.Prelude.{◌≡◌, ◌≤◌, ◌<◌, ◌^◌, true, length};
ghost use Rattle.frame_log.specs.Reads.{front_of, IsClean, Reads};

use crate::digits::{after, cut};
use crate::line::seconds_of_any;
use crate::sixteen::equal_before;
use std::simd::prelude::*;

/// `(SECONDS` and the point of a line.
#[derive(Clone, Copy, Drop)]
pub struct Front {
    text: u8x16,
    /// The number of its bytes, at most 16.
    pub len: usize,
    /// The seconds that it says, below 10^12.
    pub seconds: u64,
    ghost reads: { Reads front_of text len seconds },
    ghost short: { len ≤ 16 },
    ghost bound: { seconds < 10 ^ 12 },
}

impl Front {
    /// That of a line at the moment 0.
    pub fn zero() -> Front {
        Front {
            text: u8x16::from_array([40, 48, 46, 0, 0, 0, 0, 0, 0, 0, 0, 0, 0, 0, 0, 0]),
            len: 3,
            seconds: 0,
        }
    }

    /// That of this line.
    pub fn of(line: &[u8]) -> Option<Front> {
        let a = after(b'(', line)?;
        let (seconds, rest) = seconds_of_any(a)?;
        if line.len() < 16 || rest.len() > line.len() || line.len() - rest.len() > 16 {
            return None;
        }
        let len = line.len() - rest.len();
        if !is_clean(&line[..len]) {
            return None;
        }
        Some(Front {
            text: u8x16::from_slice(line),
            len,
            seconds,
        })
    }

    /// Whether these bytes begin with it.
    #[inline(always)]
    pub fn is_at(&self, s: &[u8]) -> bool
        requires { 16 ≤ length s.now }
        ensures { result ≡ true → Reads front_of s.now self.now.len self.now.seconds }
    {
        equal_before(u8x16::from_slice(s), self.text) >= self.len
    }
}

/// Whether there is no newline and no carriage return.
pub fn is_clean(s: &[u8]) -> bool
    ensures { result ≡ true → IsClean s.now }
{
    cut(b'\n', s).is_none() && cut(b'\r', s).is_none()
}
