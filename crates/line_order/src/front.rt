//! The front of a line, which many lines have in common.
ghost use Rattle.std.specs.Prelude.{◌≡◌, ◌≤◌, ◌<◌, ◌^◌, true, length, take};
ghost use Rattle.line_order.specs.Front.{IsFront};

use crate::form::{after, seconds};
use std::simd::prelude::*;

/// `(SECONDS` and the point of a line.
#[derive(Clone, Copy, Drop)]
pub struct Front {
    /// The first bytes of the line.
    text: u8x16,
    /// How many of them count.
    pub len: usize,
    /// The seconds.
    pub seconds: u64,
    ghost is: { IsFront text len seconds },
    ghost short: { len ≤ 16 },
    ghost bound: { seconds < 10 ^ 12 },
}

impl Front {
    /// That of a line at the moment 0.
    pub fn zero() -> Front {
        Front {
            text: u8x16::from_array([40, 48, 46, 0, 0, 0, 0, 0, 0, 0, 0, 0, 0, 0, 0, 0]),
            len: 3,
            seconds: 0,
        }
    }

    /// That of this line.
    #[inline(never)]
    pub fn of(line: &[u8]) -> Option<Front> {
        let digits = after(b'(', line)?;
        let (seconds, behind) = seconds(digits)?;
        if line.len() < 16 || behind.len() > line.len() || line.len() - behind.len() > 16 {
            return None;
        }
        Some(Front {
            text: u8x16::from_slice(line),
            len: line.len() - behind.len(),
            seconds,
        })
    }

    /// Whether a line begins with it.
    #[inline(always)]
    pub fn is_at(&self, line: &[u8]) -> bool
        requires { 16 ≤ length line.now }
        ensures { result ≡ true → IsFront line.now self.now.len self.now.seconds }
    {
        equal_before(u8x16::from_slice(line), self.text) >= self.len
    }
}

/// How many of the first lanes are equal.
#[inline(always)]
fn equal_before(a: u8x16, b: u8x16) -> usize
    ensures same { take result a ≡ take result b }
    ensures within { result ≤ 16 }
{
    let other = a.simd_ne(b).to_bitmask();
    if other == 0 {
        16
    } else {
        other.trailing_zeros() as usize
    }
}
