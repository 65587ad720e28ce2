ghost use Rattle.std.specs.Prelude.{◌≡◌, Some, None};

use crate::{Failed, Sink, Source};

/// Bytes in memory, of which no read fails.
#[derive(Drop)]
pub struct NeverSource<'a> {
    /// The bytes that are left.
    pub left: &'a [u8],
}

impl<'a> NeverSource<'a> {
    /// All of these bytes are left.
    pub fn new(left: &'a [u8]) -> NeverSource<'a>
        ensures { result.left.now ≡ left.now }
    {
        NeverSource { left }
    }
}

impl<'a> Source for NeverSource<'a> {
    ghost left = { λ s. Some s.left.now };

    ghost faults = { λ _. 0 };

    fn read(&mut self, buf: &mut [u8]) -> Result<usize, Failed> {
        let n = buf.len().min(self.left.len());
        let (first, others) = self.left.split_at(n);
        buf[..n].copy_from_slice(first);
        self.left = others;
        Ok(n)
    }
}

/// A sink that takes all bytes, of which no write fails. It keeps none of them and tells nothing: a
/// sink that keeps its bytes takes memory, and where that is refused it has to count a fault.
#[derive(Drop)]
pub struct NeverSink;

impl Sink for NeverSink {
    ghost written = { λ _. None };

    ghost faults = { λ _. 0 };

    fn write(&mut self, bytes: &[u8]) -> Result<usize, Failed> {
        Ok(bytes.len())
    }
}
