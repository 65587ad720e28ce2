//! An input and an output in memory that give and take a few bytes at a time.
ghost use Rattle.std.specs.Prelude.{Some};

use cy_bits::Bytes;
use cy_outside::{Calls, Failed, Sink, Source};
use std::alloc::Global;

/// The most bytes that a read gives and a write takes.
const MOST: usize = 48;

/// Bytes that come a few a read, of which the reads with some numbers fail.
#[derive(Drop)]
pub struct NarrowSource<'a> {
    pub left: &'a [u8],
    pub calls: Calls<'a>,
}

impl<'a> NarrowSource<'a> {
    /// All of these bytes are left, and the reads with these numbers, counted from 0, are to fail.
    pub fn new(left: &'a [u8], failing: &'a [u64]) -> NarrowSource<'a> {
        let calls = Calls::new(failing);
        NarrowSource { left, calls }
    }
}

impl<'a> Source for NarrowSource<'a> {
    ghost left = { λ s. Some s.left.now };

    ghost faults = { λ s. s.calls.faults };

    fn read(&mut self, buf: &mut [u8]) -> Result<usize, Failed> {
        if self.calls.fails() {
            return Err(Failed);
        }
        let n = buf.len().min(self.left.len()).min(MOST);
        let (first, others) = self.left.split_at(n);
        buf[..n].copy_from_slice(first);
        self.left = others;
        Ok(n)
    }
}

/// Bytes written to memory, a few a write. The writes with some numbers fail.
#[derive(Drop)]
pub struct NarrowSink<'a> {
    pub written: Bytes,
    pub calls: Calls<'a>,
}

impl<'a> NarrowSink<'a> {
    /// Nothing is written yet, and the writes with these numbers, counted from 0, are to fail.
    pub fn new(alloc: Global, failing: &'a [u64]) -> NarrowSink<'a> {
        NarrowSink {
            written: Bytes::new(Vec::new(alloc)),
            calls: Calls::new(failing),
        }
    }
}

impl<'a> Sink for NarrowSink<'a> {
    ghost written = { λ s. Some s.written };

    ghost faults = { λ s. s.calls.faults };

    fn write(&mut self, bytes: &[u8]) -> Result<usize, Failed> {
        if self.calls.fails() {
            return Err(Failed);
        }
        let n = bytes.len().min(MOST);
        let Ok(()) = self.written.extend(&bytes[..n]) else {
            self.calls.fail();
            return Err(Failed);
        };
        Ok(n)
    }
}
