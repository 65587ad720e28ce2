ghost use Rattle.std.specs.Prelude.{◌≡◌, ◌<◌, ◌≤◌, [], Some, length, drop, true, false, MatchResult, OnErr, IfOk, OnOk};
ghost use Rattle.cy_outside.specs.Calls.{one_more, is_failing};
ghost use Rattle.cy_outside.specs.Outside.{HasCause, Takes, Adds};

use crate::{Calls, Failed, NeverSource, Sink, Source};
use cy_bits::Bytes;
use std::alloc::Global;

/// Bytes in memory, of which the reads with some numbers fail.
#[derive(Drop)]
pub struct MemSource<'a> {
    /// The bytes that are left.
    pub source: NeverSource<'a>,
    /// The reads.
    pub calls: Calls<'a>,
}

impl<'a> MemSource<'a> {
    /// All of these bytes are left, and the reads with these numbers, counted from 0, are to fail.
    pub fn new(left: &'a [u8], failing: &'a [u64]) -> MemSource<'a>
        ensures left { result.source.left.now ≡ left.now }
        ensures failing { result.calls.failing.now ≡ failing.now }
        ensures next { result.calls.next ≡ 0 }
        ensures faults { result.calls.faults ≡ 0 }
    {
        MemSource {
            source: NeverSource::new(left),
            calls: Calls::new(failing),
        }
    }

    /// One read, which fails exactly where its number is one of those that are to fail.
    /// `Source::read` is this call.
    pub fn counted_read(&mut self, buf: &mut [u8]) -> Result<usize, Failed>
        ensures fails { MatchResult result
            (λ _. is_failing self.old.calls.failing.now self.old.calls.next ≡ false)
            (λ _. is_failing self.old.calls.failing.now self.old.calls.next ≡ true) }
        ensures faults { MatchResult result
            (λ _. self.new.calls.faults ≡ self.old.calls.faults)
            (λ _. self.new.calls.faults ≡ one_more self.old.calls.faults) }
        ensures next { self.new.calls.next ≡ one_more self.old.calls.next }
        ensures failing { self.new.calls.failing.now ≡ self.old.calls.failing.now }
        ensures within { IfOk result (λ n. n ≤ length buf.old) }
        ensures takes { IfOk result (λ n. Takes (Some self.old.source.left.now)
            (Some self.new.source.left.now) buf.old buf.new n) }
        ensures behind { IfOk result (λ n. drop n buf.new ≡ drop n buf.old) }
        ensures failed { OnErr result
            (Some self.new.source.left.now ≡ Some self.old.source.left.now) }
        ensures cause { HasCause self.old.calls.faults self.new.calls.faults result }
        ensures count { self.old.calls.faults ≤ self.new.calls.faults }
    {
        let is_failing = self.calls.fails();
        if is_failing {
            Err(Failed)
        } else {
            self.source.read(buf)
        }
    }
}

impl<'a> Source for MemSource<'a> {
    ghost left = { λ s. Some s.source.left.now };

    ghost faults = { λ s. s.calls.faults };

    fn read(&mut self, buf: &mut [u8]) -> Result<usize, Failed> {
        self.counted_read(buf)
    }
}

/// Bytes written to memory. The writes with some numbers fail, and so do those that the allocator
/// refuses to grow for.
#[derive(Drop)]
pub struct MemSink<'a> {
    /// The bytes that were written.
    pub written: Bytes,
    /// The writes.
    pub calls: Calls<'a>,
}

impl<'a> MemSink<'a> {
    /// Nothing is written yet, and the writes with these numbers, counted from 0, are to fail.
    pub fn new(alloc: Global, failing: &'a [u64]) -> MemSink<'a>
        ensures written { result.written ≡ [] }
        ensures failing { result.calls.failing.now ≡ failing.now }
        ensures next { result.calls.next ≡ 0 }
        ensures faults { result.calls.faults ≡ 0 }
    {
        MemSink {
            written: Bytes::new(Vec::new(alloc)),
            calls: Calls::new(failing),
        }
    }

    /// One write, of all the bytes. It fails where its number is one of those that are to fail, and
    /// else at most for want of memory. `Sink::write` is this call.
    pub fn counted_write(&mut self, bytes: &[u8]) -> Result<usize, Failed>
        ensures fails { OnOk result
            (is_failing self.old.calls.failing.now self.old.calls.next ≡ false) }
        ensures faults { MatchResult result
            (λ _. self.new.calls.faults ≡ self.old.calls.faults)
            (λ _. self.new.calls.faults ≡ one_more self.old.calls.faults) }
        ensures next { self.new.calls.next ≡ one_more self.old.calls.next }
        ensures failing { self.new.calls.failing.now ≡ self.old.calls.failing.now }
        ensures whole { IfOk result (λ n. n ≡ length bytes.now) }
        ensures adds { IfOk result (λ n.
            Adds (Some self.old.written) (Some self.new.written) bytes.now n) }
        ensures failed { OnErr result (Some self.new.written ≡ Some self.old.written) }
        ensures within { IfOk result (λ n. n ≤ length bytes.now) }
        ensures some { IfOk result (λ n. 0 < length bytes.now → 0 < n) }
        ensures cause { HasCause self.old.calls.faults self.new.calls.faults result }
        ensures count { self.old.calls.faults ≤ self.new.calls.faults }
    {
        if self.calls.fails() {
            return Err(Failed);
        }
        let Ok(()) = self.written.extend(bytes) else {
            self.calls.fail();
            return Err(Failed);
        };
        Ok(bytes.len())
    }
}

impl<'a> Sink for MemSink<'a> {
    ghost written = { λ s. Some s.written };

    ghost faults = { λ s. s.calls.faults };

    fn write(&mut self, bytes: &[u8]) -> Result<usize, Failed> {
        self.counted_write(bytes)
    }
}
