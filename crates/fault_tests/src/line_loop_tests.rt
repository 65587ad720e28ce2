//! A small listener, and what it says to inputs.
ghost use Rattle.std.specs.Prelude.{◌≡◌, ◌≢◌, ◌+◌, ◌++◌, ◌∷◌, ◌%◌, [], Some, length, MatchResult};
ghost use Rattle.line_loop.specs.Reply.{by_number, no_words};

use cy_bits::NoMemory;
use cy_outside::{Calls, Failed, MemSink, MemSource, Source};
use line_loop::{LineBounds, LineListener, LineStop, LinesEnded, listen_lines};
use line_text::TextBuffer;
use std::test::Fail;

/// Why `Numbers` refuses a line.
#[derive(Clone, Copy, Debug, PartialEq, Eq)]
enum Refusal {
    /// The line has three bytes.
    Bad(u64),
    /// The line is too long.
    Long(u64),
}

/// Says to each line the last digit of its number, and the line, but refuses one of three bytes.
#[derive(Drop)]
struct Numbers {
    /// The last line that there is memory for.
    memory: u64,
}

impl LineListener for Numbers {
    ghost use Rattle.fault_tests.specs.declared.line_loop_tests.Refusal.TheVariants.{Bad, Long};

    type Refusal = Refusal;

    ghost answers = { λ s. by_number (λ number line a. MatchResult a
        (λ text. (length line ≢ 3) × (text ≡ (48 + number % 10) ∷ [] ++ (line ++ 10 ∷ [])))
        (λ refusal. (length line ≡ 3) × (refusal ≡ Bad number))) };

    ghost last = { λ s. no_words };

    ghost long = { λ number. Long number };

    ghost heard = { λ first now past. now ≡ first };

    fn hear(
        &mut self,
        number: u64,
        line: &[u8],
        gathered: &mut TextBuffer,
    ) -> Result<(), LineStop<Refusal>> {
        if line.len() == 3 {
            return Err(LineStop::Refused(Refusal::Bad(number)));
        }
        if number > self.memory {
            return Err(LineStop::NoMemory);
        }
        let digit = [b'0' + (number % 10) as u8];
        let Ok(()) = gathered.reserve(line.len().saturating_add(2)) else {
            return Err(LineStop::NoMemory);
        };
        gathered.put_slice(&digit);
        gathered.put_slice(line);
        gathered.put_slice(b"\n");
        Ok(())
    }

    fn finish(&mut self, _gathered: &mut TextBuffer) -> Result<(), NoMemory> {
        Ok(())
    }

    fn too_long(&self, number: u64) -> Refusal {
        Refusal::Long(number)
    }
}

/// One with memory for each line.
fn with_memory() -> Numbers {
    Numbers { memory: u64::MAX }
}

/// Bytes that come one by one; the reads with some numbers fail.
#[derive(Drop)]
struct OneByOne<'a> {
    left: &'a [u8],
    calls: Calls<'a>,
}

impl<'a> Source for OneByOne<'a> {
    ghost left = { λ s. Some s.left.now };

    ghost faults = { λ s. s.calls.faults };

    fn read(&mut self, buf: &mut [u8]) -> Result<usize, Failed> {
        if self.calls.fails() {
            return Err(Failed);
        }
        let n = buf.len().min(self.left.len()).min(1);
        let (first, others) = self.left.split_at(n);
        buf[..n].copy_from_slice(first);
        self.left = others;
        Ok(n)
    }
}

/// An input, the most bytes of it that count, and what comes of it where a line has four bytes at
/// most.
#[derive(Drop)]
struct Expected<'a> {
    input: &'a [u8],
    all: u64,
    ended: LinesEnded<Refusal>,
    written: &'a [u8],
}

fn row<'a>(
    input: &'a [u8],
    all: u64,
    ended: LinesEnded<Refusal>,
    written: &'a [u8],
) -> Expected<'a> {
    Expected {
        input,
        all,
        ended,
        written,
    }
}

#[test]
fn lines_are_answered_in_order(rt: HostRuntime) -> Result<(), Fail> {
    let bad = LinesEnded::Refused(Refusal::Bad(2));
    let long = LinesEnded::Refused(Refusal::Long(2));
    let rows = [
        row(b"", 20, LinesEnded::Ok, b""),
        row(b"\n", 20, LinesEnded::Ok, b"1\n"),
        row(b"\n\nab", 20, LinesEnded::Ok, b"1\n2\n3ab\n"),
        row(b"ab\ncd\n", 6, LinesEnded::Ok, b"1ab\n2cd\n"),
        row(b"ab\ncd", 5, LinesEnded::Ok, b"1ab\n2cd\n"),
        row(b"a\r\nabcd\n", 20, LinesEnded::Ok, b"1a\r\n2abcd\n"),
        row(b"a\nabcde\nbad", 20, long, b"1a\n"),
        row(b"a\nabcde", 20, long, b"1a\n"),
        row(b"a\nbad\nabcde\n", 20, bad, b"1a\n"),
        row(b"a\nbad", 20, bad, b"1a\n"),
        row(b"ab\ncd\ne\n", 6, LinesEnded::TooLong, b"1ab\n2cd\n"),
        row(b"ab\ncdefgh\n", 4, LinesEnded::TooLong, b"1ab\n"),
        row(b"ab\ncdefgh\n", 7, LinesEnded::TooLong, b"1ab\n"),
        row(b"ab\ncdefgh\n", 8, long, b"1ab\n"),
        row(b"a\nbad\nabcdef", 6, bad, b"1a\n"),
    ];
    for row in rows {
        let bounds = LineBounds {
            line: 4,
            all: row.all,
        };
        let mut input = MemSource::new(row.input, &[]);
        let mut out = MemSink::new(rt.alloc(), &[]);
        let ended = listen_lines(rt.alloc(), &mut with_memory(), bounds, &mut input, &mut out);
        assert_eq!(rt; ended, row.ended);
        assert_eq!(rt; out.written.as_slice(), row.written);
        let mut slow = OneByOne {
            left: row.input,
            calls: Calls::new(&[]),
        };
        let mut again = MemSink::new(rt.alloc(), &[]);
        let ended = listen_lines(
            rt.alloc(),
            &mut with_memory(),
            bounds,
            &mut slow,
            &mut again,
        );
        assert_eq!(rt; ended, row.ended);
        assert_eq!(rt; again.written.as_slice(), row.written);
    }
    Ok(())
}

/// The read that fails, and what is written before it.
#[derive(Drop)]
struct BeforeFault<'a> {
    read: u64,
    written: &'a [u8],
}

fn fault(read: u64, written: &[u8]) -> BeforeFault<'_> {
    BeforeFault { read, written }
}

#[test]
fn a_read_fault_leaves_the_answers_to_the_lines_before(rt: HostRuntime) -> Result<(), Fail> {
    let bounds = LineBounds { line: 4, all: 20 };
    let faults = [
        fault(0, b""),
        fault(1, b""),
        fault(2, b""),
        fault(3, b"1ab\n"),
        fault(4, b"1ab\n"),
        fault(5, b"1ab\n"),
        fault(6, b"1ab\n2cd\n"),
        fault(7, b"1ab\n2cd\n"),
        fault(8, b"1ab\n2cd\n"),
    ];
    for fault in faults {
        let failing = [fault.read];
        let mut input = OneByOne {
            left: b"ab\ncd\nef",
            calls: Calls::new(&failing),
        };
        let mut out = MemSink::new(rt.alloc(), &[]);
        let ended = listen_lines(rt.alloc(), &mut with_memory(), bounds, &mut input, &mut out);
        assert_eq!(rt; ended, LinesEnded::ReadFault);
        assert_eq!(rt; out.written.as_slice(), fault.written);
    }
    Ok(())
}

#[test]
fn a_write_fault_ends_the_loop(rt: HostRuntime) -> Result<(), Fail> {
    let bounds = LineBounds { line: 4, all: 20 };
    let mut input = OneByOne {
        left: b"ab\ncd\nbad",
        calls: Calls::new(&[]),
    };
    let mut out = MemSink::new(rt.alloc(), &[1]);
    let ended = listen_lines(rt.alloc(), &mut with_memory(), bounds, &mut input, &mut out);
    assert_eq!(rt; ended, LinesEnded::WriteFault);
    assert_eq!(rt; out.written.as_slice(), b"1ab\n".as_slice());
    Ok(())
}

#[test]
fn want_of_memory_ends_the_loop(rt: HostRuntime) -> Result<(), Fail> {
    let bounds = LineBounds { line: 4, all: 20 };
    let mut input = OneByOne {
        left: b"ab\ncd\nbad",
        calls: Calls::new(&[]),
    };
    let mut out = MemSink::new(rt.alloc(), &[]);
    let mut one = Numbers { memory: 1 };
    let ended = listen_lines(rt.alloc(), &mut one, bounds, &mut input, &mut out);
    assert_eq!(rt; ended, LinesEnded::NoMemory);
    assert_eq!(rt; out.written.as_slice(), b"1ab\n".as_slice());
    Ok(())
}

#[test]
fn an_input_may_be_longer_than_a_block(rt: HostRuntime) -> Result<(), NoMemory> {
    let bounds = LineBounds {
        line: 200_000,
        all: 200_000,
    };
    let lines = vec![in rt.alloc(); b'\n'; 200_000]?;
    let mut input = MemSource::new(&lines, &[]);
    let mut out = MemSink::new(rt.alloc(), &[]);
    let ended = listen_lines(rt.alloc(), &mut with_memory(), bounds, &mut input, &mut out);
    assert_eq!(rt; ended, LinesEnded::Ok);
    assert_eq!(rt; out.written.len(), 400_000);
    assert!(rt; out.written.as_slice().ends_with(b"8\n9\n0\n"));
    let line = vec![in rt.alloc(); b'a'; 200_000]?;
    let mut input = MemSource::new(&line, &[]);
    let mut out = MemSink::new(rt.alloc(), &[]);
    let ended = listen_lines(rt.alloc(), &mut with_memory(), bounds, &mut input, &mut out);
    assert_eq!(rt; ended, LinesEnded::Ok);
    assert_eq!(rt; out.written.len(), 200_002);
    assert!(rt; out.written.as_slice().starts_with(b"1aa"));
    Ok(())
}

/// Says to each line nothing, but refuses one of three bytes, and at the end the last digit of how many
/// lines it has heard.
#[derive(Drop)]
struct Count {
    /// How many lines it has heard.
    lines: u64,
}

impl LineListener for Count {
    ghost use Rattle.fault_tests.specs.declared.line_loop_tests.Refusal.TheVariants.{Bad, Long};

    type Refusal = Refusal;

    ghost answers = { λ s past line a. MatchResult a
        (λ text. (length line ≢ 3) × (text ≡ []))
        (λ refusal. (length line ≡ 3) × (refusal ≡ Bad (length past + 1))) };

    ghost last = { λ s past words. words ≡ (48 + length past % 10) ∷ 10 ∷ [] };

    ghost long = { λ number. Long number };

    ghost heard = { λ first now past. now.lines ≡ length past };

    fn hear(
        &mut self,
        number: u64,
        line: &[u8],
        _gathered: &mut TextBuffer,
    ) -> Result<(), LineStop<Refusal>> {
        if line.len() == 3 {
            return Err(LineStop::Refused(Refusal::Bad(number)));
        }
        self.lines = number;
        Ok(())
    }

    fn finish(&mut self, gathered: &mut TextBuffer) -> Result<(), NoMemory> {
        let words = [b'0' + (self.lines % 10) as u8, b'\n'];
        gathered.push(&words)
    }

    fn too_long(&self, number: u64) -> Refusal {
        Refusal::Long(number)
    }
}

#[test]
fn last_words_come_at_the_end_and_before_a_refusal(rt: HostRuntime) -> Result<(), Fail> {
    let bad = LinesEnded::Refused(Refusal::Bad(2));
    let long = LinesEnded::Refused(Refusal::Long(2));
    let rows = [
        row(b"", 20, LinesEnded::Ok, b"0\n"),
        row(b"a\n\nab", 20, LinesEnded::Ok, b"3\n"),
        row(b"ab\ncd\n", 6, LinesEnded::Ok, b"2\n"),
        row(b"a\nbad\nab\n", 20, bad, b"1\n"),
        row(b"a\nbad", 20, bad, b"1\n"),
        row(b"a\nabcde\nab", 20, long, b"1\n"),
        row(b"a\nabcde", 20, long, b"1\n"),
        row(b"ab\ncd\ne\n", 6, LinesEnded::TooLong, b"2\n"),
    ];
    for row in rows {
        let bounds = LineBounds {
            line: 4,
            all: row.all,
        };
        let mut slow = OneByOne {
            left: row.input,
            calls: Calls::new(&[]),
        };
        let mut out = MemSink::new(rt.alloc(), &[]);
        let mut count = Count { lines: 0 };
        let ended = listen_lines(rt.alloc(), &mut count, bounds, &mut slow, &mut out);
        assert_eq!(rt; ended, row.ended);
        assert_eq!(rt; out.written.as_slice(), row.written);
    }
    Ok(())
}

#[test]
fn a_read_fault_has_no_last_words(rt: HostRuntime) -> Result<(), Fail> {
    let bounds = LineBounds { line: 4, all: 20 };
    let mut input = OneByOne {
        left: b"ab\ncd\nef",
        calls: Calls::new(&[7]),
    };
    let mut out = MemSink::new(rt.alloc(), &[]);
    let mut count = Count { lines: 0 };
    let ended = listen_lines(rt.alloc(), &mut count, bounds, &mut input, &mut out);
    assert_eq!(rt; ended, LinesEnded::ReadFault);
    assert_eq!(rt; out.written.as_slice(), b"".as_slice());
    Ok(())
}
