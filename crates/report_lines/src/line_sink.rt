//! Where a run puts the lines of its report.
ghost use Rattle.std.specs.Prelude.{◌≡◌, [], ◌∷◌, OnOk, OnErr};
ghost use Rattle.report_lines.specs.LineSinks.{put_behind};
ghost use Rattle.report_lines.specs.Lent.{owned};

use crate::line::Line;
use crate::line_ref::LineRef;
use cy_bits::{List, NoMemory};
use std::alloc::Global;

/// Where lines go, one after the other.
pub trait LineSink {
    ghost use Rattle.std.specs.Prelude.{ℕ, List as ListOf, Option as OptionOf};
    ghost use Rattle.report_lines.specs.declared.line.Line.{Line as LineOf};

    /// The lines that were put, where it tells them.
    ghost lines: { Self → OptionOf (ListOf LineOf) };

    /// The lines of the log on which requests ended in which the tree failed, where it tells them.
    ghost failed: { Self → OptionOf (ListOf ℕ) };

    /// Puts a line behind the others. Want of memory leaves the lines as they were.
    fn put(&mut self, line: &LineRef<'_>) -> Result<(), NoMemory>
        ensures adds { OnOk result
            (lines self.new ≡ put_behind (lines self.old) (owned line.now ∷ [])) }
        ensures err { OnErr result (lines self.new ≡ lines self.old) }
        ensures failed { failed self.new ≡ failed self.old };

    /// Puts the line of the log of a request in which the tree failed behind the others. Want of
    /// memory leaves them as they were.
    fn fail(&mut self, line: u64) -> Result<(), NoMemory>
        ensures adds { OnOk result (failed self.new ≡ put_behind (failed self.old) (line ∷ [])) }
        ensures err { OnErr result (failed self.new ≡ failed self.old) }
        ensures lines { lines self.new ≡ lines self.old };
}

/// A list of the lines that were put.
#[derive(Drop)]
pub struct KeptLines {
    /// The lines, in their order.
    pub lines: List<Line>,
    /// The lines of the log on which requests ended in which the tree failed, in their order.
    pub failed: List<u64>,
    alloc: Global,
}

impl KeptLines {
    /// A sink that has nothing yet. Takes no memory.
    pub fn new(alloc: Global) -> KeptLines
        ensures lines { result.lines ≡ [] }
        ensures failed { result.failed ≡ [] }
    {
        KeptLines {
            lines: List::empty(alloc),
            failed: List::empty(alloc),
            alloc,
        }
    }
}

impl LineSink for KeptLines {
    ghost use Rattle.std.specs.Prelude.{Some};

    ghost lines = { λ kept. Some kept.lines };

    ghost failed = { λ kept. Some kept.failed };

    fn put(&mut self, line: &LineRef<'_>) -> Result<(), NoMemory> {
        self.lines.push(line.copy(self.alloc)?)
    }

    fn fail(&mut self, line: u64) -> Result<(), NoMemory> {
        self.failed.push(line)
    }
}

/// A sink that keeps no line, and doesn't tell which were put.
#[derive(Clone, Copy, Debug, PartialEq, Eq)]
pub struct NoLines;

impl LineSink for NoLines {
    ghost use Rattle.std.specs.Prelude.{None};

    ghost lines = { λ _. None };

    ghost failed = { λ _. None };

    #[inline(always)]
    fn put(&mut self, _line: &LineRef<'_>) -> Result<(), NoMemory> {
        Ok(())
    }

    #[inline(always)]
    fn fail(&mut self, _line: u64) -> Result<(), NoMemory> {
        Ok(())
    }
}
