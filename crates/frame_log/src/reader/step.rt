//! One line of those that are kept.
ghost use Rattle.std.specs.Prelude.{◌≡◌, ◌≤◌, ◌<◌, ◌+◌, ◌-◌, ◌++◌, ℕ, List, [], None, Some, length, take, drop, MatchOption, not, nat_lt, true, false};
ghost use Rattle.frame_log.specs.Line.{cut};
ghost use Rattle.frame_log.specs.Found.{said_by};
ghost use Rattle.frame_log.specs.Line.{Frame};
ghost use Rattle.frame_log.specs.Log.{given_by, first_of, ended};
ghost use Rattle.frame_log.specs.Steps.{IsLine, IsFound, IsGiven, IsStep, IsAt, KeepsBytes, KeepsFewer};
ghost use Rattle.frame_log.specs.Reader.{place_of, buses_of, log_behind, bytes_left};
ghost use Rattle.frame_log.specs.Used.{Uses};
ghost use Rattle.frame_log.specs.UsedSteps.{IsUsed, IsBeforeStep};
ghost use Rattle.frame_log.specs.declared.error.LogError.TheVariants as error;
ghost use Rattle.frame_log.specs.declared.reader.step.Step.TheVariants as step;

use crate::error::LogError;
use crate::front::Front;
use crate::line::{Found, read_line};
use crate::quick::quick;
use crate::reader::LogReader;
use memchr::memchr;
use tail_frame::Record;

/// What the next line gives.
#[derive(Clone, Copy, Debug, PartialEq, Eq)]
pub enum Step {
    /// No whole line is kept.
    NoLine,
    /// The line is skipped.
    Skipped,
    /// The line is a record, which was written.
    Record,
    /// The line is refused.
    Refused(LogError),
}

impl LogReader {
    /// The end of the first line that is kept.
    #[inline(always)]
    fn line_end(&self) -> Option<usize>
        ensures { MatchOption result (cut 10 self.now.kept_bytes ≡ None)
            (λ i. IsLine self.now.kept_bytes i) }
    {
        memchr(b'\n', self.kept_bytes.as_slice())
    }

    /// Takes what a line says, with the next number, and writes its record.
    #[inline(always)]
    fn accept(&mut self, found: Found, written: &mut Record) -> Step
        requires { self.old.lines + bytes_left self.old < 268435456 }
        ensures input { ¬ (result ≡ step.Refused error.Failed) }
        ensures given { IsGiven
            (given_by (place_of self.old) (self.old.lines + 1) (said_by found written.old.bytes))
            result written.new (place_of self.new) }
        ensures at { result ≡ step.Record → IsAt written.new (place_of self.new) }
        ensures same { KeepsBytes self.old self.new }
    {
        let n = self.lines + 1;
        match found {
            Found::NoForm => Step::Refused(LogError::BadLine { n }),
            Found::Nothing => {
                self.lines = n;
                Step::Skipped
            }
            Found::UnknownBus => Step::Refused(LogError::UnknownBus { n }),
            Found::Frame { moment, bus, ident } => {
                self.accept_frame(moment, bus, ident, written)
            }
        }
    }

    /// Takes a frame, and writes its record.
    #[inline(always)]
    fn accept_frame(&mut self, moment: u64, bus: u8, ident: u32, written: &mut Record) -> Step
        requires { self.old.lines + bytes_left self.old < 268435456 }
        ensures input { ¬ (result ≡ step.Refused error.Failed) }
        ensures given { IsGiven (given_by (place_of self.old) (self.old.lines + 1)
            (Frame moment bus ident written.old.bytes)) result written.new (place_of self.new) }
        ensures at { result ≡ step.Record → IsAt written.new (place_of self.new) }
        ensures same { KeepsBytes self.old self.new }
    {
        let n = self.lines + 1;
        if moment < self.last {
            return Step::Refused(LogError::TimeBack { n });
        }
        if moment >= self.limit && !self.begin(moment) {
            return Step::Refused(LogError::TooFar { n });
        }
        self.lines = n;
        self.last = moment;
        written.line = n;
        written.moment = moment;
        written.bus = bus;
        written.ident = ident;
        Step::Record
    }

    /// Whether a record of this moment isn't too far from the first, which it is where there was none.
    #[cold]
    #[inline(never)]
    fn begin(&mut self, moment: u64) -> bool
        ensures near { result
            ≡ not (nat_lt 100_000_000_000 (moment - first_of self.old.first moment)) }
        ensures first { result ≡ true → self.new.first ≡ Some (first_of self.old.first moment) }
        ensures as_before { result ≡ false → self.new.first ≡ self.old.first }
        ensures place { (self.new.lines ≡ self.old.lines) × (self.new.last ≡ self.old.last) }
        ensures same { KeepsBytes self.old self.new }
    {
        let first = self.first.unwrap_or(moment);
        if moment.saturating_sub(first) > 100_000_000_000 {
            return false;
        }
        self.first = Some(first);
        self.limit = first.saturating_add(100_000_000_001);
        true
    }

    /// The first line that is kept: its length, and what was found in it.
    #[cold]
    #[inline(never)]
    fn any_line(&mut self, written: &mut Record) -> Option<(usize, Found)>
        ensures line { MatchOption result (cut 10 self.old.kept_bytes ≡ None)
            (λ p. IsFound self.old.buses self.old.kept_bytes p.0 p.1 written.new.bytes) }
        ensures place { place_of self.new ≡ place_of self.old }
        ensures same { KeepsBytes self.old self.new }
    {
        let i = self.line_end()?;
        written.bytes.clear();
        let line = &self.kept_bytes.as_slice()[..i];
        let found = read_line(self.buses.as_slice(), line, &mut written.bytes);
        if let Some(front) = Front::of(line) {
            self.front = front;
        }
        Some((i, found))
    }

    /// Takes what was found in the first line that is kept.
    #[inline(always)]
    fn take_line(&mut self, i: usize, found: Found, written: &mut Record) -> Step
        requires line { IsFound self.old.buses self.old.kept_bytes i found written.old.bytes }
        ensures next { (rest : List ℕ)
            → IsStep (log_behind self.old rest) result written.new (log_behind self.new rest) }
        ensures used { IsUsed (buses_of self.old)
            (place_of self.old) self.old.kept_bytes result written.new
            (place_of self.new) self.new.kept_bytes }
        ensures some { ¬ (result ≡ step.NoLine) }
        ensures less { result ≡ step.Record → KeepsFewer self.old self.new }
        ensures skipped { result ≡ step.Skipped → KeepsFewer self.old self.new }
        ensures within { length self.new.kept_bytes ≤ length self.old.kept_bytes }
        ensures input { ¬ (result ≡ step.Refused error.Failed) }
        ensures at { result ≡ step.Record → IsAt written.new (place_of self.new) }
        ensures same { (self.new.buses ≡ self.old.buses) × (self.new.room ≡ self.old.room)
            × (self.new.is_ended ≡ self.old.is_ended) × (self.new.done ≡ self.old.done) }
    {
        self.kept_bytes.skip(i + 1);
        self.accept(found, written)
    }

    /// What the first line that is kept gives, whatever its form.
    #[cold]
    #[inline(never)]
    fn any_step(&mut self, written: &mut Record) -> Step
        ensures next { (rest : List ℕ)
            → IsStep (log_behind self.old rest) result written.new (log_behind self.new rest) }
        ensures used { IsUsed (buses_of self.old)
            (place_of self.old) self.old.kept_bytes result written.new
            (place_of self.new) self.new.kept_bytes }
        ensures none { result ≡ step.NoLine → (cut 10 self.new.kept_bytes ≡ None)
            × (place_of self.new ≡ place_of self.old)
            × (self.new.kept_bytes ≡ self.old.kept_bytes) }
        ensures less { result ≡ step.Record → KeepsFewer self.old self.new }
        ensures skipped { result ≡ step.Skipped → KeepsFewer self.old self.new }
        ensures within { length self.new.kept_bytes ≤ length self.old.kept_bytes }
        ensures input { ¬ (result ≡ step.Refused error.Failed) }
        ensures at { result ≡ step.Record → IsAt written.new (place_of self.new) }
        ensures same { (self.new.buses ≡ self.old.buses) × (self.new.room ≡ self.old.room)
            × (self.new.is_ended ≡ self.old.is_ended) × (self.new.done ≡ self.old.done) }
    {
        match self.any_line(written) {
            Some((i, found)) => self.take_line(i, found, written),
            None => Step::NoLine,
        }
    }

    /// What the first line that is kept gives, sooner of one of the common form.
    #[inline(always)]
    fn step_line(&mut self, written: &mut Record) -> Step
        ensures next { (rest : List ℕ)
            → IsStep (log_behind self.old rest) result written.new (log_behind self.new rest) }
        ensures used { IsUsed (buses_of self.old)
            (place_of self.old) self.old.kept_bytes result written.new
            (place_of self.new) self.new.kept_bytes }
        ensures none { result ≡ step.NoLine → (cut 10 self.new.kept_bytes ≡ None)
            × (place_of self.new ≡ place_of self.old)
            × (self.new.kept_bytes ≡ self.old.kept_bytes) }
        ensures less { result ≡ step.Record → KeepsFewer self.old self.new }
        ensures skipped { result ≡ step.Skipped → KeepsFewer self.old self.new }
        ensures within { length self.new.kept_bytes ≤ length self.old.kept_bytes }
        ensures input { ¬ (result ≡ step.Refused error.Failed) }
        ensures at { result ≡ step.Record → IsAt written.new (place_of self.new) }
        ensures same { (self.new.buses ≡ self.old.buses) × (self.new.room ≡ self.old.room)
            × (self.new.is_ended ≡ self.old.is_ended) × (self.new.done ≡ self.old.done) }
    {
        written.bytes.clear();
        if let Some(seen) = quick(
            &self.front,
            &self.buses,
            self.kept_bytes.window(),
            &mut written.bytes,
        ) {
            if seen.len < self.kept_bytes.as_slice().len() {
                let found = Found::Frame {
                    moment: seen.moment,
                    bus: seen.bus,
                    ident: seen.ident,
                };
                return self.take_line(seen.len, found, written);
            }
        }
        self.any_step(written)
    }

    /// What the lines that are kept give.
    #[inline(always)]
    pub fn from_kept(&mut self, written: &mut Record) -> Step
        ensures next { (rest : List ℕ)
            → IsStep (log_behind self.old rest) result written.new (log_behind self.new rest) }
        ensures used { Uses (buses_of self.old) (place_of self.old) self.old.kept_bytes
            (IsBeforeStep result written.new self.new) }
        ensures none { result ≡ step.NoLine → cut 10 self.new.kept_bytes ≡ None }
        ensures whole { ¬ (result ≡ step.Skipped) }
        ensures less { result ≡ step.Record → KeepsFewer self.old self.new }
        ensures within { length self.new.kept_bytes ≤ length self.old.kept_bytes }
        ensures input { ¬ (result ≡ step.Refused error.Failed) }
        ensures at { result ≡ step.Record → IsAt written.new (place_of self.new) }
        ensures same { (self.new.buses ≡ self.old.buses) × (self.new.room ≡ self.old.room)
            × (self.new.is_ended ≡ self.old.is_ended) × (self.new.done ≡ self.old.done) }
    {
        loop {
            match self.step_line(written) {
                Step::Skipped => {}
                step => return step,
            }
        }
    }

    /// What is kept is the last line, without a newline.
    #[cold]
    #[inline(never)]
    pub fn last_line(&mut self, written: &mut Record) -> Step
        requires { cut 10 self.old.kept_bytes ≡ None }
        ensures next { IsStep (log_behind self.old []) result written.new (log_behind self.new []) }
        ensures none { result ≡ step.NoLine → log_behind self.old [] ≡ ended None }
        ensures skipped { result ≡ step.Skipped → log_behind self.old [] ≡ ended None }
        ensures less { result ≡ step.Record → KeepsFewer self.old self.new }
        ensures within { length self.new.kept_bytes ≤ length self.old.kept_bytes }
        ensures input { ¬ (result ≡ step.Refused error.Failed) }
        ensures at { result ≡ step.Record → IsAt written.new (place_of self.new) }
        ensures same { (self.new.buses ≡ self.old.buses) × (self.new.room ≡ self.old.room)
            × (self.new.is_ended ≡ self.old.is_ended) × (self.new.done ≡ self.old.done) }
    {
        let n = self.kept_bytes.as_slice().len();
        if n == 0 {
            return Step::NoLine;
        }
        written.bytes.clear();
        let found = read_line(
            self.buses.as_slice(),
            self.kept_bytes.as_slice(),
            &mut written.bytes,
        );
        self.kept_bytes.skip(n);
        self.accept(found, written)
    }
}
