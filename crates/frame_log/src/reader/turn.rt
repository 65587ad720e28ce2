//! One turn of a reader: the lines that are kept, or else one read.
ghost use Rattle.std.specs.Prelude.{◌≡◌, ◌≤◌, ◌<◌, ◌+◌, ◌++◌, ℕ, List, [], None, Some, Ok, length, drop, IfOk, OnErr, OnOk, true, false};
ghost use Rattle.cy_outside.specs.Outside.{Rose};
ghost use Rattle.frame_log.specs.Input.{Took, IsAtEnd};
ghost use Rattle.frame_log.specs.Line.{cut};
ghost use Rattle.frame_log.specs.Steps.{IsTurn, IsAt, TurnsNext};
ghost use Rattle.frame_log.specs.Reader.{place_of, buses_of, log_behind, bytes_left};
ghost use Rattle.frame_log.specs.UsedSteps.{TurnUses};
ghost use Rattle.frame_log.specs.declared.error.LogError.TheVariants as error;
ghost use Rattle.frame_log.specs.declared.reader.turn.Turn.TheVariants as turn;

use crate::error::LogError;
use crate::kept_bytes::{PIECE, read_some};
use crate::reader::LogReader;
use crate::reader::step::Step;
use cy_outside::{Failed, Source};
use tail_frame::Record;

/// What one turn of a reader gives.
#[derive(Clone, Copy, Debug, PartialEq, Eq)]
pub enum Turn {
    /// Some bytes came, and nothing yet.
    Again,
    /// A record, which was written.
    Record,
    /// The log's end.
    Whole,
    /// A refusal.
    Refused(LogError),
    /// The input failed.
    Failed,
}

impl LogReader {
    /// Reads a piece behind what is kept.
    #[inline(always)]
    fn fill<L: Source>(&mut self, input: &mut L) -> Result<usize, Failed>
        requires short { length self.old.kept_bytes ≤ 4096 }
        ensures came { OnOk result
            (self.new.kept_bytes
            ≡ self.old.kept_bytes ++ drop (length self.old.kept_bytes) self.new.kept_bytes) }
        ensures room { IfOk result
            (λ n. (self.new.room + n ≡ self.old.room)
            × (length self.new.kept_bytes ≡ length self.old.kept_bytes + n)) }
        ensures took { OnOk result
            (Took (L.left input.old) (L.left input.new)
            (drop (length self.old.kept_bytes) self.new.kept_bytes)) }
        ensures none { IfOk result (λ n. n ≡ 0 → self.new.kept_bytes ≡ self.old.kept_bytes) }
        ensures end { IfOk result (λ n. n ≡ 0 → 0 < self.old.room → IsAtEnd (L.left input.new)) }
        ensures err { OnErr result
            ((self.new.kept_bytes ≡ self.old.kept_bytes) × (self.new.room ≡ self.old.room)
            × (L.left input.new ≡ L.left input.old)) }
        ensures cause { OnErr result (Rose (L.faults input.old) (L.faults input.new)) }
        ensures count { OnOk result (L.faults input.new ≡ L.faults input.old) }
        ensures same { (self.new.buses ≡ self.old.buses) × (place_of self.new ≡ place_of self.old)
            × (self.new.is_ended ≡ self.old.is_ended) × (self.new.done ≡ self.old.done) }
    {
        let most = self.room.min(PIECE - self.kept_bytes.as_slice().len());
        let n = self.kept_bytes.fill(input, most)?;
        self.room -= n;
        Ok(n)
    }

    /// At the end of the input.
    #[cold]
    #[inline(never)]
    fn at_end(&mut self, written: &mut Record) -> Turn
        requires { cut 10 self.old.kept_bytes ≡ None }
        ensures next { IsTurn (log_behind self.old []) result written.new (log_behind self.new []) }
        ensures not_again { ¬ (result ≡ turn.Again) }
        ensures not_failed { ¬ (result ≡ turn.Failed) }
        ensures input { ¬ (result ≡ turn.Refused error.Failed) }
        ensures less { result ≡ turn.Record → bytes_left self.new < bytes_left self.old }
        ensures within { bytes_left self.new ≤ bytes_left self.old }
        ensures at { result ≡ turn.Record → IsAt written.new (place_of self.new) }
        ensures room { self.new.room ≡ self.old.room }
        ensures same { (self.new.buses ≡ self.old.buses) × (self.new.is_ended ≡ self.old.is_ended)
            × (self.new.done ≡ self.old.done) }
    {
        match self.last_line(written) {
            Step::Record => Turn::Record,
            Step::Refused(e) => Turn::Refused(e),
            Step::NoLine => Turn::Whole,
            Step::Skipped => Turn::Whole,
        }
    }

    /// Where no line is kept: one read.
    #[inline(never)]
    fn read_turn<L: Source>(&mut self, input: &mut L, written: &mut Record) -> Turn
        requires reading { self.old.is_ended ≡ false }
        requires line { cut 10 self.old.kept_bytes ≡ None }
        requires short { length self.old.kept_bytes ≤ 4096 }
        ensures next { TurnsNext self.old self.new (L.left input.old) (L.left input.new)
            result written.new }
        ensures used { TurnUses self.old self.new (L.left input.old) (L.left input.new)
            result written.new }
        ensures again { result ≡ turn.Again → (self.new.room < self.old.room)
            × (self.new.is_ended ≡ false) }
        ensures whole { result ≡ turn.Whole → self.new.is_ended ≡ true }
        ensures input { ¬ (result ≡ turn.Refused error.Failed) }
        ensures end { self.new.is_ended ≡ true → IsAtEnd (L.left input.new) }
        ensures failed { result ≡ turn.Failed → Rose (L.faults input.old) (L.faults input.new)
            × (self.new.kept_bytes ≡ self.old.kept_bytes) }
        ensures open { result ≡ turn.Failed → self.new.is_ended ≡ false }
        ensures count { ¬ (result ≡ turn.Failed) → L.faults input.new ≡ L.faults input.old }
        ensures less { result ≡ turn.Record → bytes_left self.new < bytes_left self.old }
        ensures within { bytes_left self.new ≤ bytes_left self.old }
        ensures at { result ≡ turn.Record → IsAt written.new (place_of self.new) }
        ensures same { (self.new.buses ≡ self.old.buses) × (self.new.done ≡ self.old.done) }
    {
        if self.room == 0 {
            return match has_more(input) {
                Err(_) => Turn::Failed,
                Ok(true) => Turn::Refused(LogError::LogLong),
                Ok(false) => {
                    self.is_ended = true;
                    self.at_end(written)
                }
            };
        }
        match self.fill(input) {
            Err(_) => Turn::Failed,
            Ok(0) => {
                self.is_ended = true;
                self.at_end(written)
            }
            Ok(_) => Turn::Again,
        }
    }

    /// The lines that are kept, or else one read.
    #[inline(always)]
    pub fn turn<L: Source>(&mut self, input: &mut L, written: &mut Record) -> Turn
        ensures next { TurnsNext self.old self.new (L.left input.old) (L.left input.new)
            result written.new }
        ensures used { TurnUses self.old self.new (L.left input.old) (L.left input.new)
            result written.new }
        ensures again { result ≡ turn.Again → (self.new.room < self.old.room)
            × (self.new.is_ended ≡ false) }
        ensures whole { result ≡ turn.Whole → self.new.is_ended ≡ true }
        ensures input { ¬ (result ≡ turn.Refused error.Failed) }
        ensures end { self.old.is_ended ≡ false → self.new.is_ended ≡ true
            → IsAtEnd (L.left input.new) }
        ensures failed { result ≡ turn.Failed → Rose (L.faults input.old) (L.faults input.new)
            × (cut 10 self.new.kept_bytes ≡ None) × (length self.new.kept_bytes ≤ 4096) }
        ensures open { result ≡ turn.Failed → self.new.is_ended ≡ false }
        ensures ended { self.old.is_ended ≡ true → (input.new ≡ input.old)
            × (self.new.is_ended ≡ true)
            × IsTurn (log_behind self.old []) result written.new (log_behind self.new []) }
        ensures count { ¬ (result ≡ turn.Failed) → L.faults input.new ≡ L.faults input.old }
        ensures less { result ≡ turn.Record → bytes_left self.new < bytes_left self.old }
        ensures within { bytes_left self.new ≤ bytes_left self.old }
        ensures at { result ≡ turn.Record → IsAt written.new (place_of self.new) }
        ensures same { (self.new.buses ≡ self.old.buses) × (self.new.done ≡ self.old.done) }
    {
        match self.from_kept(written) {
            Step::Record => return Turn::Record,
            Step::Refused(e) => return Turn::Refused(e),
            Step::Skipped | Step::NoLine => {}
        }
        if self.kept_bytes.as_slice().len() > 4096 {
            return Turn::Refused(LogError::BadLine { n: self.lines + 1 });
        }
        if self.is_ended {
            return self.at_end(written);
        }
        self.read_turn(input, written)
    }
}

/// Whether the input has one byte more.
fn has_more<L: Source>(input: &mut L) -> Result<bool, Failed>
    ensures more { result ≡ Ok true → (came : List ℕ) × (length came ≡ 1)
        × Took (L.left input.old) (L.left input.new) came }
    ensures end { result ≡ Ok false → Took (L.left input.old) (L.left input.new) []
        × IsAtEnd (L.left input.new) }
    ensures err { OnErr result (L.left input.new ≡ L.left input.old) }
    ensures cause { OnErr result (Rose (L.faults input.old) (L.faults input.new)) }
    ensures count { OnOk result (L.faults input.new ≡ L.faults input.old) }
{
    let mut piece = [0u8; 1];
    let n = read_some(input, &mut piece)?;
    Ok(n > 0)
}
