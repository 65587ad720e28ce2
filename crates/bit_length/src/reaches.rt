//! Remainders that follow one another by one step, told by the first of them and by how many they are.
//!
//! The members of a run leave such remainders. So a run is noted by one number, at the remainder of
//! its least member, and what all runs leave is marked in two rounds over the remainders.
ghost use Rattle.std.specs.Prelude.{◌≡◌, ℕ, ◌+◌, ◌*◌, ◌%◌, ◌-◌, ◌^◌, ◌<◌, ◌≤◌, ◌⊎◌, ◌↔◌, true, length};
ghost use Rattle.bit_length.specs.Moved.{Moved};
ghost use Rattle.bit_length.specs.Residues.{AreAtMost, AreNone, Forgets, IsReached, MarksAt, MarksReached, Notes, is_marked, reach_at};
ghost use Rattle.bit_length.specs.Runs.{IsRun, InRun};

use crate::run::Run;

/// Notes what the members of a run, moved up by a number, leave: as many remainders from that of
/// the least on as there are members, but no more than come before they come again.
pub fn note(reaches: &mut [u64], run: &Run, step: u64, by: u64, round: u64)
    requires run { IsRun step run.now }
    requires short { by + (run.now.residue + step * run.now.last) ≤ 2 ^ 32 }
    requires some { 0 < length reaches.old }
    requires round { 0 < round }
    requires again { (step * round) % length reaches.old ≡ 0 }
    requires most { AreAtMost reaches.old round }
    ensures notes { Notes step reaches.old reaches.new (Moved by (InRun step run.now)) }
    ensures most { AreAtMost reaches.new round }
{
    let least = by + run.member(step, run.first);
    let at = (least % reaches.len() as u64) as usize;
    reaches[at] = reaches[at].max(run.count().min(round));
}

/// The remainder that is a stride behind another.
fn next(at: u64, stride: u64, divisor: u64) -> u64
    requires at { at < divisor }
    requires stride { stride < divisor }
    requires small { divisor ≤ 2 ^ 32 }
    ensures { result ≡ (at + stride) % divisor }
{
    let next = at + stride;
    if next < divisor { next } else { next - divisor }
}

/// Marks a remainder where it is one of some that are left, and gives how many are left behind it.
fn mark(marks: &mut [bool], at: u64, left: u64) -> u64
    requires { at < length marks.old }
    ensures marks { MarksAt marks.old marks.new at left }
    ensures left { result ≡ left - 1 }
{
    if left == 0 {
        return 0;
    }
    marks[at as usize] = true;
    left - 1
}

/// Marks what is reached from the remainders of a round that begins at one of them. In two rounds
/// each of them is gone from as far as it reaches.
fn mark_round(marks: &mut [bool], reaches: &[u64], from: u64, stride: u64, round: u64)
    requires from { from < length marks.old }
    requires stride { stride < length marks.old }
    requires small { length marks.old ≤ 2 ^ 32 }
    requires same { length reaches.now ≡ length marks.old }
    requires short { round ≤ 2 ^ 32 }
    requires most { AreAtMost reaches.now round }
    ensures { MarksReached reaches.now stride from round marks.old marks.new }
{
    let divisor = marks.len() as u64;
    let mut at = from;
    let mut left = 0;
    for _ in 0..2 * round {
        left = mark(marks, at, reaches[at as usize].max(left));
        at = next(at, stride, divisor);
    }
}

/// Forgets how far is reached from the remainders of a round that begins at one of them.
fn forget_round(reaches: &mut [u64], from: u64, stride: u64, round: u64)
    requires from { from < length reaches.old }
    requires stride { stride < length reaches.old }
    requires small { length reaches.old ≤ 2 ^ 32 }
    requires round { 0 < round }
    ensures { Forgets stride from round reaches.old reaches.new }
{
    let divisor = reaches.len() as u64;
    let mut at = from;
    for _ in 0..round {
        reaches[at as usize] = 0;
        at = next(at, stride, divisor);
    }
}

/// Marks what is reached, round by round. Nothing is marked before.
pub fn mark_reached(marks: &mut [bool], reaches: &mut [u64], step: u64, round: u64)
    requires small { length marks.old ≤ 2 ^ 32 }
    requires same { length reaches.old ≡ length marks.old }
    requires short { round ≤ 2 ^ 32 }
    requires round { 0 < round }
    requires most { AreAtMost reaches.old round }
    requires none { AreNone marks.old }
    ensures { (r : ℕ) → (is_marked marks.new r ≡ true) ↔ IsReached reaches.old step r }
{
    let divisor = marks.len() as u64;
    for from in 0..divisor {
        if reaches[from as usize] > 0 {
            let stride = step % divisor;
            mark_round(marks, reaches, from, stride, round);
            forget_round(reaches, from, stride, round);
        }
    }
}
