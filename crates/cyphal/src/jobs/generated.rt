//! `gen NUMBER`: the run of the log that is made of a number.
ghost use Rattle.std.specs.Prelude.{◌≡◌, ℕ, false};
ghost use Rattle.cyphal.specs.Cause.{counts, HasCause};
ghost use Rattle.cyphal.specs.Job.{is_fault, printed};
ghost use Rattle.cyphal.specs.jobs.Gen.{HasGeneratedAt};

use cy_outside::Sink;
use node_run::{Status, run_gen};
use std::alloc::Global;

/// Runs the log of a number, and writes its numbers. It is given no tree, so each count of a tree's
/// faults stays.
pub fn generated<O: Sink>(alloc: Global, number: u32, out: &mut O) -> Status
    ensures answer { is_fault result ≡ false → result ≡ Status.Ok }
    ensures cause { (tree : ℕ)
        → HasCause result (counts tree (O.faults out.old)) (counts tree (O.faults out.new)) }
    ensures ran { HasGeneratedAt number (printed result (O.written out.old) (O.written out.new)) }
{
    run_gen(alloc, number, out)
}
