//! The lines of comparisons, and how these end.
ghost use Rattle.std.specs.Prelude.{◌≡◌, ◌≢◌};
ghost use Rattle.cy_outside.specs.Outside.{Rose};
ghost use Rattle.node_run.specs.Compared.{ended};
ghost use Rattle.cyphal.specs.Verdicts.{IsTold};

use compat_check::Verdict;
use cy_outside::{Sink, put_all};
use node_run::Status;

/// Writes lines of comparisons, and ends as their first verdict that isn't yes says.
pub fn write_verdicts<O: Sink>(lines: &[u8], first: Verdict, out: &mut O) -> Status
    ensures told { IsTold lines.now first result (O.written out.old) (O.written out.new) }
    ensures write { result ≡ Status.WriteFault → Rose (O.faults out.old) (O.faults out.new) }
    ensures unwritten { result ≢ Status.WriteFault → O.faults out.new ≡ O.faults out.old }
{
    let Ok(()) = put_all(out, lines) else {
        return Status::WriteFault;
    };
    ended(first)
}

/// How comparisons end whose first verdict that isn't yes is this.
fn ended(first: Verdict) -> Status
    ensures { result ≡ ended first }
{
    match first {
        Verdict::Yes => Status::Ok,
        Verdict::No { path, why } => Status::NotNewer { path, why },
    }
}
