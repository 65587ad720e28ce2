//! What a command came to that keeps no line.
ghost use Rattle.std.specs.Prelude.{◌≡◌};
ghost use Rattle.node_run.specs.Ran.{no_numbers};
ghost use Rattle.cyphal.specs.CarriedOut.{uncounted};

use node_core::Numbers;
use node_run::Status;

/// How a command ended, and what was counted.
#[derive(Drop)]
pub struct Counted {
    /// How it ended.
    pub status: Status,
    /// The numbers of a run; of any other command, and of a run without a plan, each is 0.
    pub numbers: Numbers,
}

impl Counted {
    /// A command ended so, and counted nothing.
    pub fn nothing(status: Status) -> Counted
        ensures { result ≡ uncounted status }
    {
        Counted {
            status,
            numbers: no_numbers(),
        }
    }
}

/// The numbers before a run.
pub fn no_numbers() -> Numbers
    ensures { result ≡ no_numbers }
{
    Numbers {
        records: 0,
        delivered: 0,
        badcrc: 0,
        nosession: 0,
        sent: 0,
        held: 0,
        bound: 0,
    }
}
