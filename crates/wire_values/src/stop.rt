ghost use Rattle.dsdl_types.specs.Paths.{step_of};
ghost use Rattle.dsdl_types.specs.Reading.{Bad, Read, under};
ghost use Rattle.dsdl_types.specs.Values.{Val};
ghost use Rattle.dsdl_types.specs.Views.{why_of};
ghost use Rattle.wire_values.specs.Reads.{Fails};
ghost use Rattle.std.specs.Prelude.{[]};

use cy_bits::{List, NoMemory};
use dsdl_types::{ReadWhy, Step};
use std::alloc::Global;

/// Where and why bytes can't be read.
#[derive(Drop)]
pub struct Refusal {
    /// The steps to the part, the last first.
    pub steps: List<Step>,
    /// The cause.
    pub why: ReadWhy,
}

/// Why reading stops.
#[derive(Drop)]
pub enum Stop {
    /// The bytes can't be read.
    Refused(Refusal),
    /// Want of memory.
    NoMemory,
}

impl From<NoMemory> for Stop {
    ghost use Rattle.std.specs.Prelude.{◌≡◌};
    ghost use Rattle.wire_values.specs.declared.stop.Stop.TheVariants as stops;

    ghost from_gives = { λ _ e. e ≡ stops.NoMemory };

    fn from(_: NoMemory) -> Stop {
        Stop::NoMemory
    }
}

impl Stop {
    /// At the whole.
    pub fn here(alloc: Global, why: ReadWhy) -> Stop
        ensures { Fails {A = Val} result (Bad [] (why_of why)) }
    {
        Stop::Refused(Refusal {
            steps: List::empty(alloc),
            why,
        })
    }

    /// In a part, as a stop in the whole.
    pub fn below(self, step: Step) -> Stop
        ensures { (r : Read Val) → Fails self r → Fails result (under (step_of step) r) }
    {
        match self {
            Stop::NoMemory => Stop::NoMemory,
            Stop::Refused(refusal) => {
                let Refusal { mut steps, why } = refusal;
                match steps.push(step) {
                    Ok(()) => Stop::Refused(Refusal { steps, why }),
                    Err(NoMemory) => Stop::NoMemory,
                }
            }
        }
    }
}
