//! The standard types of time.
use crate::Standard;
use crate::held::{alone, number, number_value, part};
use cy_bits::NoMemory;
use dsdl_types::Value;
use std::alloc::Global;

/// `uavcan.time.SynchronizedTimestamp.1.0`, a moment of the network's time (Cyphal Specification,
/// section 5.3.5).
#[derive(Clone, Copy)]
pub struct SynchronizedTimestamp {
    /// The moment in microseconds, written in its low 56 bits; 0 is unknown.
    pub microsecond: u64,
}

/// `uavcan.time.Synchronization.1.0`, with the port 7168 (Cyphal Specification, section 5.3.5): a
/// master's time.
#[derive(Clone, Copy)]
pub struct Synchronization {
    /// When the master sent its previous message, in microseconds, written in its low 56 bits.
    pub previous_transmission_timestamp_microsecond: u64,
}

impl Standard for SynchronizedTimestamp {
    ghost use Rattle.std_types.specs.Times.{synchronized_timestamp_value, synchronized_timestamp_of, FitsSynchronizedTimestamp};
    ghost use Rattle.std_types.specs.TimeLaws.{synchronized_timestamp_back, synchronized_timestamp_forth};
    ghost use Rattle.std_types.specs.Schemas.{synchronized_timestamp};

    ghost schema = { synchronized_timestamp };

    ghost fits = { FitsSynchronizedTimestamp };

    ghost value = { synchronized_timestamp_value };

    ghost made_of = { synchronized_timestamp_of };

    ghost back = { synchronized_timestamp_back };

    ghost forth = { synchronized_timestamp_forth };

    fn to_value(&self, alloc: Global) -> Result<Value, NoMemory> {
        alone(alloc, number_value(self.microsecond))
    }

    fn of_value(_alloc: Global, from: &Value) -> Result<SynchronizedTimestamp, NoMemory> {
        Ok(SynchronizedTimestamp {
            microsecond: number(part(from, 0)),
        })
    }
}

impl Standard for Synchronization {
    ghost use Rattle.std_types.specs.Times.{synchronization_value, synchronization_of, FitsSynchronization};
    ghost use Rattle.std_types.specs.TimeLaws.{synchronization_back, synchronization_forth};
    ghost use Rattle.std_types.specs.Schemas.{synchronization};

    ghost schema = { synchronization };

    ghost fits = { FitsSynchronization };

    ghost value = { synchronization_value };

    ghost made_of = { synchronization_of };

    ghost back = { synchronization_back };

    ghost forth = { synchronization_forth };

    fn to_value(&self, alloc: Global) -> Result<Value, NoMemory> {
        alone(
            alloc,
            number_value(self.previous_transmission_timestamp_microsecond),
        )
    }

    fn of_value(_alloc: Global, from: &Value) -> Result<Synchronization, NoMemory> {
        Ok(Synchronization {
            previous_transmission_timestamp_microsecond: number(part(from, 0)),
        })
    }
}
