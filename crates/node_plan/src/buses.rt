//! A plan's buses, copied.
ghost use Rattle.std.specs.Prelude.{◌≡◌};

use crate::plan::BusPlan;
use cy_bits::{BusName, ShortList};

/// The same buses. Takes no memory.
pub fn copy_of(buses: &ShortList<BusPlan, 3>) -> ShortList<BusPlan, 3>
    ensures { result ≡ buses.now }
{
    let mut copied = ShortList::new();
    for bus in buses.as_slice() {
        copied.push(copy_of_bus(bus));
    }
    copied
}

/// The same bus.
fn copy_of_bus(bus: &BusPlan) -> BusPlan
    ensures { result ≡ bus.now }
{
    let text = bus.name.as_str();
    BusPlan {
        name: BusName::new(text).unwrap(),
        mtu: bus.mtu,
        rate: bus.rate,
    }
}
