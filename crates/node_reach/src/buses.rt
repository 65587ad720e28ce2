ghost use Rattle.std.specs.Prelude.{◌≡◌};
ghost use Rattle.node_reach.specs.Buses.{bus_names};

use cy_bits::{BusName, ShortList};

/// The names of the buses of a log that is heard without a plan: `can0`, `can1` and `can2`.
pub(crate) fn bus_names() -> ShortList<BusName, 3>
    ensures { result ≡ bus_names }
{
    let mut names = ShortList::new();
    names.push(BusName::new("can0").unwrap());
    names.push(BusName::new("can1").unwrap());
    names.push(BusName::new("can2").unwrap());
    names
}
