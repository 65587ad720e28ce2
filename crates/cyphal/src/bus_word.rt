ghost use Rattle.std.specs.Prelude.{◌≡◌, true};
ghost use Rattle.std.specs.List.{list_all};
ghost use Rattle.node_plan.specs.Names.{is_name_byte};
ghost use Rattle.cyphal.specs.BusNames.{is_bus};

use cy_bits::BusName;

/// The name of a bus: 1 to 15 letters, digits and `_`.
#[derive(Clone, Copy, Drop)]
pub struct BusWord<'a> {
    /// The name.
    pub name: &'a str,
    ghost is: { is_bus name.now ≡ true },
}

impl<'a> BusWord<'a> {
    ghost use Rattle.std.specs.Prelude.{◌≡◌, Some, None, if◌then◌else◌, option_map};

    /// The bus of a name, where it is one.
    pub fn new(name: &'a str) -> Option<BusWord<'a>>
        ensures { option_map (λ bus. bus.name.now) result
            ≡ (if is_bus name.entry.now then Some name.entry.now else None) }
    {
        if is_bus(name.as_bytes()) {
            Some(BusWord { name })
        } else {
            None
        }
    }

    /// The name, in a place of its own.
    pub fn owned(self) -> BusName
        ensures { result ≡ self.entry.name.now }
    {
        BusName::new(self.name).unwrap()
    }
}

fn is_bus(name: &[u8]) -> bool
    ensures { result ≡ is_bus name.now }
{
    !name.is_empty() && name.len() <= 15 && are_name_bytes(name)
}

fn are_name_bytes(name: &[u8]) -> bool
    ensures { result ≡ list_all is_name_byte name.now }
{
    name.iter().all(|byte| is_name_byte(*byte))
}

fn is_name_byte(byte: u8) -> bool
    ensures { result ≡ is_name_byte byte }
{
    byte.is_ascii_alphanumeric() || byte == b'_'
}
