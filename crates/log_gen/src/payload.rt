ghost use Rattle.std.specs.Prelude.{◌≡◌, ◌≤◌, ◌<◌, length};
ghost use Rattle.log_gen.specs.Rules.{payload_of};

use cy_bits::ShortList;

/// The payload of a transfer, by its number among all: 0 to 39 bytes.
pub fn payload_of(number: u32, transfer: u64) -> ShortList<u8, 64>
    requires { transfer < 20000 }
    ensures value { result ≡ payload_of number transfer }
    ensures few { length result ≤ 39 }
{
    let size = (7 * transfer + number as u64) % 40;
    let mut payload = ShortList::new();
    for place in 0..size {
        payload.push(((place + transfer + number as u64) % 256) as u8);
    }
    payload
}
