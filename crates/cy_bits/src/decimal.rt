ghost use Rattle.std.specs.Prelude.{◌≡◌, ◌<◌, ◌^◌, min, option_map};
ghost use Rattle.cy_bits.specs.Numbers.{decimal_from};

/// The number that decimal digits write, of however many, or `most` where it is greater: 0 of no
/// digits, and nothing where a byte is no digit.
pub fn capped_decimal(most: u32, digits: &[u8]) -> Option<u32>
    requires { most < 2 ^ 28 }
    ensures { result ≡ option_map (λ n. min most n) (decimal_from 0 digits.now) }
{
    let mut number = 0;
    for digit in digits {
        if *digit < b'0' || *digit > b'9' {
            return None;
        }
        number = (number * 10 + u32::from(*digit - b'0')).min(most);
    }
    Some(number)
}
