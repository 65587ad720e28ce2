//! Half-precision floats (IEEE 754, binary16).
ghost use Rattle.std.specs.Prelude.{◌≡◌};
ghost use Rattle.value_json.specs.Floats.{half};

use std::num::f32_from_bits_with_nan;

/// 2^112: the exponents of a float16 count from 15, those of a float32 from 127.
const SCALE: f32 = f32::from_bits(0x7780_0000);

/// The float16 of 16 bits, as a float32, which holds each.
pub fn as_single(bits: u64) -> f32
    ensures { result ≡ half bits }
{
    let sign = if bits >= 0x8000 { 0x8000_0000 } else { 0 };
    let size = (bits % 0x8000) as u32;
    if size < 0x7c00 {
        f32_from_bits_with_nan(sign + size * 0x2000) * SCALE
    } else {
        f32_from_bits_with_nan(sign + size * 0x2000 + 0x7000_0000)
    }
}
