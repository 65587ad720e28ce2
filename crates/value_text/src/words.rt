//! Words and numbers at the end of a text.
ghost use Rattle.std.specs.Prelude.{◌≡◌, ◌<◌, ◌*◌, ◌^◌, ◌/◌, ◌%◌, ◌∷◌, [], ◌++◌, OnOk, slice_index, string_bytes};
ghost use Rattle.std.specs.Fmt.{signed_decimal};
ghost use Rattle.hex.specs.Hex.{upper_digits};
ghost use Rattle.value_text.specs.Words.{hex_digits};

use cy_bits::NoMemory;
use itoa::Buffer;

/// Appends a text.
pub fn push_str(text: &mut String, more: &str) -> Result<(), NoMemory>
    ensures { OnOk result (string_bytes text.new ≡ string_bytes text.old ++ more.now) }
{
    text.push_str(more)?;
    Ok(())
}

/// Appends a number.
pub fn push_number(text: &mut String, number: i128) -> Result<(), NoMemory>
    ensures { OnOk result (string_bytes text.new ≡ string_bytes text.old ++ signed_decimal number) }
{
    let mut buffer = Buffer::new();
    text.push_str(buffer.format(number))?;
    Ok(())
}

/// Appends so many hex digits of a number, the highest first.
pub fn push_hex(text: &mut String, digits: u8, number: u64) -> Result<(), NoMemory>
    ensures { OnOk result (string_bytes text.new ≡ string_bytes text.old
        ++ hex_digits digits number) }
{
    for k in (0..digits).rev() {
        push_digit(text, digit_of(number, k))?;
    }
    Ok(())
}

/// The value of a number's hex digit k, counted from the lowest.
fn digit_of(number: u64, k: u8) -> u8
    ensures value { result ≡ number / 2 ^ (4 * k) % 16 }
    ensures digit { result < 16 }
{
    if k < 16 {
        ((number >> (4 * k)) % 16) as u8
    } else {
        0
    }
}

/// Appends a hex digit.
fn push_digit(text: &mut String, value: u8) -> Result<(), NoMemory>
    requires { value < 16 }
    ensures { OnOk result (string_bytes text.new ≡ string_bytes text.old
        ++ slice_index upper_digits value ∷ []) }
{
    text.push(char::from(hex_digit(value)))?;
    Ok(())
}

/// A hex digit.
fn hex_digit(value: u8) -> u8
    requires { value < 16 }
    ensures digit { result ≡ slice_index upper_digits value }
    ensures ascii { result < 128 }
{
    if value < 10 {
        b'0' + value
    } else {
        b'A' - 10 + value
    }
}
