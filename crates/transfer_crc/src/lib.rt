//! The CRC of a transfer of several frames (Cyphal Specification, section 4.2): CRC-16/CCITT-FALSE.
#![tactic(auto)]

ghost use Rattle.std.specs.Prelude.{◌≡◌, ℕ, List, ◌++◌, length};
ghost use Rattle.transfer_crc.specs.Crc.{crc_bits, crc_more, crc_of, crc_bytes};

mod table;

use std::marker::Model;

/// The running CRC of bytes (Cyphal Specification, section 4.2), seen as a number below 2^16.
///
/// The polynomial is 0x1021 and the start 0xFFFF; nothing is reflected, and the end isn't inverted.
#[derive(Clone, Copy, Debug, PartialEq, Eq)]
pub struct Crc {
    register: u16,
}

impl Model for Crc {
    ghost Value = { ℕ };

    ghost view = { λ a. a.register };

    ghost inverse = { λ n. record { register = n } };
}

impl Crc {
    /// The CRC of no bytes, 0xFFFF.
    #[inline(always)]
    pub fn new() -> Crc
        ensures { result ≡ 0xFFFF }
    {
        Crc { register: 0xFFFF }
    }

    /// Takes more bytes, eight at a time. The cost is one look-up for each byte.
    #[inline(always)]
    pub fn add(&mut self, bytes: &[u8])
        ensures { self.new ≡ crc_more self.old bytes.now }
    {
        let blocks = bytes.len() / 8;
        for block in 0..blocks {
            self.register = after_eight(self.register, &bytes[8 * block..8 * block + 8]);
        }
        self.register = after_few(self.register, &bytes[8 * blocks..]);
    }

    /// The CRC of all bytes so far. Over data followed by its own CRC, high byte first, it is 0.
    #[inline(always)]
    pub fn value(&self) -> u16
        ensures { result ≡ self.now }
    {
        self.register
    }
}

/// The register after eight more bytes.
#[inline(always)]
fn after_eight(register: u16, bytes: &[u8]) -> u16
    requires { length bytes.now ≡ 8 }
    ensures { result ≡ crc_more register bytes.now }
{
    let high = (register / 256) as u8;
    let low = (register % 256) as u8;
    table::after_byte(bytes[7])
        ^ table::after_byte_and_one(bytes[6])
        ^ table::after_byte_and_two(bytes[5])
        ^ table::after_byte_and_three(bytes[4])
        ^ table::after_byte_and_four(bytes[3])
        ^ table::after_byte_and_five(bytes[2])
        ^ table::after_byte_and_six(low ^ bytes[1])
        ^ table::after_byte_and_seven(high ^ bytes[0])
}

/// The register after seven more bytes.
#[inline(always)]
fn after_seven(register: u16, bytes: &[u8]) -> u16
    requires { length bytes.now ≡ 7 }
    ensures { result ≡ crc_more register bytes.now }
{
    let high = (register / 256) as u8;
    let low = (register % 256) as u8;
    table::after_byte(bytes[6])
        ^ table::after_byte_and_one(bytes[5])
        ^ table::after_byte_and_two(bytes[4])
        ^ table::after_byte_and_three(bytes[3])
        ^ table::after_byte_and_four(bytes[2])
        ^ table::after_byte_and_five(low ^ bytes[1])
        ^ table::after_byte_and_six(high ^ bytes[0])
}

/// The register after a few more bytes.
#[inline(always)]
fn after_few(register: u16, bytes: &[u8]) -> u16
    ensures { result ≡ crc_more register bytes.now }
{
    if bytes.len() == 7 {
        return after_seven(register, bytes);
    }
    let mut after = register;
    for byte in bytes {
        after = add_byte(after, *byte);
    }
    after
}

/// The register after one more byte.
#[inline(always)]
fn add_byte(register: u16, byte: u8) -> u16
    ensures { result ≡ crc_bits 8 register byte }
{
    let high = (register / 256) as u8;
    (register % 256 * 256) ^ table::after_byte(high ^ byte)
}

/// Bytes in a row are taken one part after the other.
pub fn parts()
    ensures { (c : ℕ) (a b : List ℕ) → crc_more c (a ++ b) ≡ crc_more (crc_more c a) b }
{}

/// Bytes that are followed by their own CRC have the CRC 0.
pub fn own_crc()
    ensures { (bytes : List ℕ) → crc_of (bytes ++ crc_bytes bytes) ≡ 0 }
{}
