//! Lines of a plan that name a bus.
ghost use Rattle.std.specs.Prelude.{◌≡◌, MatchOption, true, false};
ghost use Rattle.std.specs.List.{list_all};
ghost use Rattle.node_plan.specs.Line.{said_of_bus, IsSaid};
ghost use Rattle.node_plan.specs.Names.{is_bus_name, is_name_byte};
ghost use Rattle.node_plan.specs.Words.{IsMtuWord, IsWithin, mtu_in, mtu_of};

use crate::line::Said;
use crate::plan::BusPlan;
use crate::words::{Number, number_in};
use cy_bits::BusName;

fn is_name_byte(b: u8) -> bool
    ensures { result ≡ is_name_byte b }
{
    b.is_ascii_alphanumeric() || b == b'_'
}

fn has_name_bytes(name: &[u8]) -> bool
    ensures { result ≡ list_all is_name_byte name.now }
{
    name.iter().all(|b| is_name_byte(*b))
}

fn bus_name(name: &[u8]) -> Option<BusName>
    ensures { MatchOption result (is_bus_name name.now ≡ false)
        (λ n. (n ≡ name.now) × (is_bus_name name.now ≡ true)) }
{
    if name.len() > 15 {
        return None;
    }
    if !has_name_bytes(name) {
        return None;
    }
    match str::from_utf8(name) {
        Ok(text) => BusName::new(text),
        Err(_) => None,
    }
}

fn mtu_of(number: Number) -> Number
    ensures value { result ≡ mtu_of number }
    ensures sound { IsMtuWord result }
{
    match number {
        Number::Within(8) => Number::Within(8),
        Number::Within(64) => Number::Within(64),
        Number::NoNumber => Number::NoNumber,
        _ => Number::Outside,
    }
}

/// What a word is where an MTU stands: 8 or 64.
pub fn mtu_in(word: &[u8]) -> Number
    ensures value { result ≡ mtu_in word.now }
    ensures sound { IsMtuWord result }
{
    mtu_of(number_in(0, 64, word))
}

/// `bus NAME MTU RATE`.
pub fn bus(name: &[u8], mtu: Number, rate: Number) -> Said
    requires mtu { IsMtuWord mtu }
    requires rate { IsWithin 1 4096 rate }
    ensures value { result ≡ said_of_bus name.now mtu rate }
    ensures sound { IsSaid result }
{
    if name.is_empty() {
        return Said::NoForm;
    }
    match (mtu, rate) {
        (Number::NoNumber, _) | (_, Number::NoNumber) => Said::NoForm,
        (Number::Within(mtu), Number::Within(rate)) => match bus_name(name) {
            Some(name) => Said::Bus(BusPlan {
                name,
                mtu: mtu as u8,
                rate,
            }),
            None => Said::Outside,
        },
        _ => Said::Outside,
    }
}
