//! The buses that a reader knows.
ghost use Rattle.std.specs.Prelude.{◌≡◌, ◌≤◌, ◌<◌, IfSome, length};
ghost use Rattle.frame_log.specs.Reads.{bus_in, Reads};
ghost use Rattle.frame_log.specs.Names.{IsName};

use crate::front::is_clean;
use crate::line::{bus_at, bus_name};
use crate::sixteen::equal_before;
use cy_bits::{BusName, ShortList};
use std::marker::Model;
use std::simd::prelude::*;

/// A name and a space, or nothing, with a length above 16.
#[derive(Clone, Copy, Drop)]
pub struct Name {
    text: u8x16,
    len: usize,
}

impl Name {
    /// That of bus `k`.
    fn new(buses: &[BusName], k: usize) -> Name
        ensures { IsName buses.now k result }
    {
        let mut text = [b' '; 16];
        let none = Name {
            text: u8x16::splat(0),
            len: 17,
        };
        if k >= buses.len() {
            return none;
        }
        let name = buses[k].as_str().as_bytes();
        text[..name.len()].copy_from_slice(name);
        let Some((name, _)) = bus_name(&text) else {
            return none;
        };
        let Some(found) = bus_at(buses, name) else {
            return none;
        };
        let len = name.len() + 1;
        if found != k || len > 16 || !is_clean(&text[..len]) {
            return none;
        }
        Name {
            text: u8x16::from_array(text),
            len,
        }
    }
}

/// The names of the buses.
#[derive(Drop)]
pub struct Buses {
    names: ShortList<BusName, 3>,
    first: Name,
    second: Name,
    third: Name,
}

impl Model for Buses {
    ghost use Rattle.std.specs.Prelude.{ℕ, List};
    ghost use Rattle.frame_log.specs.Names.{IsName};

    ghost Value = { List (List ℕ) };

    ghost view = { λ b. b.names };

    ghost invariant = { λ b. IsName b.names 0 b.first × IsName b.names 1 b.second
        × IsName b.names 2 b.third };
}

impl Buses {
    /// Buses with these names, each numbered by its place from 0.
    pub fn new(names: ShortList<BusName, 3>) -> Buses
        ensures { result ≡ names }
    {
        let first = Name::new(names.as_slice(), 0);
        let second = Name::new(names.as_slice(), 1);
        let third = Name::new(names.as_slice(), 2);
        Buses {
            names,
            first,
            second,
            third,
        }
    }

    /// The names in a row, at most 3.
    #[inline(always)]
    pub fn as_slice(&self) -> &[BusName]
        ensures value { result.now ≡ self.now }
        ensures short { length self.now ≤ 3 }
    {
        self.names.as_slice()
    }

    /// The bus with whose name and a space these bytes begin, and how many bytes these are.
    #[inline(always)]
    pub fn at(&self, s: &[u8]) -> Option<(u8, usize)>
        requires { 16 ≤ length s.now }
        ensures reads { IfSome result (λ p. Reads (bus_in self.now) s.now p.1 p.0) }
        ensures short { IfSome result (λ p. p.1 ≤ 16) }
        ensures bound { IfSome result (λ p. p.0 < 3) }
    {
        let c = u8x16::from_slice(s);
        if equal_before(c, self.first.text) >= self.first.len {
            return Some((0, self.first.len));
        }
        if equal_before(c, self.second.text) >= self.second.len {
            return Some((1, self.second.len));
        }
        if equal_before(c, self.third.text) >= self.third.len {
            return Some((2, self.third.len));
        }
        None
    }
}
