ghost use Rattle.std.specs.Prelude.{◌≡◌, ◌∷◌, [], option_map};
ghost use Rattle.cyphal.specs.BusNames.{buses_among, buses_given};
ghost use Rattle.cyphal.specs.Words.{names_of};

use crate::bus_word::BusWord;
use cy_bits::{BusName, ShortList};

/// One to three buses.
#[derive(Clone, Copy, Drop)]
pub enum BusNames<'a> {
    One(BusWord<'a>),
    Two(BusWord<'a>, BusWord<'a>),
    Three(BusWord<'a>, BusWord<'a>, BusWord<'a>),
}

impl<'a> BusNames<'a> {
    /// The buses of a word: one to three names with `,` between, all different.
    pub fn new(word: &'a str) -> Option<BusNames<'a>>
        ensures { option_map names_of result ≡ buses_given word.entry.now }
    {
        let Some((first, others)) = word.split_once(',') else {
            return BusNames::one(word);
        };
        match others.split_once(',') {
            None => BusNames::two(first, others),
            Some((second, third)) => BusNames::three(first, second, third),
        }
    }

    fn one(name: &'a str) -> Option<BusNames<'a>>
        ensures { option_map names_of result ≡ buses_among (name.entry.now ∷ []) }
    {
        Some(BusNames::One(BusWord::new(name)?))
    }

    fn two(first: &'a str, second: &'a str) -> Option<BusNames<'a>>
        ensures { option_map names_of result
            ≡ buses_among (first.entry.now ∷ second.entry.now ∷ []) }
    {
        if first == second {
            return None;
        }
        Some(BusNames::Two(BusWord::new(first)?, BusWord::new(second)?))
    }

    fn three(first: &'a str, second: &'a str, third: &'a str) -> Option<BusNames<'a>>
        ensures { option_map names_of result
            ≡ buses_among (first.entry.now ∷ second.entry.now ∷ third.entry.now ∷ []) }
    {
        if first == second || first == third || second == third {
            return None;
        }
        let first = BusWord::new(first)?;
        let second = BusWord::new(second)?;
        Some(BusNames::Three(first, second, BusWord::new(third)?))
    }

    /// The names, the first one first.
    pub fn listed(self) -> ShortList<BusName, 3>
        ensures { result ≡ names_of self.entry }
    {
        let mut names = ShortList::new();
        match self {
            BusNames::One(a) => names.push(a.owned()),
            BusNames::Two(a, b) => {
                names.push(a.owned());
                names.push(b.owned());
            }
            BusNames::Three(a, b, c) => {
                names.push(a.owned());
                names.push(b.owned());
                names.push(c.owned());
            }
        }
        names
    }
}
