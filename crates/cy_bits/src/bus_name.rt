ghost use Rattle.std.specs.Prelude.{◌≡◌, ◌≤◌, ◌<◌, ℕ, List, length, MatchOption};

use arrayvec::ArrayString;
use std::marker::Model;

/// The name of a bus: at most 15 bytes.
#[derive(Default, Drop)]
pub struct BusName {
    text: ArrayString<15>,
}

impl Model for BusName {
    ghost Value = { List ℕ };

    ghost view = { λ a. a.text.bytes };
}

impl BusName {
    /// Takes an `ArrayString` as it is.
    pub fn from_array_string(text: ArrayString<15>) -> BusName
        ensures { result ≡ text.bytes }
    {
        BusName { text }
    }

    /// Gives the `ArrayString` back.
    pub fn into_array_string(self) -> ArrayString<15>
        ensures { result.bytes ≡ self }
    {
        let BusName { text } = self;
        text
    }

    /// The name, where it has at most 15 bytes.
    pub fn new(name: &str) -> Option<BusName>
        ensures { MatchOption result (15 < length name.now)
            (λ n. (n ≡ name.now) × (length name.now ≤ 15)) }
    {
        let mut text = ArrayString::new();
        match text.try_push_str(name) {
            Ok(()) => Some(BusName { text }),
            Err(_) => None,
        }
    }

    /// The name's text.
    pub fn as_str(&self) -> &str
        ensures value { result.now ≡ self.now }
        ensures short { length self.now ≤ 15 }
    {
        self.text.as_str()
    }
}
