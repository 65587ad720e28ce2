//! The binary operators that group from the left (Cyphal Specification, section 3.2).
ghost use Rattle.std.specs.Prelude.{◌≡◌, IfSome};
ghost use Rattle.dsdl_lex.specs.Tokens.{IsKind};
ghost use Rattle.dsdl_parse.specs.Words.{any_of, first_in, orders};
ghost use Rattle.dsdl_parse.specs.Taking.{Takes};
ghost use Rattle.dsdl_parse.specs.Levels.{signs_of};

use crate::words::{WordRef, Words, same};
use dsdl_lex::TokenKind;

/// A level of binary operators, from the loosest to the tightest.
#[derive(Clone, Copy)]
pub enum Level {
    /// `||` and `&&`.
    Logic,
    /// `==`, `!=`, `<=`, `>=`, `<` and `>`.
    Order,
    /// `|`, `^` and `&`.
    Bits,
    /// `+` and `-`.
    Sum,
    /// `*`, `/` and `%`.
    Product,
}

fn is_order(text: &[u8]) -> bool
    ensures { result ≡ any_of orders text.now }
{
    same(text, b"==")
        || same(text, b"!=")
        || same(text, b"<=")
        || same(text, b">=")
        || same(text, b"<")
        || same(text, b">")
}

impl Level {
    /// Whether a sign's text is an operator of this level.
    fn has(self, text: &[u8]) -> bool
        ensures { result ≡ any_of (signs_of self) text.now }
    {
        match self {
            Level::Logic => same(text, b"||") || same(text, b"&&"),
            Level::Order => is_order(text),
            Level::Bits => same(text, b"|") || same(text, b"^") || same(text, b"&"),
            Level::Sum => same(text, b"+") || same(text, b"-"),
            Level::Product => same(text, b"*") || same(text, b"/") || same(text, b"%"),
        }
    }

    /// Whether the next word is an operator of this level.
    fn is_next(self, words: &Words<'_>) -> bool
        ensures { result ≡ first_in (signs_of self) words.now }
    {
        match words.peek() {
            Some(word) => match word.kind {
                TokenKind::Sign => self.has(word.text),
                _ => false,
            },
            None => false,
        }
    }

    /// Takes the next word where it is an operator of this level.
    pub fn take<'a>(self, words: &mut Words<'a>) -> Option<WordRef<'a>>
        ensures taken { Takes (signs_of self) words.old result words.new }
        ensures kind { IfSome result (λ w. IsKind w.kind w.text.now) }
    {
        if self.is_next(words) {
            words.next()
        } else {
            None
        }
    }
}
