//! The words of a line that are left.
ghost use Rattle.std.specs.Prelude.{◌≡◌, ◌≤◌, IfOk, IfSome, length};
ghost use Rattle.std.specs.Str.{bytes_eq};
ghost use Rattle.dsdl_lex.specs.Tokens.{IsKind, Lexes};
ghost use Rattle.dsdl_parse.specs.Words.{words, on_sign, any_of, just, first_in};
ghost use Rattle.dsdl_parse.specs.Words.{is_plain_kind, closing, may_follow, at_end, alone};
ghost use Rattle.dsdl_parse.specs.Taking.{IsFirst, Takes, TakesNext};

use crate::expr::Span;
use cy_bits::{NoMemory, Text};
use dsdl_lex::{Token, TokenKind};
use std::alloc::Global;
use std::marker::Model;

/// A word of a line: a token with its bytes.
#[derive(Clone, Copy)]
pub struct WordRef<'a> {
    /// What the token is.
    pub kind: TokenKind,
    /// Its bytes.
    pub text: &'a [u8],
    /// Its place in the line.
    pub span: Span,
}

impl WordRef<'_> {
    /// The bytes as a text.
    pub fn to_text(self, alloc: Global) -> Result<Text, NoMemory>
        requires { IsKind self.kind self.text.now }
        ensures { IfOk result (λ text. text ≡ self.entry.text.now) }
    {
        dsdl_lex::ascii();
        Text::from_ascii(alloc, self.text)
    }
}

/// The words of a line from some place on, which are taken one after another.
#[derive(Drop)]
pub struct Words<'a> {
    line: &'a [u8],
    rest: &'a [Token],
}

impl<'a> Model for Words<'a> {
    ghost use Rattle.std.specs.Prelude.{List};
    ghost use Rattle.dsdl_parse.specs.Words.{Word, words, AreTokens};

    ghost Value = { List Word };

    ghost view = { λ w. words w.line.now w.rest.now };

    ghost invariant = { λ w. AreTokens w.line.now w.rest.now };
}

impl<'a> Words<'a> {
    /// All words of a line.
    pub fn new(line: &'a [u8], tokens: &'a [Token]) -> Words<'a>
        requires { Lexes line.now 0 tokens.now }
        ensures { result ≡ words line.now tokens.now }
    {
        Words { line, rest: tokens }
    }

    /// The number of words that are left.
    pub fn len(&self) -> usize
        ensures { result ≡ length self.now }
    {
        self.rest.len()
    }

    /// The next word, which stays.
    pub fn peek(&self) -> Option<WordRef<'a>>
        ensures word { IsFirst self.now result }
        ensures kind { IfSome result (λ w. IsKind w.kind w.text.now) }
    {
        let token = self.rest.first()?;
        Some(WordRef {
            kind: token.kind,
            text: &self.line[token.from as usize..token.to as usize],
            span: Span {
                from: token.from,
                to: token.to,
            },
        })
    }

    /// Takes the next word.
    pub fn next(&mut self) -> Option<WordRef<'a>>
        ensures taken { TakesNext self.old result self.new }
        ensures kind { IfSome result (λ w. IsKind w.kind w.text.now) }
    {
        let word = self.peek()?;
        self.rest = &self.rest[1..];
        Some(word)
    }

    /// Whether the next word is this sign.
    pub fn is(&self, sign: &[u8]) -> bool
        ensures { result ≡ first_in (just sign.now) self.now }
    {
        match self.peek() {
            Some(word) => is_sign(word.kind, word.text, sign),
            None => false,
        }
    }

    /// Takes the next word where it is this sign.
    pub fn take_sign(&mut self, sign: &[u8]) -> Option<WordRef<'a>>
        ensures taken { Takes (just sign.now) self.old result self.new }
        ensures kind { IfSome result (λ w. IsKind w.kind w.text.now) }
    {
        if self.is(sign) { self.next() } else { None }
    }

    /// Whether no expression in front of these words goes on with them.
    fn is_at_end(&self) -> bool
        ensures { result ≡ at_end self.now }
    {
        match self.peek() {
            Some(word) => may_follow(word.kind, word.text),
            None => true,
        }
    }

    /// Whether the next word is a number, a string or a name behind which no operator stands.
    pub fn is_alone(&self) -> bool
        ensures { result ≡ alone self.now }
    {
        let mut behind = Words {
            line: self.line,
            rest: self.rest,
        };
        match behind.next() {
            Some(word) => is_plain(word.kind) && behind.is_at_end(),
            None => false,
        }
    }
}

fn is_plain(kind: TokenKind) -> bool
    ensures { result ≡ is_plain_kind kind }
{
    match kind {
        TokenKind::Number | TokenKind::Str | TokenKind::Name => true,
        _ => false,
    }
}

fn is_closing(text: &[u8]) -> bool
    ensures { result ≡ any_of closing text.now }
{
    same(text, b"]") || same(text, b",") || same(text, b"}") || same(text, b")")
}

fn may_follow(kind: TokenKind, text: &[u8]) -> bool
    ensures { result ≡ may_follow kind text.now }
{
    match kind {
        TokenKind::Sign => is_closing(text),
        _ => true,
    }
}

/// Whether a text is this one.
pub fn same(text: &[u8], sign: &[u8]) -> bool
    ensures { result ≡ bytes_eq text.now sign.now }
{
    text == sign
}

fn is_sign(kind: TokenKind, text: &[u8], sign: &[u8]) -> bool
    ensures { result ≡ on_sign (just sign.now) kind text.now }
{
    match kind {
        TokenKind::Sign => text == sign,
        _ => false,
    }
}
