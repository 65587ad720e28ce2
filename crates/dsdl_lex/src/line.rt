ghost use Rattle.std.specs.Prelude.{◌≡◌, ℕ, ◌+◌, ◌≤◌, ◌<◌, ◌^◌, [], length, Err, IfOk, OnOk, OnErr, IfSome, IfNone};
ghost use Rattle.dsdl_lex.specs.Tokens.{Lexes, Stuck, IsLongest, NoToken};
ghost use Rattle.dsdl_lex.specs.Scans.{IsClear, NoSplit, is_name_kind, clear_after};
ghost use Rattle.dsdl_lex.specs.declared.line.LexError.TheVariants.{Lex};

use crate::bytes::{behind, is_blank};
use crate::scan::{Found, scan};
use crate::split::split_of;
use crate::state::State;
use crate::token::{Token, TokenKind};
use cy_bits::{List, NoMemory};
use std::alloc::Global;

/// Why a line has no tokens (Cyphal Specification, section 3.2).
#[derive(Clone, Copy, Debug, Drop, PartialEq, Eq)]
pub enum LexError {
    /// No token begins at this byte, counted from 0.
    Lex { column: u32 },
    /// The memory for the tokens was refused.
    NoMemory,
}

impl From<NoMemory> for LexError {
    ghost use Rattle.std.specs.Prelude.{◌≡◌};
    ghost use Rattle.dsdl_lex.specs.declared.line.LexError.TheVariants.{NoMemory};

    ghost from_gives = { λ _ e. e ≡ NoMemory };

    fn from(_: NoMemory) -> LexError {
        LexError::NoMemory
    }
}

fn is_name(kind: TokenKind) -> bool
    ensures { result ≡ is_name_kind kind }
{
    match kind {
        TokenKind::Name => true,
        _ => false,
    }
}

/// The place before which no reference begins, behind a scan that reached so far from this place:
/// where it found a name, none begins in its reach.
fn clear_behind(best: Option<(TokenKind, usize)>, at: usize, reach: usize, clear: usize) -> usize
    requires { at + reach < 2 ^ 64 }
    ensures { result ≡ clear_after best at reach clear }
{
    match best {
        Some((kind, _)) => { if is_name(kind) { at + reach } else { clear } }
        None => clear,
    }
}

/// The longest token from a place on. No reference begins at a place before `clear`, which moves
/// on where a scan found none.
fn found_at(line: &[u8], at: usize, clear: &mut usize) -> Option<(TokenKind, usize)>
    requires within { at ≤ length line.now }
    requires no_split { NoSplit line.now }
    requires clear { IsClear line.now at clear.old }
    ensures found { IfSome result (λ r. IsLongest line.now at r.0 r.1) }
    ensures none { IfNone result (NoToken line.now at) }
    ensures clear { IsClear line.now at clear.new }
{
    let text = behind(line, at);
    if at < *clear {
        return scan(State::Plain, text).best;
    }
    let Found { best, reach } = scan(State::Start, text);
    *clear = clear_behind(best, at, reach, *clear);
    best
}

/// The tokens of a line, in order (Cyphal Specification, section 3.2); comments and blanks give
/// none. Takes time linear in the line. A line of 2^32 bytes or more may not be given.
pub fn tokens_of(alloc: Global, line: &[u8]) -> Result<List<Token>, LexError>
    requires { length line.now < 2 ^ 32 }
    ensures tokens { IfOk result (λ tokens. Lexes line.now 0 tokens) }
    ensures refused { (column : ℕ) → result ≡ Err (Lex column) → Stuck line.now 0 column }
{
    let mut tokens = List::empty(alloc);
    lex_line(line, &mut tokens)?;
    Ok(tokens)
}

/// The same in place of what a list held, which uses the list's memory again. Where a line has no
/// tokens, or memory is wanting, the list is empty.
pub fn lex_line(line: &[u8], tokens: &mut List<Token>) -> Result<(), LexError>
    requires { length line.now < 2 ^ 32 }
    ensures tokens { OnOk result (Lexes line.now 0 tokens.new) }
    ensures empty { OnErr result (tokens.new ≡ []) }
    ensures refused { (column : ℕ) → result ≡ Err (Lex column) → Stuck line.now 0 column }
{
    tokens.cut_back(0);
    let lexed = put_tokens(line, tokens);
    if lexed.is_err() {
        tokens.cut_back(0);
    }
    lexed
}

/// Puts the tokens of a line, in order, into an empty list.
fn put_tokens(line: &[u8], tokens: &mut List<Token>) -> Result<(), LexError>
    requires short { length line.now < 2 ^ 32 }
    requires empty { tokens.old ≡ [] }
    ensures tokens { OnOk result (Lexes line.now 0 tokens.new) }
    ensures refused { (column : ℕ) → result ≡ Err (Lex column) → Stuck line.now 0 column }
{
    if let Some((at, n)) = split_of(line) {
        tokens.push(Token {
            kind: TokenKind::Split,
            from: at as u32,
            to: (at + n) as u32,
        })?;
        return Ok(());
    }
    let mut at = 0;
    let mut clear = 0;
    while at < line.len() {
        let b = line[at];
        if b == b'#' {
            return Ok(());
        }
        if is_blank(b) {
            at += 1;
            continue;
        }
        match found_at(line, at, &mut clear) {
            Some((kind, n)) => {
                tokens.push(Token {
                    kind,
                    from: at as u32,
                    to: (at + n) as u32,
                })?;
                at += n;
            }
            None => return Err(LexError::Lex { column: at as u32 }),
        }
    }
    Ok(())
}
