ghost use Rattle.std.specs.Prelude.{◌≡◌, false, None, length};
ghost use Rattle.dsdl_lex.specs.Steps as steps;
ghost use Rattle.dsdl_lex.specs.Scans.{IsBest, IsAlive, kind_before};
ghost use Rattle.std.specs.Prelude.{◌≤◌, drop};

use crate::bytes::{begins_name, is_word};
use crate::state::{State, is_dead, is_in_name, is_pointed, kind_of, step};
use crate::token::TokenKind;

/// What a scan found at the front of a text.
#[derive(Clone, Copy)]
pub struct Found {
    /// The longest token, with its length.
    pub best: Option<(TokenKind, usize)>,
    /// How many bytes are the front of a token.
    pub reach: usize,
}

/// The kind of token that a scan stands behind, at a place of the text.
fn kind_at(state: State, text: &[u8], at: usize) -> Option<TokenKind>
    requires { at ≤ length text.now }
    ensures { result ≡ kind_before state (drop at text.now) }
{
    if is_pointed(state) && begins_name(text, at) {
        None
    } else {
        kind_of(state)
    }
}

/// The longest token at the front of a text.
pub fn scan(start: State, text: &[u8]) -> Found
    requires fresh { steps.kind_of start ≡ None }
    requires alive { steps.is_dead start ≡ false }
    ensures best { IsBest start text.now (length text.now) result.best }
    ensures reach { IsAlive start text.now result.reach }
{
    let mut state = start;
    let mut best = None;
    for (i, b) in text.iter().enumerate() {
        if is_in_name(state) && is_word(*b) {
            best = Some((TokenKind::Name, i + 1));
            continue;
        }
        state = step(state, *b);
        if is_dead(state) {
            return Found { best, reach: i };
        }
        if let Some(kind) = kind_at(state, text, i + 1) {
            best = Some((kind, i + 1));
        }
    }
    Found {
        best,
        reach: text.len(),
    }
}
