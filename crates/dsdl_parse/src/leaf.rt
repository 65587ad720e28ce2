//! The trees of single tokens (Cyphal Specification, section 3.2).
ghost use Rattle.std.specs.Prelude.{◌≡◌, true, IfOk};
ghost use Rattle.dsdl_lex.specs.Texts.{is_string};
ghost use Rattle.dsdl_lex.specs.Tokens.{IsKind};
ghost use Rattle.dsdl_parse.specs.Words.{seen};
ghost use Rattle.dsdl_parse.specs.Leaves.{name_node, unquoted};
ghost use Rattle.dsdl_parse.specs.LeafReading.{leaf_node, read_leaf};

use crate::expr::{Expr, ExprNode};
use crate::reference::reference_of;
use crate::words::WordRef;
use cy_bits::{NoMemory, Text};
use dsdl_lex::TokenKind;
use std::alloc::Global;

/// A truth value or another name.
fn name_node(alloc: Global, name: WordRef<'_>) -> Result<ExprNode, NoMemory>
    requires { IsKind name.kind name.text.now }
    ensures { IfOk result (λ node. node ≡ name_node name.entry.text.now) }
{
    match name.text {
        b"true" => Ok(ExprNode::Truth(true)),
        b"false" => Ok(ExprNode::Truth(false)),
        _ => Ok(ExprNode::Name(name.to_text(alloc)?)),
    }
}

/// The text of a string without its quotes.
#[tactic(auto, using(crate::proofs::Strings::two_quotes))]
fn unquoted(alloc: Global, string: &[u8]) -> Result<Text, NoMemory>
    requires { is_string string.now ≡ true }
    ensures { IfOk result (λ inside. inside ≡ unquoted string.now) }
{
    dsdl_lex::ascii();
    Text::from_ascii(alloc, &string[1..string.len() - 1])
}

/// What a word is as an expression, where it is one.
fn leaf_node(alloc: Global, word: WordRef<'_>) -> Result<Option<ExprNode>, NoMemory>
    requires { IsKind word.kind word.text.now }
    ensures { IfOk result (λ node. node ≡ leaf_node word.entry.kind word.entry.text.now) }
{
    match word.kind {
        TokenKind::Number => Ok(Some(ExprNode::Number(word.to_text(alloc)?))),
        TokenKind::Str => Ok(Some(ExprNode::Str(unquoted(alloc, word.text)?))),
        TokenKind::Name => Ok(Some(name_node(alloc, word)?)),
        TokenKind::Reference => Ok(Some(ExprNode::Reference(reference_of(alloc, word.text)?))),
        TokenKind::Split => Ok(None),
        TokenKind::Sign => Ok(None),
    }
}

/// A number, a string, a truth value, a reference or a name, where the word is one.
#[tactic(auto, unfolding(crate::specs::LeafReading::read_leaf))]
pub fn leaf(alloc: Global, word: WordRef<'_>) -> Result<Option<Expr>, NoMemory>
    requires { IsKind word.kind word.text.now }
    ensures { IfOk result (λ x. x ≡ read_leaf (seen word.entry)) }
{
    match leaf_node(alloc, word)? {
        Some(node) => Ok(Some(Expr {
            span: word.span,
            node,
        })),
        None => Ok(None),
    }
}
