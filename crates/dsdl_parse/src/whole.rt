ghost use Rattle.std.specs.Prelude.{◌≡◌, IfOk, Err};
ghost use Rattle.dsdl_lex.specs.Tokens.{Lexes};
ghost use Rattle.dsdl_parse.specs.Words.{words};
ghost use Rattle.dsdl_parse.specs.Grammar.{IsExpression};
ghost use Rattle.dsdl_parse.specs.declared.read_error.ReadError.TheVariants.{Syntax};

use crate::descent::expression;
use crate::expr::Expr;
use crate::read_error::ReadError;
use crate::words::Words;
use dsdl_lex::Token;
use std::alloc::Global;

/// The expression, of at most 64 levels of nesting, that all tokens of a line together are (Cyphal
/// Specification, section 3.2); Syntax exactly where they are none.
#[tactic(auto, using(crate::proofs::WholeReads::whole, crate::proofs::WholeReads::none_whole, crate::proofs::WholeReads::not_whole))]
pub fn parse_expression(alloc: Global, line: &[u8], tokens: &[Token]) -> Result<Expr, ReadError>
    requires { Lexes line.now 0 tokens.now }
    ensures value { IfOk result (λ x. IsExpression 64 (words line.now tokens.now) x) }
    ensures refused { result ≡ Err Syntax → (x : Expr)
        → IsExpression 64 (words line.now tokens.now) x → ⊥ }
{
    let mut words = Words::new(line, tokens);
    let x = expression(alloc, &mut words)?;
    if words.len() == 0 {
        Ok(x)
    } else {
        Err(ReadError::Syntax)
    }
}
