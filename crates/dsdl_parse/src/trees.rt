//! The trees of expressions from their parts.
ghost use Rattle.std.specs.Prelude.{◌≡◌, IfOk};
ghost use Rattle.dsdl_lex.specs.Tokens.{IsKind};
ghost use Rattle.dsdl_parse.specs.Words.{seen};
ghost use Rattle.dsdl_parse.specs.Trees.{binary, unary, member, set_of};

use crate::expr::{Expr, ExprNode, Span};
use crate::words::WordRef;
use cy_bits::{Boxed, List, NoMemory};
use std::alloc::Global;

impl Expr {
    /// Two operands with the operator between them.
    #[tactic(auto, unfolding(crate::specs::Trees::binary))]
    pub fn binary(alloc: Global, op: WordRef<'_>, left: Expr, right: Expr) -> Result<Expr, NoMemory>
        requires { IsKind op.kind op.text.now }
        ensures { IfOk result (λ x. x ≡ binary (seen op.entry) left right) }
    {
        let span = Span {
            from: left.span.from,
            to: right.span.to,
        };
        let text = op.to_text(alloc)?;
        let left = Boxed::new(alloc, left)?;
        let right = Boxed::new(alloc, right)?;
        Ok(Expr {
            span,
            node: ExprNode::Binary(text, left, right),
        })
    }

    /// An operand behind its operator.
    #[tactic(auto, unfolding(crate::specs::Trees::unary))]
    pub fn unary(alloc: Global, op: WordRef<'_>, operand: Expr) -> Result<Expr, NoMemory>
        requires { IsKind op.kind op.text.now }
        ensures { IfOk result (λ x. x ≡ unary (seen op.entry) operand) }
    {
        let span = Span {
            from: op.span.from,
            to: operand.span.to,
        };
        let text = op.to_text(alloc)?;
        let operand = Boxed::new(alloc, operand)?;
        Ok(Expr {
            span,
            node: ExprNode::Unary(text, operand),
        })
    }

    /// The member of that name.
    #[tactic(auto, unfolding(crate::specs::Trees::member))]
    pub fn member(alloc: Global, of: Expr, name: WordRef<'_>) -> Result<Expr, NoMemory>
        requires { IsKind name.kind name.text.now }
        ensures { IfOk result (λ x. x ≡ member of (seen name.entry)) }
    {
        let span = Span {
            from: of.span.from,
            to: name.span.to,
        };
        let text = name.to_text(alloc)?;
        let of = Boxed::new(alloc, of)?;
        Ok(Expr {
            span,
            node: ExprNode::Member(of, text),
        })
    }

    /// A set literal with its braces.
    #[tactic(auto, unfolding(crate::specs::Trees::set_of))]
    pub fn set_of(from: WordRef<'_>, members: List<Expr>, to: WordRef<'_>) -> Expr
        ensures { result ≡ set_of (seen from.entry) members (seen to.entry) }
    {
        Expr {
            span: Span {
                from: from.span.from,
                to: to.span.to,
            },
            node: ExprNode::Set(members),
        }
    }
}
