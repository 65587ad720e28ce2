//! The leaves of an expression, without a recursion.
ghost use Rattle.std.specs.Prelude.{◌≡◌, ◌++◌, ◌∷◌, [], map, reverse, true, false, IfOk, IfSome, IfNone, OnOk, OnErr};
ghost use Rattle.dsdl_parse.specs.LeavesOf.{leaves_of, parts_of, is_leaf, is_name_at, names_it};

use crate::expr::{Expr, ExprNode};
use cy_bits::NoMemory;
use std::alloc::Global;

/// The numbers, strings, truth values, names and references in an expression, in the order of the
/// text. A name behind a point is none of them.
pub fn leaves<'a>(alloc: Global, expr: &'a Expr) -> Result<Vec<&'a ExprNode>, NoMemory>
    ensures { IfOk result (λ leaves. map (λ x. x.now) leaves.items ≡ leaves_of expr.now) }
{
    let mut leaves = Vec::new(alloc);
    let mut waiting = Vec::new(alloc);
    waiting.push(expr)?;
    while let Some(next) = waiting.pop() {
        if is_leaf(&next.node) {
            leaves.push(&next.node)?;
            continue;
        }
        stack_parts(next, &mut waiting)?;
    }
    Ok(leaves)
}

/// Whether an expression has no others in it.
fn is_leaf(node: &ExprNode) -> bool
    ensures { result ≡ is_leaf node.now }
{
    match node {
        ExprNode::Set(_)
        | ExprNode::Unary(_, _)
        | ExprNode::Binary(_, _, _)
        | ExprNode::Member(_, _) => false,
        _ => true,
    }
}

/// Puts the expressions right in an expression on a stack, the first on top.
fn stack_parts<'a>(expr: &'a Expr, stack: &mut Vec<&'a Expr>) -> Result<(), NoMemory>
    ensures { OnOk result (map (λ x. x.now) stack.new.items ≡ map (λ x. x.now) stack.old.items
        ++ reverse (parts_of expr.now)) }
{
    match &expr.node {
        ExprNode::Set(members) => stack_all(members.as_slice(), stack)?,
        ExprNode::Unary(_, operand) => stack.push(operand.get())?,
        ExprNode::Binary(_, left, right) => {
            stack.push(right.get())?;
            stack.push(left.get())?;
        }
        ExprNode::Member(inner, _) => stack.push(inner.get())?,
        _ => {}
    }
    Ok(())
}

/// Puts expressions on a stack, the first on top.
fn stack_all<'a>(exprs: &'a [Expr], stack: &mut Vec<&'a Expr>) -> Result<(), NoMemory>
    ensures { OnOk result (map (λ x. x.now) stack.new.items ≡ map (λ x. x.now) stack.old.items
        ++ reverse exprs.now) }
{
    let mut i = exprs.len();
    while i > 0 {
        i -= 1;
        stack.push(&exprs[i])?;
    }
    Ok(())
}

/// What an expression is that has no others in it.
pub fn as_leaf<'a>(expr: &'a Expr) -> Option<&'a ExprNode>
    ensures own { IfSome result (λ leaf. leaf.now ≡ expr.now.node) }
    ensures some { IfSome result (λ _. is_leaf expr.now.node ≡ true) }
    ensures leaf { IfSome result (λ leaf. leaves_of expr.now ≡ leaf.now ∷ []) }
    ensures none { IfNone result (is_leaf expr.now.node ≡ false) }
{
    if is_leaf(&expr.node) {
        Some(&expr.node)
    } else {
        None
    }
}

/// Whether an expression names this, as `_offset_`; names behind a point don't count. Takes memory
/// only where the expression has others in it.
#[tactic(auto, using(crate::proofs::LeafWalk::leaf_names))]
pub fn names_it(alloc: Global, expr: &Expr, name: &str) -> Result<bool, NoMemory>
    ensures named { IfOk result (λ found. found ≡ names_it expr.now name.now) }
    ensures memory { OnErr result (is_leaf expr.now.node ≡ false) }
{
    if let Some(leaf) = as_leaf(expr) {
        return Ok(is_name(leaf, name));
    }
    some_names_it(alloc, expr, name)
}

/// Whether one of the leaves of an expression is this name.
fn some_names_it(alloc: Global, expr: &Expr, name: &str) -> Result<bool, NoMemory>
    ensures { IfOk result (λ found. found ≡ names_it expr.now name.now) }
{
    let mut waiting = Vec::new(alloc);
    waiting.push(expr)?;
    while let Some(next) = waiting.pop() {
        if !is_leaf(&next.node) {
            stack_parts(next, &mut waiting)?;
            continue;
        }
        if is_name(&next.node, name) {
            return Ok(true);
        }
    }
    Ok(false)
}

/// Whether a leaf is this name.
fn is_name(leaf: &ExprNode, name: &str) -> bool
    ensures { result ≡ is_name_at name.now leaf.now }
{
    match leaf {
        ExprNode::Name(other) => other.as_str() == name,
        _ => false,
    }
}
