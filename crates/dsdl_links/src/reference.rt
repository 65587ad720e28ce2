//! The references in statements, and the types that they mean.
ghost use Rattle.std.specs.Prelude.{◌≡◌, ◌++◌, ◌∷◌, ◌<◌, [], ℕ, List, None, Some, length, map, IfOk, OnOk, MatchOption};
ghost use Rattle.std.specs.List.{cons_option};
ghost use Rattle.std.specs.Option.{option_copied};
ghost use Rattle.dsdl_parse.specs.declared.expr.ExprNode.{out-ExprNode};
ghost use Rattle.dsdl_parse.specs.LeavesOf.{reference_in, references_of};
ghost use Rattle.dsdl_links.specs.Mentions.{in_bound, in_scalar, references_in, type_of};

use cy_bits::NoMemory;
use dsdl_names::{FullName, TypeId};
use dsdl_parse::{Expr, ExprNode, Form, Reference, Scalar, Statement, as_leaf, leaves};
use std::alloc::Global;

/// The references in a statement, in the order of the text.
pub fn references_in<'a>(
    alloc: Global,
    statement: &'a Statement,
) -> Result<Vec<&'a Reference>, NoMemory>
    ensures { IfOk result (λ found. map (λ r. r.now) found.items ≡ references_in statement.now) }
{
    let mut found = Vec::new(alloc);
    match statement {
        Statement::Directive {
            name: _,
            expr: Some(expr),
        } => add_value(alloc, expr, &mut found)?,
        Statement::Constant {
            form,
            name: _,
            expr,
        } => {
            add_form(alloc, form, &mut found)?;
            add_value(alloc, expr, &mut found)?;
        }
        Statement::Field { form, name: _ } => add_form(alloc, form, &mut found)?,
        _ => {}
    }
    Ok(found)
}

/// Adds the references in a type.
fn add_form<'a>(
    alloc: Global,
    form: &'a Form,
    found: &mut Vec<&'a Reference>,
) -> Result<(), NoMemory>
    ensures { OnOk result (map (λ r. r.now) found.new.items ≡ map (λ r. r.now) found.old.items
        ++ (in_scalar form.now.scalar ++ in_bound form.now.array)) }
{
    if let Scalar::Reference(reference) = &form.scalar {
        found.push(reference)?;
    }
    if let Some(bound) = &form.array {
        add_value(alloc, &bound.expr, found)?;
    }
    Ok(())
}

/// Adds the references in an expression.
fn add_value<'a>(
    alloc: Global,
    expr: &'a Expr,
    found: &mut Vec<&'a Reference>,
) -> Result<(), NoMemory>
    ensures { OnOk result (map (λ r. r.now) found.new.items ≡ map (λ r. r.now) found.old.items
        ++ references_of expr.now) }
{
    if let Some(leaf) = as_leaf(expr) {
        return add_leaf(leaf, found);
    }
    let leaves = leaves(alloc, expr)?;
    for leaf in &leaves {
        add_leaf(leaf, found)?;
    }
    Ok(())
}

/// Adds the reference that a leaf is.
fn add_leaf<'a>(leaf: &'a ExprNode, found: &mut Vec<&'a Reference>) -> Result<(), NoMemory>
    ensures { OnOk result (map (λ r. r.now) found.new.items ≡ map (λ r. r.now) found.old.items
        ++ cons_option (reference_in (out-ExprNode leaf.now)) []) }
{
    if let Some(reference) = reference_in(leaf) {
        found.push(reference)?;
    }
    Ok(())
}

/// The reference that a leaf is.
fn reference_in<'a>(leaf: &'a ExprNode) -> Option<&'a Reference>
    ensures { option_copied result ≡ reference_in (out-ExprNode leaf.now) }
{
    match leaf {
        ExprNode::Reference(reference) => Some(reference),
        _ => None,
    }
}

/// The type that a reference means in the definition of a type (Cyphal Specification,
/// section 3.4.5); one without a name means none.
pub fn type_of(
    alloc: Global,
    own: &FullName,
    reference: &Reference,
) -> Result<Option<TypeId>, NoMemory>
    ensures { IfOk result (λ id. id ≡ type_of own.now reference.now) }
{
    let Some(name) = own.beside(alloc, reference.names.as_slice())? else {
        return Ok(None);
    };
    Ok(Some(TypeId {
        name,
        major: reference.major,
        minor: reference.minor,
    }))
}
