//! Which statements ask for the lengths of their section so far.
ghost use Rattle.std.specs.Prelude.{◌≡◌, IfOk, codes};
ghost use Rattle.std.specs.List.{list_any};
ghost use Rattle.dsdl_parse.specs.LeavesOf.{names_it};
ghost use Rattle.dsdl_resolve.specs.Says.{names_offset, of_bound};

use cy_bits::NoMemory;
use dsdl_parse::{Bound, Statement, names_it};
use std::alloc::Global;

/// The name of the lengths of a section so far.
const OFFSET: &str = "_offset_";

/// Whether the bound of an array names `_offset_`.
fn bound_names_offset(alloc: Global, array: &Option<Bound>) -> Result<bool, NoMemory>
    ensures { IfOk result (λ found.
        found ≡ list_any (λ x. names_it x (codes "_offset_")) (of_bound array.now)) }
{
    match array {
        Some(bound) => names_it(alloc, &bound.expr, OFFSET),
        None => Ok(false),
    }
}

/// Whether an expression of a statement names `_offset_`.
pub fn names_offset(alloc: Global, statement: &Statement) -> Result<bool, NoMemory>
    ensures { IfOk result (λ found. found ≡ names_offset statement.now) }
{
    match statement {
        Statement::Field { form, name: _ } => bound_names_offset(alloc, &form.array),
        Statement::Constant {
            form,
            name: _,
            expr,
        } => {
            if bound_names_offset(alloc, &form.array)? {
                return Ok(true);
            }
            names_it(alloc, expr, OFFSET)
        }
        Statement::Directive {
            name: _,
            expr: Some(expr),
        } => names_it(alloc, expr, OFFSET),
        _ => Ok(false),
    }
}
