//! What `@print` writes.
ghost use Rattle.std.specs.Prelude.{◌≡◌, Ok, IfOk};
ghost use Rattle.std.specs.Option.{option_to_list};
ghost use Rattle.const_expr.specs.declared.scope.Scope.{Scope};
ghost use Rattle.dsdl_resolve.specs.Judged.{prints_of};
ghost use Rattle.dsdl_resolve.specs.Values.{values};

use crate::values::Values;
use const_expr::print_text;
use cy_bits::{NoMemory, Text, TryCopy};
use dsdl_parse::Statement;
use dsdl_types::Print;
use std::alloc::Global;

/// What a statement with these values prints.
pub fn print_of(
    alloc: Global,
    path: &Text,
    line: u32,
    statement: &Statement,
    worth: &Values,
) -> Result<Option<Print>, NoMemory>
    ensures { IfOk result (λ p. (scope : Scope) → values scope statement.now ≡ Ok worth.now →
        option_to_list p ≡ prints_of scope path.now line statement.now) }
{
    let Statement::Directive { name, expr } = statement else {
        return Ok(None);
    };
    if name.as_str() != "print" {
        return Ok(None);
    }
    let text = match (expr, &worth.value) {
        (Some(expr), Some(value)) => match print_text(alloc, value, expr.span) {
            Ok(text) => text,
            Err(_) => return Err(NoMemory),
        },
        _ => Text::from_str(alloc, "")?,
    };
    Ok(Some(Print {
        file: path.copy(alloc)?,
        line,
        text,
    }))
}
