//! What a statement with valued expressions adds to its section, or why it is refused.
ghost use Rattle.std.specs.Prelude.{IfOk, IfErr};
ghost use Rattle.const_expr.specs.Member.{IsScope};
ghost use Rattle.dsdl_resolve.specs.Additions.{AreValuesOf, IsStatementRefusal, Judges, Refuses};
ghost use Rattle.dsdl_resolve.specs.Places.{ArePlacesIn};
ghost use Rattle.dsdl_resolve.specs.Totals.{AreWithin};

use crate::addition::{Addition, Judged, StatementError};
use crate::before::Before;
use crate::constant::judge_constant;
use crate::directive::judge_directive;
use crate::entry::{judge_field, judge_padding};
use crate::finding::Places;
use crate::split::judge_split;
use crate::values::Values;
use const_expr::Scope;
use dsdl_parse::Statement;
use std::alloc::Global;

/// What a statement with these values adds to its section, or the least rule that it breaks, and
/// else a false `@assert` or a length above the limit.
pub fn judge(
    alloc: Global,
    scope: &Scope,
    places: &Places,
    before: &Before,
    statement: &Statement,
    values: &Values,
) -> Result<Judged, StatementError>
    requires scope { IsScope scope.now }
    requires places { ArePlacesIn scope.now places.now }
    requires within { AreWithin before.now.totals }
    requires values { AreValuesOf statement.now values.now }
    ensures judged { IfOk result (Judges scope.now before.now statement.now values.now) }
    ensures refused { IfErr result
        (IsStatementRefusal (Refuses scope.now before.now statement.now values.now)) }
{
    match statement {
        Statement::Empty => Ok(Judged {
            addition: Addition::Nothing,
            totals: before.totals,
        }),
        Statement::Split => judge_split(before),
        Statement::Directive { name, expr: _ } => judge_directive(
            before,
            name.as_str(),
            &values.value,
        ),
        Statement::Constant {
            form,
            name,
            expr: _,
        } => judge_constant(alloc, scope, places, before, form, name.as_str(), values),
        Statement::Field { form, name } => {
            judge_field(
                alloc,
                scope,
                places,
                before,
                form,
                name.as_str(),
                &values.bound,
            )
        }
        Statement::Padding { digits } => judge_padding(before, digits.as_str()),
    }
}
