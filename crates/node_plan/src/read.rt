//! A plan from its text.
ghost use Rattle.std.specs.Prelude.{◌≡◌, ◌↔◌, ◌<◌, ◌≤◌, ◌+◌, ◌^◌, ℕ, List, Err, IfOk, length, take};
ghost use Rattle.dsdl_types.specs.Definitions.{IsNamespace};
ghost use Rattle.dsdl_types.specs.declared.namespace.Namespace.{Namespace as Names};
ghost use Rattle.node_plan.specs.Answers.{IsPlanAnswer};
ghost use Rattle.node_plan.specs.Draft.{start};
ghost use Rattle.node_plan.specs.IsPlan.{IsDraft, IsPlan};
ghost use Rattle.node_plan.specs.Plan.{Bad, Ends, Goes, Good, IsPlanOf, PlanIs, finished};
ghost use Rattle.node_plan.specs.Words.{parts_of};
ghost use Rattle.node_plan.specs.declared.plan.PlanWhy.{PlanWhy as Why};

use crate::draft::Draft;
use crate::limit::{MAX_TEXT, limit_of};
use crate::line::read_line;
use crate::plan::{Plan, PlanError, PlanWhy};
use crate::words::cut;
use dsdl_types::Namespace;
use std::alloc::Global;

/// The plan of all lines, where `n` is the number of the line that would follow.
fn finished(alloc: Global, draft: Draft, n: u32) -> Result<Plan, PlanError>
    requires { IsDraft draft }
    ensures value { IsPlanAnswer (λ is. is ≡ finished draft n) result }
    ensures sound { IfOk result IsPlan }
{
    draft.finish(alloc).ok_or(PlanError::Refused {
        n,
        why: PlanWhy::Line,
    })
}

/// The plan, once what stands behind the last newline was read as line `n`, if it is one; it is
/// refused in a text that is too long.
fn read_last(
    alloc: Global,
    names: &Namespace,
    is_long: bool,
    mut draft: Draft,
    n: u32,
    line: &[u8],
) -> Result<Plan, PlanError>
    requires types { IsNamespace names.now }
    requires sound { IsDraft draft }
    requires few { n < 2 ^ 31 }
    ensures value { IsPlanAnswer (Ends names.now is_long draft n line.now) result }
    ensures sound { IfOk result IsPlan }
{
    if is_long {
        return Err(PlanError::Refused {
            n,
            why: PlanWhy::Line,
        });
    }
    if line.is_empty() {
        return finished(alloc, draft, n);
    }
    let said = read_line(alloc, names, draft.is_two(), line)?;
    draft.take(alloc, n, said)?;
    finished(alloc, draft, n + 1)
}

/// The plan of lines, with what stands behind the last newline, which is refused where it is long.
fn read_lines(
    alloc: Global,
    names: &Namespace,
    text: &[u8],
    is_long: bool,
) -> Result<Plan, PlanError>
    requires types { IsNamespace names.now }
    requires few { length text.now ≤ MAX_TEXT }
    ensures value { IsPlanAnswer (Goes names.now is_long start 1 (parts_of 10 text.now)) result }
    ensures sound { IfOk result IsPlan }
{
    let mut behind = text;
    let mut draft = Draft::new(alloc);
    let mut n = 1;
    while let Some((line, rest)) = cut(b'\n', behind) {
        let said = read_line(alloc, names, draft.is_two(), line)?;
        draft.take(alloc, n, said)?;
        n += 1;
        behind = rest;
    }
    read_last(alloc, names, is_long, draft, n, behind)
}

/// Reads a plan of version 1 or 2, whose types are messages of a namespace. Line `n` is refused as
/// - `Line` where it is no line of a plan of its version, where it reaches past the bytes that a
///   text may have, or where it would stand behind the last line of a text that lacks `plan`,
///   `node` or `bus`;
/// - `Range` where a number, a name, hex or the text of a register's value is outside its range,
///   for limits that no register of an earlier line can have, or for a fourth bus, a 65th
///   subscription and a 257th register;
/// - `Repeated` where it says again what may be said once, or names a bus, a subject or a register
///   again;
/// - `UnknownType` where it subscribes to a type that is no message of the namespace;
/// - `Range` where it subscribes to a type whose extent is above 65,536 bytes.
///
/// The first line that is refused is told, and the first of these that holds of it.
///
/// A text may have 2^20 bytes, and 32 more where its first line that isn't skipped is `plan 2` and
/// begins among the first 2^20. The first `MAX_TEXT + 1` bytes of a text give the same answer as
/// all of it.
pub fn read_plan(alloc: Global, text: &[u8], names: &Namespace) -> Result<Plan, PlanError>
    requires { IsNamespace names.now }
    ensures plan { IfOk result (λ p. IsPlanOf names.now text.now (Good p)) }
    ensures refused { (n : ℕ) → (why : Why) → result ≡ Err (PlanError.Refused n why)
        → IsPlanOf names.now text.now (Bad n why) }
    ensures sound { IfOk result IsPlan }
    ensures enough { (names : Names) (all : List ℕ) (is : PlanIs)
        → IsPlanOf names (take (MAX_TEXT + 1) all) is ↔ IsPlanOf names all is }
{
    let most = limit_of(text);
    let first = &text[..text.len().min(most)];
    read_lines(alloc, names, first, text.len() > most)
}
