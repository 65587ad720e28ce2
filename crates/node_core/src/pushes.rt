//! Lines that are put behind others.
ghost use Rattle.std.specs.Prelude.{◌≡◌, ◌≤◌, ◌+◌, ◌++◌, IfOk, OnOk, OnErr, map, vec_capacity, vec_len};
ghost use Rattle.report_lines.specs.Lent.{told_lines};
ghost use Rattle.report_lines.specs.declared.line.Line.TheVariants.{Full};

use cy_bits::{List, NoMemory, ShortList};
use report_lines::{FullLine, Line, LineRef};
use std::alloc::Global;
use std::mem::replace;

/// Appends the line that was told, if there is one.
pub fn push_told(
    alloc: Global,
    lines: &mut List<Line>,
    told: Option<LineRef<'_>>,
) -> Result<(), NoMemory>
    ensures ok { OnOk result (lines.new ≡ lines.old ++ told_lines told.entry) }
    ensures err { OnErr result (lines.new ≡ lines.old) }
{
    match told {
        Some(line) => lines.push(line.copy(alloc)?),
        None => Ok(()),
    }
}

/// Takes lines out of their list, with room for one on each bus. Where memory is wanting, they
/// stay.
pub fn take_with_room(alloc: Global, lines: &mut List<Line>) -> Result<Vec<Line>, NoMemory>
    ensures lines { IfOk result (λ taken. taken.items ≡ lines.old) }
    ensures room { IfOk result (λ taken. vec_len taken + 3 ≤ vec_capacity taken) }
    ensures err { OnErr result (lines.new ≡ lines.old) }
{
    let mut taken = replace(lines, List::empty(alloc)).into_vec();
    if taken.reserve(3).is_err() {
        *lines = List::new(taken);
        return Err(NoMemory);
    }
    Ok(taken)
}

/// Appends lines on full buses, for which there is room.
pub fn put_fulls(lines: &mut Vec<Line>, fulls: &ShortList<FullLine, 3>)
    requires { vec_len lines.old + 3 ≤ vec_capacity lines.old }
    ensures { lines.new.items ≡ lines.old.items ++ map Full fulls.now }
{
    for full in fulls.as_slice() {
        let _ = lines.push(Line::Full(*full));
    }
}
