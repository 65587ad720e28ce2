//! Arrays of truth values.
ghost use Rattle.std.specs.Prelude.{◌≤◌, false, drop, IfOk, OnOk};
ghost use Rattle.dsdl_types.specs.Schemas.{PBool, Simple};
ghost use Rattle.value_scan.specs.Written.{written};
ghost use Rattle.value_scan.specs.Scanned.{IsRow, LeavesRow};

use crate::bit_buffer::BitBuffer;
use crate::gives_up::GivesUp;
use crate::line::eat_lead;
use crate::primitives::scan_truth;

/// Scans at most so many truth values up to a closing bracket, and says how many.
pub fn scan_truths(
    most: u32,
    line: &[u8],
    at: &mut usize,
    out: &mut BitBuffer,
) -> Result<u32, GivesUp>
    ensures scanned { IfOk result (λ n.
        IsRow (Simple PBool) n line.now at.old out.old at.new out.new) }
    ensures place { OnOk result (out.old.place ≤ out.new.place) }
{
    for index in 0..most {
        if line.get(*at) == Some(&b']') {
            return Ok(index);
        }
        scan_one(index == 0, line, at, out)?;
    }
    Ok(most)
}

/// Scans one truth value.
#[inline(always)]
fn scan_one(first: bool, line: &[u8], at: &mut usize, out: &mut BitBuffer) -> Result<(), GivesUp>
    ensures scanned { OnOk result
        (LeavesRow (Simple PBool) (drop at.old line.now) (drop at.new line.now)
        (written out.old) (written out.new) first 1 false) }
    ensures place { OnOk result (out.old.place ≤ out.new.place) }
{
    eat_lead(line, at, first)?;
    scan_truth(line, at, out)
}
