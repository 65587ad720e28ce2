//! Arrays of bytes: `#` and two hex digits for each byte.
ghost use Rattle.std.specs.Prelude.{◌≤◌, Bool as Truth, drop, IfOk, OnOk};
ghost use Rattle.dsdl_types.specs.Schemas.{PUint, Simple};
ghost use Rattle.value_scan.specs.Written.{written};
ghost use Rattle.value_scan.specs.Scanned.{IsArray};
ghost use Rattle.value_scan.specs.Bytes.{ScansBytes};

use crate::bit_buffer::BitBuffer;
use crate::gives_up::GivesUp;
use crate::hex_text::bytes_in;
use crate::line::{behind, eat, skip};

/// Scans an array of at most so many bytes, and says how many it has.
pub fn scan_bytes(
    most: u32,
    line: &[u8],
    at: &mut usize,
    out: &mut BitBuffer,
) -> Result<u32, GivesUp>
    ensures scanned { IfOk result (λ n. (cast : Truth) →
        IsArray (Simple (PUint 8 cast)) n line.now at.old out.old at.new out.new) }
    ensures place { OnOk result (out.old.place ≤ out.new.place) }
{
    eat(line, at, b"#")?;
    scan_hex(most, line, at, out)
}

/// Scans at most so many bytes of two hex digits each, eight at a time, and says how many.
fn scan_hex(most: u32, line: &[u8], at: &mut usize, out: &mut BitBuffer) -> Result<u32, GivesUp>
    ensures scanned { IfOk result (λ n. ScansBytes n
        (drop at.old line.now) (drop at.new line.now) (written out.old) (written out.new)) }
    ensures place { OnOk result (out.old.place ≤ out.new.place) }
{
    let mut count = 0;
    for _ in 0..most / 8 + 1 {
        let size = scan_block(most - count, line, at, out)?;
        count += size;
        if size < 8 {
            return Ok(count);
        }
    }
    Ok(count)
}

/// Scans at most eight bytes.
#[inline(always)]
fn scan_block(most: u32, line: &[u8], at: &mut usize, out: &mut BitBuffer) -> Result<u32, GivesUp>
    ensures scanned { IfOk result (λ n. ScansBytes n
        (drop at.old line.now) (drop at.new line.now) (written out.old) (written out.new)) }
    ensures few { IfOk result (λ n. n ≤ most) }
    ensures place { OnOk result (out.old.place ≤ out.new.place) }
{
    let rest = behind(line, *at)?;
    let block = bytes_in(rest, most);
    skip(at, 2 * block.size as usize)?;
    out.put(block.word, 8 * block.size)?;
    Ok(block.size)
}
