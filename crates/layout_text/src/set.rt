//! The text of a set of lengths.
ghost use Rattle.std.specs.Prelude.{◌≡◌, ◌++◌, OnOk, length};
ghost use Rattle.bit_length.specs.Ascending.{Ascend};
ghost use Rattle.layout_text.specs.Sets.{ends_text, listed, member_text, members_text, range_text, set_text};

use crate::words::{push_bytes, push_number};
use bit_length::LengthSet;
use cy_bits::NoMemory;

/// The greatest number of members that are listed.
const MOST: u64 = 16;

/// Appends the text of a set: its members, or, where they are more than 16, the least, the greatest and their number.
pub fn push_set(text: &mut Vec<u8>, set: &LengthSet) -> Result<(), NoMemory>
    ensures text { OnOk result (text.new.items ≡ text.old.items ++ set_text set.now) }
    ensures ascending { OnOk result (Ascend set.now) }
{
    text.push(b'{')?;
    push_some(text, set)?;
    text.push(b'}')?;
    Ok(())
}

/// Appends the members, or the least, the greatest and their number.
fn push_some(text: &mut Vec<u8>, set: &LengthSet) -> Result<(), NoMemory>
    ensures text { OnOk result (text.new.items ≡ text.old.items ++ members_text set.now) }
    ensures ascending { Ascend set.now }
{
    let count = set.count();
    if count > MOST {
        push_range(text, set, count)
    } else {
        push_members(text, set)
    }
}

/// Appends the least and the greatest member, and how many there are.
fn push_range(text: &mut Vec<u8>, set: &LengthSet, count: u64) -> Result<(), NoMemory>
    requires ascending { Ascend set.now }
    requires count { count ≡ length set.now }
    ensures { OnOk result (text.new.items ≡ text.old.items ++ range_text set.now) }
{
    push_ends(text, set.min(), set.max(), count)
}

/// Appends two numbers, and how many members there are from one to the other.
fn push_ends(text: &mut Vec<u8>, least: u64, greatest: u64, count: u64) -> Result<(), NoMemory>
    ensures { OnOk result (text.new.items ≡ text.old.items ++ ends_text least greatest count) }
{
    push_number(text, least)?;
    push_bytes(text, b"..")?;
    push_number(text, greatest)?;
    push_bytes(text, b" count ")?;
    push_number(text, count)
}

/// Appends the members, ascending.
fn push_members(text: &mut Vec<u8>, set: &LengthSet) -> Result<(), NoMemory>
    requires { Ascend set.now }
    ensures { OnOk result (text.new.items ≡ text.old.items ++ listed set.now) }
{
    let greatest = set.max();
    let mut from = 0;
    while let Some(n) = set.next(from) {
        push_member(text, n, n == greatest)?;
        from = n + 1;
    }
    Ok(())
}

/// Appends a member, with a comma where it isn't the last.
fn push_member(text: &mut Vec<u8>, n: u64, last: bool) -> Result<(), NoMemory>
    ensures { OnOk result (text.new.items ≡ text.old.items ++ member_text n last) }
{
    push_number(text, n)?;
    push_bytes(text, if last { b"" } else { b", " })
}
