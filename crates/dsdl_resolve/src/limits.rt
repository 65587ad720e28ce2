//! The limits on the size of a section.
ghost use Rattle.std.specs.Prelude.{◌≡◌, ◌≤◌, ◌^◌, Bool, IfNone};
ghost use Rattle.dsdl_types.specs.Schemas.{Flds};
ghost use Rattle.dsdl_resolve.specs.Additions.{size_refusal};
ghost use Rattle.dsdl_resolve.specs.Judged.{above_limit};
ghost use Rattle.dsdl_resolve.specs.Totals.{AreTotals, AreWithin, AreCounted};

use crate::rules::{NESTED_TOO_DEEP, TOO_MANY_NODES};
use crate::totals::Totals;
use crate::why::DsdlWhy;

/// The greatest length in bits.
const LONGEST: u64 = 1 << 32;

/// The greatest length that is named.
const NAMED: u64 = 1 << 63;

/// The most nodes of a value.
const MOST_NODES: u64 = 1 << 20;

/// How deep types may nest.
const DEEPEST: u32 = 32;

/// The refusal of a length, where it is above 2^32 bits.
pub fn above_limit(length: u64) -> Option<DsdlWhy>
    ensures refusal { result ≡ above_limit length }
    ensures within { IfNone result (length ≤ 2 ^ 32) }
{
    if length > LONGEST {
        Some(DsdlWhy::Long(length.min(NAMED)))
    } else {
        None
    }
}

/// What fields of these numbers are refused for: their nesting, their nodes, and then their length.
pub fn size_refusal(totals: Totals) -> Option<DsdlWhy>
    requires { AreCounted totals }
    ensures refusal { (union : Bool) (fs : Flds) → AreTotals totals union fs →
        result ≡ size_refusal union fs }
    ensures within { (union : Bool) (fs : Flds) → AreTotals totals union fs →
        IfNone result (AreWithin totals) }
{
    if totals.nesting >= DEEPEST {
        return Some(DsdlWhy::Rule(NESTED_TOO_DEEP));
    }
    if totals.nodes >= MOST_NODES {
        return Some(DsdlWhy::Rule(TOO_MANY_NODES));
    }
    above_limit(totals.greatest())
}
