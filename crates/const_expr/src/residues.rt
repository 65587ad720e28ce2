//! Remainders of lengths.
ghost use Rattle.std.specs.Prelude.{◌≡◌, ◌<◌, ◌≤◌, IfOk};
ghost use Rattle.const_expr.specs.declared.constant.Const.{out-Const};
ghost use Rattle.const_expr.specs.Binary.{divisor_in, residues, small_divisor};
ghost use Rattle.const_expr.specs.Constants.{IsAscending};

use crate::constant::Const;
use crate::whole::{naturals, whole_of};
use bit_length::LengthSet;
use cy_bits::{List, NoMemory};
use std::alloc::Global;

/// The greatest divisor for which remainders of lengths are taken without a list of the lengths.
const GREATEST_DIVISOR: i128 = 65_536;

/// The remainders of lengths modulo `divisor`, ascending.
pub fn residues(alloc: Global, lengths: &LengthSet, divisor: u32) -> Result<List<Const>, NoMemory>
    requires { 0 < divisor }
    ensures { IfOk result (λ set. set ≡ residues lengths.now divisor) }
{
    let residues = lengths.residues(alloc, divisor)?;
    naturals(alloc, residues.as_slice())
}

/// The divisor that a constant is, where it is a whole number from 1 to 65,536.
#[tactic(auto, using(crate::proofs::Layers::layers))]
pub fn small_divisor(constant: &Const) -> Option<u32>
    ensures value { result ≡ small_divisor (out-Const constant.now) }
{
    match constant {
        Const::Number(x) => match whole_of(*x) {
            Some(n) => divisor_in(n),
            None => None,
        },
        Const::Truth(_) | Const::Str(_) => None,
        Const::Set(_) | Const::Lengths(_) | Const::Named(_) => None,
    }
}

/// A number as a divisor, where it is one from 1 to 65,536.
fn divisor_in(n: i128) -> Option<u32>
    ensures { result ≡ divisor_in n }
{
    if 1 <= n && n <= GREATEST_DIVISOR {
        Some(n as u32)
    } else {
        None
    }
}
