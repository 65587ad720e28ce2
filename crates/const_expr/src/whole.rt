//! Whole numbers as constants.
ghost use Rattle.std.specs.Prelude.{◌≡◌, pos, IfOk};
ghost use Rattle.const_expr.specs.Constants.{whole, whole_of, natural, naturals};

use crate::constant::Const;
use cy_bits::{List, NoMemory};
use cy_ratio::Ratio;
use std::alloc::Global;

/// A whole number as a fraction.
#[tactic(auto, using(cy_ratio::proofs::WholeLemmas::whole_fraction))]
pub fn whole(n: i128) -> Ratio
    ensures { result ≡ whole n }
{
    match Ratio::new(n, 1) {
        Ok(ratio) => ratio,
        Err(_) => unreachable!(),
    }
}

/// The whole number that a fraction is.
pub fn whole_of(x: Ratio) -> Option<i128>
    ensures { result ≡ whole_of x }
{
    if x.den() == 1 { Some(x.num()) } else { None }
}

/// A length or a count as a constant.
pub fn natural(n: u64) -> Const
    ensures { result ≡ natural n }
{
    Const::Number(whole(i128::from(n)))
}

/// Lengths as constants.
pub fn naturals(alloc: Global, lengths: &[u64]) -> Result<List<Const>, NoMemory>
    ensures { IfOk result (λ constants. constants ≡ naturals lengths.now) }
{
    let mut constants = List::empty(alloc);
    for length in lengths {
        constants.push(natural(*length))?;
    }
    Ok(constants)
}
