//! The order in which files are valued.
ghost use Rattle.std.specs.Prelude.{IfOk, IfErr};
ghost use Rattle.dsdl_links.specs.Answers.{IsCycleError};
ghost use Rattle.dsdl_links.specs.Order.{IsOrder};

use crate::cycle::first_cycle;
use crate::error::CycleError;
use crate::links::Links;
use crate::ready::{add_all_open, ready_at_first};
use crate::users::users_of;
use cy_bits::{List, NoMemory};
use std::alloc::Global;

/// The numbers of all files in the order in which they are valued: the next one is always the first
/// in path order that refers only to files before it. Where no file reaches itself, takes time about
/// linear in the references.
///
/// `Cycle` is the first file in path order that reaches itself.
pub fn order_of(alloc: Global, links: &Links) -> Result<List<usize>, CycleError>
    ensures order { IfOk result (IsOrder links.now) }
    ensures cycle { IfErr result (IsCycleError links.now) }
{
    let users = users_of(alloc, links)?;
    let mut valued = vec![in alloc; false; links.len()].map_err(NoMemory::from)?;
    let mut known = vec![in alloc; 0; links.len()].map_err(NoMemory::from)?;
    let mut ready = ready_at_first(alloc, links, valued.as_slice(), known.as_mut_slice())?;
    let mut order = List::empty(alloc);
    'files: while order.len() < links.len() {
        match ready.pop_first() {
            Some(file) => {
                valued[file] = true;
                order.push(file)?;
                let next = users[file].as_slice();
                add_all_open(
                    links,
                    valued.as_slice(),
                    next,
                    known.as_mut_slice(),
                    &mut ready,
                )?;
            }
            None => match first_cycle(alloc, links)? {
                Some(file) => return Err(CycleError::Cycle { file }),
                None => unreachable!(),
            },
        }
    }
    Ok(order)
}
