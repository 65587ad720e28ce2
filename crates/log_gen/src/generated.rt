//! All that is made of a number.
ghost use Rattle.std.specs.Prelude.{◌≡◌, IfOk, map};
ghost use Rattle.log_gen.specs.Rules.{log_text, origin_by, plan_text, sent_by, sources};
ghost use Rattle.log_gen.specs.Laws.{IsExplained, IsRead};

use crate::laws::explained_and_read;
use crate::log::log_bytes;
use crate::origin::origin_by;
use crate::plan::PLAN;
use crate::sent::sent_by;
use cy_bits::{Bytes, List, NoMemory};
use frag::{Pair, Sent};
use std::alloc::Global;

/// A plan and a log, with what was sent.
#[derive(Drop)]
pub struct Generated {
    /// The text of the plan of node 10, which hears three buses.
    pub plan: Bytes,
    /// The log of the three buses.
    pub log: Bytes,
    /// What each of the four sources sent, of the lowest node-ID first.
    pub sent: List<Sent>,
    /// For each source the pair of each of its frames, in the order of the log.
    pub origins: List<List<Pair>>,
}

/// The log of a number, with its plan and what was sent. What each source sent explains what node 10 hears of it, and the
/// log reads as its records, none of which is refused.
pub fn generate(alloc: Global, number: u32) -> Result<Generated, NoMemory>
    ensures plan { IfOk result (λ g. g.plan ≡ plan_text) }
    ensures log { IfOk result (λ g. g.log ≡ log_text number) }
    ensures sent { IfOk result (λ g. g.sent ≡ map (sent_by number) sources) }
    ensures origins { IfOk result (λ g. g.origins ≡ map (origin_by number) sources) }
    ensures explained { IsExplained number }
    ensures reads { IsRead number }
{
    explained_and_read(number);
    Ok(Generated {
        plan: Bytes::from_slice(alloc, PLAN)?,
        log: log_bytes(alloc, number)?,
        sent: sent_of(alloc, number)?,
        origins: origins_of(alloc, number)?,
    })
}

/// What each source sent.
fn sent_of(alloc: Global, number: u32) -> Result<List<Sent>, NoMemory>
    ensures { IfOk result (λ sent. sent ≡ map (sent_by number) sources) }
{
    let mut sent = List::empty(alloc);
    for source in 0..4 {
        sent.push(sent_by(alloc, number, source)?)?;
    }
    Ok(sent)
}

/// The pairs of each source's frames.
fn origins_of(alloc: Global, number: u32) -> Result<List<List<Pair>>, NoMemory>
    ensures { IfOk result (λ origins. origins ≡ map (origin_by number) sources) }
{
    let mut origins = List::empty(alloc);
    for source in 0..4 {
        origins.push(origin_by(alloc, number, source)?)?;
    }
    Ok(origins)
}
