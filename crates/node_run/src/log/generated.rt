//! A log that is made of a number, and what its run comes to.
ghost use Rattle.std.specs.Prelude.{◌≡◌, ◌≢◌, IfOk};
ghost use Rattle.cy_outside.specs.Outside.{Rose};
ghost use Rattle.node_plan.specs.IsPlan.{IsPlan};
ghost use Rattle.node_run.specs.Generated.{HasGenerated, generated_numbers};
ghost use Rattle.node_run.specs.Generated.{generated_plan, summary_line};

use crate::log::labelled::push_labelled;
use crate::log::laws::generated_plan_is_read;
use crate::log::run::run_over;
use crate::log::tally::Tally;
use crate::status::Status;
use cy_bits::{List, NoMemory};
use cy_outside::{NeverSink, NeverSource, NeverTree, Sink, put_all};
use dsdl_types::Namespace;
use log_gen::laws::explained_and_read;
use log_gen::transfers::transfers;
use log_gen::{PLAN, log_bytes};
use node_core::laws::nothing_served;
use node_core::{NoLines, Numbers};
use node_plan::laws::one_plan;
use node_plan::{Plan, PlanError, read_plan};
use std::alloc::Global;

/// Makes the log of a number, runs it, and writes one line on it: how many transfers were sent, and
/// the numbers of the run. Where memory is wanting, nothing is written.
pub fn run_gen<O: Sink>(alloc: Global, number: u32, out: &mut O) -> Status
    ensures written { HasGenerated number result (O.written out.old) (O.written out.new) }
    ensures write { result ≡ Status.WriteFault → Rose (O.faults out.old) (O.faults out.new) }
    ensures unwritten { result ≢ Status.WriteFault → O.faults out.new ≡ O.faults out.old }
{
    let Ok(numbers) = numbers_of(alloc, number) else {
        return Status::NoMemory;
    };
    let Ok(line) = summary_of(alloc, number, &numbers) else {
        return Status::NoMemory;
    };
    let Ok(()) = put_all(out, line.as_slice()) else {
        return Status::WriteFault;
    };
    Status::Ok
}

/// The numbers of the run of a log. Its plan serves no files, so its tree has none.
fn numbers_of(alloc: Global, number: u32) -> Result<Numbers, NoMemory>
    ensures { IfOk result (λ numbers. numbers ≡ generated_numbers number) }
{
    explained_and_read(number);
    nothing_served();
    let plan = plan_of_all(alloc)?;
    let log = log_bytes(alloc, number)?;
    let mut input = NeverSource::new(log.as_slice());
    let mut tree = NeverTree::new(List::empty(alloc)).unwrap();
    let mut numbers = Tally::new(0, 0).numbers;
    match run_over(
        alloc,
        plan,
        &mut tree,
        &mut input,
        &mut NeverSink,
        &mut NoLines,
        &mut numbers,
    ) {
        Status::Ok => Ok(numbers),
        Status::NoMemory => Err(NoMemory),
        _ => unreachable!(),
    }
}

/// The plan of every log, which names no types.
fn plan_of_all(alloc: Global) -> Result<Plan, NoMemory>
    ensures plan { IfOk result (λ plan. plan ≡ generated_plan) }
    ensures sound { IfOk result IsPlan }
{
    let names = Namespace {
        definitions: List::empty(alloc),
        prints: List::empty(alloc),
    };
    generated_plan_is_read();
    one_plan();
    match read_plan(alloc, PLAN, &names) {
        Ok(plan) => Ok(plan),
        Err(PlanError::NoMemory) => Err(NoMemory),
        Err(PlanError::Refused { .. }) => unreachable!(),
    }
}

/// The line on a log.
fn summary_of(alloc: Global, number: u32, numbers: &Numbers) -> Result<Vec<u8>, NoMemory>
    ensures { IfOk result (λ line. line.items ≡ summary_line number numbers.now) }
{
    let mut line = Vec::new(alloc);
    push_labelled(&mut line, b"gen ", number as u64)?;
    push_labelled(&mut line, b" transfers ", transfers())?;
    push_labelled(&mut line, b" delivered ", numbers.delivered)?;
    push_labelled(&mut line, b" badcrc ", numbers.badcrc)?;
    push_labelled(&mut line, b" nosession ", numbers.nosession)?;
    push_labelled(&mut line, b" held ", numbers.held)?;
    push_labelled(&mut line, b" bound ", numbers.bound)?;
    line.push(b'\n')?;
    Ok(line)
}
