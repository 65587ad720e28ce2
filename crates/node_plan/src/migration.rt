//! The text of version 2 of a plan's text of version 1.
ghost use Rattle.std.specs.Prelude.{◌≡◌, ◌++◌, ◌∷◌, ℕ, Err, IfOk, OnOk, decimal};
ghost use Rattle.dsdl_types.specs.Definitions.{IsNamespace};
ghost use Rattle.node_plan.specs.Answers.{IsMigrated};
ghost use Rattle.node_plan.specs.Migrate.{migrated_line, migrated_text, migrated_two, migrated_words, numbers_of, numbers_text};
ghost use Rattle.node_plan.specs.Plan.{Bad, IsPlanOf};
ghost use Rattle.node_plan.specs.Words.{words_of};
ghost use Rattle.node_plan.specs.declared.plan.PlanWhy.{PlanWhy as Why};

use crate::limit::is_version_two;
use crate::plan::{BusPlan, PlanError};
use crate::read::read_plan;
use crate::words::cut;
use cy_bits::{Bytes, NoMemory};
use dsdl_types::Namespace;
use itoa::Buffer;
use std::alloc::Global;

/// Appends a space and a number.
fn push_number(text: &mut Bytes, number: u32) -> Result<(), NoMemory>
    ensures { OnOk result (text.new ≡ text.old ++ 32 ∷ decimal number) }
{
    let mut buffer = Buffer::new();
    text.extend(b" ")?;
    text.extend(buffer.format(number).as_bytes())
}

/// The words of an MTU and a rate, behind a bus's name.
fn numbers_text(alloc: Global, bus: &BusPlan) -> Result<Bytes, NoMemory>
    ensures { IfOk result (λ text. text ≡ numbers_text bus.now.mtu bus.now.rate) }
{
    let mut text = Bytes::new(Vec::new(alloc));
    push_number(&mut text, bus.mtu as u32)?;
    push_number(&mut text, bus.rate)?;
    Ok(text)
}

/// The words of the MTU and the rate of the first bus.
fn numbers_of(alloc: Global, buses: &[BusPlan]) -> Result<Bytes, NoMemory>
    ensures { IfOk result (λ text. text ≡ numbers_of buses.now) }
{
    match buses {
        [] => Ok(Bytes::new(Vec::new(alloc))),
        [bus, ..] => numbers_text(alloc, bus),
    }
}

/// Appends a line of two words of version 1, as one of version 2.
fn push_two(made: &mut Bytes, numbers: &[u8], line: &[u8], word: &[u8]) -> Result<(), NoMemory>
    ensures { OnOk result (made.new ≡ made.old ++ migrated_two numbers.now line.now word.now) }
{
    if word == b"plan".as_slice() {
        return made.extend(b"plan 2");
    }
    if word == b"mtu".as_slice() || word == b"rate".as_slice() {
        return Ok(());
    }
    if word != b"bus".as_slice() {
        return made.extend(line);
    }
    made.extend(line)?;
    made.extend(numbers)
}

/// Appends a line of version 1 that isn't skipped, as one of version 2.
fn push_words(made: &mut Bytes, numbers: &[u8], line: &[u8]) -> Result<(), NoMemory>
    ensures { OnOk result (made.new
        ≡ made.old ++ migrated_words numbers.now line.now (words_of line.now)) }
{
    let Some((word, behind)) = cut(b' ', line) else {
        return made.extend(line);
    };
    match cut(b' ', behind) {
        Some(_) => made.extend(line),
        None => push_two(made, numbers, line, word),
    }
}

/// Appends a line of version 1, as one of version 2.
fn push_line(made: &mut Bytes, numbers: &[u8], line: &[u8]) -> Result<(), NoMemory>
    ensures { OnOk result (made.new ≡ made.old ++ migrated_line numbers.now line.now) }
{
    match line {
        [] => Ok(()),
        [b'#', ..] => made.extend(line),
        _ => push_words(made, numbers, line),
    }
}

/// The lines of a text of version 1, as those of version 2.
fn migrated_text(alloc: Global, numbers: &[u8], text: &[u8]) -> Result<Bytes, NoMemory>
    ensures { IfOk result (λ made. made ≡ migrated_text numbers.now text.now) }
{
    let mut made = Bytes::new(Vec::new(alloc));
    let mut behind = text;
    while let Some((line, rest)) = cut(b'\n', behind) {
        push_line(&mut made, numbers, line)?;
        made.extend(b"\n")?;
        behind = rest;
    }
    push_line(&mut made, numbers, behind)?;
    Ok(made)
}

/// The text of version 2 that says what the text of a plan says. In a text of version 1 `plan 1`
/// becomes `plan 2`, `bus NAME` gets the MTU and the rate that count for all buses, and lines `mtu`
/// and `rate` become empty; all other bytes stay, comments too. A text of version 2 stays as it is.
///
/// A text that is no plan is refused as by `read_plan`.
pub fn migrate(alloc: Global, text: &[u8], names: &Namespace) -> Result<Bytes, PlanError>
    requires { IsNamespace names.now }
    ensures migrated { IfOk result (IsMigrated names.now text.now) }
    ensures refused { (n : ℕ) (why : Why) → result ≡ Err (PlanError.Refused n why)
        → IsPlanOf names.now text.now (Bad n why) }
{
    let plan = read_plan(alloc, text, names)?;
    if is_version_two(text) {
        return Ok(Bytes::from_slice(alloc, text)?);
    }
    let numbers = numbers_of(alloc, plan.buses.as_slice())?;
    Ok(migrated_text(alloc, numbers.as_slice(), text)?)
}
