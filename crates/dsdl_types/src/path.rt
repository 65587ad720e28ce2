ghost use Rattle.std.specs.Prelude.{◌≡◌, ◌++◌, IfOk, OnOk, map, string_bytes};
ghost use Rattle.dsdl_types.specs.Paths.{further_text, path_text, step_of, step_text};

use cy_bits::{NoMemory, Text};
use std::alloc::Global;

/// A step of the path to a part of a value.
#[derive(Drop)]
pub enum Step {
    /// To a field of a structure or a variant of a union, by its name.
    Name(Text),
    /// To an item of an array, by its place, counted from 0.
    Index(u32),
}

/// The text of the path to a part, whose steps go from the whole to the part: names with a point between, and
/// places in brackets, as `a.b[2].c`. The path to the whole is a point.
pub fn path_text(alloc: Global, steps: &[Step]) -> Result<Text, NoMemory>
    ensures { IfOk result (λ text. text ≡ path_text (map step_of steps.now)) }
{
    let Some((first, others)) = steps.split_first() else {
        return Text::from_str(alloc, ".");
    };
    let mut text = String::new(alloc);
    push_step(&mut text, first)?;
    for step in others {
        push_further(&mut text, step)?;
    }
    Ok(Text::new(text))
}

/// Appends a step at the top.
fn push_step(text: &mut String, step: &Step) -> Result<(), NoMemory>
    ensures { OnOk result (string_bytes text.new ≡ string_bytes text.old
        ++ step_text (step_of step.now)) }
{
    match step {
        Step::Name(name) => text.push_str(name.as_str())?,
        Step::Index(place) => {
            text.push_str("[")?;
            write!(text, "{place}")?;
            text.push_str("]")?;
        }
    }
    Ok(())
}

/// Appends a step behind others.
fn push_further(text: &mut String, step: &Step) -> Result<(), NoMemory>
    ensures { OnOk result (string_bytes text.new ≡ string_bytes text.old
        ++ further_text (step_of step.now)) }
{
    if matches!(step, Step::Name(_)) {
        text.push_str(".")?;
    }
    push_step(text, step)
}
