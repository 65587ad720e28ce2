ghost use Rattle.std.specs.Prelude.{◌≡◌, ◌++◌, IfOk, OnOk, map, string_bytes};
ghost use Rattle.compat_check.specs.Paths.{further_text, path_text, turn_text};
ghost use Rattle.compat_check.specs.Verdicts.{turn_of};

use cy_bits::{NoMemory, Text};
use std::alloc::Global;

/// A step of the way to a part.
#[derive(Drop)]
pub enum Turn {
    /// To a field of this name, which is empty for padding.
    Named(Text),
    /// To the items of an array.
    Item,
}

/// The way to a part as text.
pub fn path_text(alloc: Global, turns: &[Turn]) -> Result<Text, NoMemory>
    ensures { IfOk result (λ t. t ≡ path_text (map turn_of turns.now)) }
{
    let Some((first, others)) = turns.split_first() else {
        return Text::from_str(alloc, ".");
    };
    let mut text = String::from_str(alloc, turn_text(first))?;
    for turn in others {
        push_turn(&mut text, turn)?;
    }
    Ok(Text::new(text))
}

/// A turn as text, at the top.
fn turn_text(turn: &Turn) -> &str
    ensures { result.now ≡ turn_text (turn_of turn.now) }
{
    match turn {
        Turn::Named(name) => name.as_str(),
        Turn::Item => "[]",
    }
}

/// Appends a turn.
fn push_turn(text: &mut String, turn: &Turn) -> Result<(), NoMemory>
    ensures { OnOk result (string_bytes text.new ≡ string_bytes text.old
        ++ further_text (turn_of turn.now)) }
{
    if matches!(turn, Turn::Named(_)) {
        text.push_str(".")?;
    }
    text.push_str(turn_text(turn))?;
    Ok(())
}
