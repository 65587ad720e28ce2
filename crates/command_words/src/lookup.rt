//! The command that a word names.
ghost use Rattle.std.specs.Prelude.{◌≡◌, Option, option_map, map};
ghost use Rattle.std.specs.Option.{option_copied};
ghost use Rattle.command_words.specs.Table.{help_of, named, row_of};

use crate::command::Command;
use crate::table::COMMANDS;

/// The command of the table that a word names; none where it isn't the word of one.
pub fn find(word: &str) -> Option<&'static Command>
    ensures { option_map (λ c. row_of c.now) result ≡ named word.now COMMANDS.now }
{
    find_in(COMMANDS, word)
}

/// The text of `cyphal COMMAND --help` for a command's word; none where it isn't one.
pub fn help_of(word: &str) -> Option<&'static str>
    ensures { option_copied result ≡ help_of word.now }
{
    match find(word) {
        Some(command) => Some(command.help.text()),
        None => None,
    }
}

/// The first of some commands that a word names.
fn find_in<'a>(commands: &'a [Command], word: &str) -> Option<&'a Command>
    ensures { option_map (λ c. row_of c.now) result
        ≡ named word.now (map row_of commands.entry.now) }
{
    for command in commands {
        if command.word == word {
            return Some(command);
        }
    }
    None
}
