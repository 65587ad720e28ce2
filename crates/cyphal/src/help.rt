//! What the program says of itself and its commands.
ghost use Rattle.std.specs.Prelude.{◌≡◌, None, OnSome, map, string_bytes};
ghost use Rattle.std.specs.Option.{option_copied};
ghost use Rattle.cyphal.specs.Help.{answer_of, asks_help, own_answer};
ghost use Rattle.cyphal.specs.Words.{command_of};

use command_words::{help_of, overview};

/// What `--version` answers.
pub const VERSION: &str = "cyphal 0.2.0\n";

/// What the program itself answers, where the words ask for that alone: the overview, the version,
/// or the help of a command. Such words are no command.
pub fn own_answer(words: &[String]) -> Option<&'static str>
    ensures is { option_copied result ≡ own_answer (map string_bytes words.now) }
    ensures alone { OnSome result (command_of (map string_bytes words.now) ≡ None) }
{
    match words {
        [word] => of_program(word.as_str()),
        [word, asked] => {
            if asks_help(asked.as_str()) {
                help_of(word.as_str())
            } else {
                None
            }
        }
        _ => None,
    }
}

/// What is answered to a word that is the only one.
fn of_program(word: &str) -> Option<&'static str>
    ensures { option_copied result ≡ answer_of word.now }
{
    if asks_help(word) {
        Some(overview())
    } else if word == "--version" {
        Some(VERSION)
    } else {
        None
    }
}

/// Whether a word asks for help.
fn asks_help(word: &str) -> bool
    ensures { result ≡ asks_help word.now }
{
    word == "--help" || word == "-h"
}
