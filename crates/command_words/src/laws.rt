//! What holds of the table.
ghost use Rattle.std.specs.Prelude.{◌≡◌, true, map};
ghost use Rattle.command_words.specs.Laws.{are_distinct, are_groups_whole, are_told, are_words};

use crate::table::COMMANDS;

/// What holds of the table: each command's word is one, and no other command's; the commands of a
/// group stand together; each help begins with the command and its arguments, and fits 80 columns.
pub fn table_laws()
    ensures words { are_words COMMANDS.now ≡ true }
    ensures distinct { are_distinct (map (λ c. c.word.now) COMMANDS.now) ≡ true }
    ensures groups { are_groups_whole COMMANDS.now ≡ true }
    ensures told { are_told COMMANDS.now ≡ true }
{}
