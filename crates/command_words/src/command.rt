//! What the table has of a command.
use crate::help::Help;

/// A command as its user sees it. Its texts are ASCII. They are of a type `Text`, since contracts
/// know a constant of such values by its name only where the struct itself holds no reference.
#[derive(Clone, Copy)]
pub struct Command<Text = &'static str, Texts = &'static [&'static str]> {
    /// The first word of a call.
    pub word: Text,
    /// The names of its arguments, in the order in which they stand behind the word.
    pub arguments: Texts,
    /// Its options, as they may stand behind the word.
    pub options: Texts,
    /// The heading of its group.
    pub group: Text,
    /// What it does, in a few words.
    pub summary: Text,
    /// Which help it has.
    pub help: Help,
}
