//! Laws of what `explain` writes: its text tells its lines. They are over definitions alone: the
//! functions do nothing.
#![tactic(auto)]

ghost use Rattle.explain_laws.specs.Text.{Example as TextExample, TextTells};
ghost use Rattle.explain_laws.specs.Written.{ExplainedIsText, ExplainedTells, WrittenHaveOwnText};

/// What `explain` writes on an input is the text of its lines: on each record, on each session, and
/// the last one.
pub fn explained_is_text()
    ensures { ExplainedIsText }
{}

/// No two lists of lines have one text, where these have names of buses, numbers that 64 bits hold,
/// and of a session the last delivery that the lines before it tell.
pub fn text_tells()
    ensures { TextTells }
{}

/// The lines that are written on an input are such lines.
pub fn written_have_own_text()
    ensures { WrittenHaveOwnText }
{
    frame_log::ordered();
}

/// So of two inputs of which the same is said the lines are the same.
pub fn explained_tells()
    ensures { ExplainedTells }
{
    explained_is_text();
    text_tells();
    written_have_own_text();
}

/// Lines with their text.
pub fn text_example()
    ensures { TextExample }
{}
