//! Records written as a log, and that such a log reads as the records. The laws are over definitions alone: the functions
//! do nothing.
#![tactic(auto)]

ghost use Rattle.log_text.specs.Written.{Example, LineIsRead, LogIsRead, TextIsShort};

/// The line of a record of classic CAN reads as its frame, has no newline, and has at most 63
/// bytes.
pub fn line_is_read()
    ensures { LineIsRead }
{}

/// The text of records of classic CAN in turn reads as these records, with no refusal.
pub fn log_is_read()
    ensures { LogIsRead }
{}

/// That text has at most 64 bytes a record.
pub fn text_is_short()
    ensures { TextIsShort }
{}

/// The premises of these laws can be met.
pub fn example()
    ensures { Example }
{}
