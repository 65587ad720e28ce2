use compat_check::CompatWhy;
use cy_bits::Text;
use dsdl_resolve::DsdlWhy;
use dsdl_types::ReadWhy;
use frame_log::LogWhy;
use node_plan::PlanWhy;

/// How a command ended.
#[derive(Drop)]
pub enum Status {
    /// All is done.
    Ok,
    /// The words are no command.
    Usage,
    /// A DSDL file is refused.
    Dsdl {
        /// Its path below the root, or that of a folder, which is `.` for the root itself.
        file: Text,
        /// The line, counted from 1, or 0 where none is named.
        line: u32,
        /// The cause.
        why: DsdlWhy,
    },
    /// A line of the plan, counted from 1, is refused.
    Plan {
        line: u32,
        why: PlanWhy,
    },
    /// A line of the log, counted from 1, is refused.
    Log {
        line: u64,
        why: LogWhy,
    },
    /// A line of the input, counted from 1, is the text of no value of the type, or no hex, or too
    /// long.
    Text {
        line: u64,
    },
    /// A line of the input, counted from 1, is the hex of bytes that can't be read as a value of
    /// the type.
    Unreadable {
        line: u64,
        /// The first part that can't be read: names of fields with `.` between them, `[i]` for an
        /// item of an array; `.` alone for the whole.
        path: Text,
        /// The cause, with the number that was read.
        why: ReadWhy,
    },
    /// The new type isn't newer than the old one.
    NotNewer {
        /// The first place of the new type where it isn't newer: names of fields with `.` between
        /// them, `[]` for the items of an array, in a service `request` or `response` in front; `.`
        /// alone for the whole.
        path: Text,
        /// The cause.
        why: CompatWhy,
    },
    /// The input has more than 2^28 bytes.
    LogLong,
    /// There is no such file, folder or type.
    NoFile {
        path: Text,
    },
    /// The tree or the input failed.
    ReadFault,
    /// The output failed.
    WriteFault,
    /// Memory was wanted and not given.
    NoMemory,
}
