ghost use Rattle.std.specs.Prelude.{◌≡◌};
ghost use Rattle.node_run.specs.ValueLines.{bounds, lines_status, refused_status};

use crate::status::Status;
use line_loop::{LineBounds, LinesEnded};
use value_lines::{LONGEST_LINE, Refusal};

/// How many bytes of an input count: 2^20 of a line, and 2^28 in all.
pub fn bounds() -> LineBounds
    ensures { result ≡ bounds }
{
    LineBounds {
        line: LONGEST_LINE as u64,
        all: 1 << 28,
    }
}

/// The status of a loop over lines, by how it ended.
pub fn status_of(ended: LinesEnded<Refusal>) -> Status
    ensures { result ≡ lines_status ended }
{
    match ended {
        LinesEnded::Ok => Status::Ok,
        LinesEnded::Refused(refusal) => refused(refusal),
        LinesEnded::TooLong => Status::LogLong,
        LinesEnded::ReadFault => Status::ReadFault,
        LinesEnded::WriteFault => Status::WriteFault,
        LinesEnded::NoMemory => Status::NoMemory,
    }
}

/// The status of a line that is refused.
fn refused(refusal: Refusal) -> Status
    ensures { result ≡ refused_status refusal }
{
    match refusal {
        Refusal::Text { line } => Status::Text { line },
        Refusal::Unreadable { line, path, why } => Status::Unreadable { line, path, why },
    }
}
