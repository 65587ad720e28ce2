ghost use Rattle.std.specs.Prelude.{◌≡◌, ◌≢◌};
ghost use Rattle.cy_outside.specs.Outside.{Rose};
ghost use Rattle.line_loop.specs.Gone.{HasGone};
ghost use Rattle.line_loop.specs.Streamed.{IsStreamed};
ghost use Rattle.line_order.specs.Answers.{bounds, order_voice};
ghost use Rattle.line_order.specs.Sorted.{HasSorted};

use crate::orderer::Orderer;
use crate::refusal::Refusal;
use cy_outside::{Sink, Source};
use line_loop::{LineBounds, LinesEnded, listen_lines};
use std::alloc::Global;

/// Writes the lines of a log in the order of their moments, of equal ones in that of the input, with
/// one space between their parts. Each is written as soon as the greatest moment is at least its own
/// and the window together; those that are left are written at the end, or before a line is refused.
///
/// `BadLine` comes with a line that has no form or more than 4,096 bytes, `TimeBack` with one whose
/// moment and the window together are below the greatest moment before it, and `TooLong` where the
/// input has more than 2^28 bytes.
pub fn order_log<L: Source, O: Sink>(
    alloc: Global,
    window: u64,
    input: &mut L,
    out: &mut O,
) -> LinesEnded<Refusal>
    ensures gone { HasGone (order_voice window) (L.left input.old) (L.left input.new) result
        (O.written out.old) (O.written out.new) }
    ensures streamed { IsStreamed (order_voice window) (L.left input.old) (L.left input.new)
        (O.written out.old) (O.written out.new) }
    ensures sorted { result ≡ LinesEnded.Ok → HasSorted (L.left input.old) (L.left input.new)
        (O.written out.old) (O.written out.new) }
    ensures read { result ≡ LinesEnded.ReadFault → Rose (L.faults input.old) (L.faults input.new) }
    ensures write { result ≡ LinesEnded.WriteFault → Rose (O.faults out.old) (O.faults out.new) }
    ensures unread { result ≢ LinesEnded.ReadFault → L.faults input.new ≡ L.faults input.old }
    ensures unwritten { result ≢ LinesEnded.WriteFault → O.faults out.new ≡ O.faults out.old }
{
    let mut orderer = Orderer::new(alloc, window);
    listen_lines(alloc, &mut orderer, bounds(), input, out)
}

/// How many bytes of a log count: 4,096 of a line, and 2^28 in all.
fn bounds() -> LineBounds
    ensures { result ≡ bounds }
{
    LineBounds {
        line: 4096,
        all: 1 << 28,
    }
}
