//! Telling lines: their text is gathered, and a sink takes them.
ghost use Rattle.std.specs.Prelude.{◌≡◌, ◌∷◌, [], IfOk, IfSome, OnOk, OnErr};
ghost use Rattle.std.specs.Prelude.{Some, false, if◌then◌else◌, map};
ghost use Rattle.line_text.specs.Buffer.{text_of};
ghost use Rattle.tail_frame.specs.Frames.{frame_of, seen};
ghost use Rattle.report_lines.specs.LineSinks.{BeginsList, put_behind};
ghost use Rattle.node_core.specs.Quick.{IsPlaced, IsUntyped, quick_is_bad, quick_lines};
ghost use Rattle.report_lines.specs.Lent.{HasType, told_lines};
ghost use Rattle.report_lines.specs.declared.line.Line.TheVariants.{Full};
ghost use Rattle.node_run.specs.Forms.{Adds, Types};
ghost use Rattle.node_run.specs.Tells.{AreTypesOf, Counts, HasTold, framed_lines};

use crate::log::report_writer::ReportWriter;
use crate::log::tally::Seen;
use cy_bits::{NoMemory, ShortList};
use line_text::TextBuffer;
use node_core::{FullLine, LineRef, LineSink, Node, Quick};
use rx_session::Step;
use rx_table::Met;
use tail_frame::{Record, frame_of};

/// Gathers the text of a line, if there is one, and hands the line to the sink.
#[inline(always)]
pub(crate) fn tell<W: ReportWriter, K: LineSink>(
    writer: &mut W,
    lines: &mut K,
    gathered: &mut TextBuffer,
    told: Option<LineRef<'_>>,
) -> Result<(), NoMemory>
    ensures style { W.style writer.new ≡ W.style writer.old }
    ensures text { OnOk result ((types : Types) → IfSome told.entry (HasType types)
        → Adds (W.style writer.old) types (told_lines told.entry)
        (text_of gathered.old) (text_of gathered.new)) }
    ensures adds { OnOk result
        (K.lines lines.new ≡ put_behind (K.lines lines.old) (told_lines told.entry)) }
    ensures err { OnErr result (K.lines lines.new ≡ K.lines lines.old) }
    ensures untold { K.failed lines.new ≡ K.failed lines.old }
{
    match told {
        Some(line) => {
            writer.push(gathered, &line)?;
            lines.put(&line)
        }
        None => Ok(()),
    }
}

/// Tells the line on a message that the node heard last, by its record, if there is one, and what
/// is counted of it.
#[inline(always)]
pub(crate) fn tell_quick<W: ReportWriter, K: LineSink>(
    node: &Node,
    writer: &mut W,
    lines: &mut K,
    gathered: &mut TextBuffer,
    rec: &Record,
    quick: &Quick<'_>,
) -> Result<Seen, NoMemory>
    requires placed { IsPlaced node.now quick.now }
    requires of { frame_of rec.now ≡ Some (seen quick.now.frame) }
    ensures style { W.style writer.new ≡ W.style writer.old }
    ensures told { let said = quick_lines node.now quick.now in
        IfOk result (λ _. (types : Types) → AreTypesOf types node.now
        → HasTold (W.style writer.old) types said (text_of gathered.old)
        (text_of gathered.new) (K.lines lines.old) (K.lines lines.new)) }
    ensures counts { IfOk result (λ counted.
        Counts counted (quick_lines node.now quick.now) (quick_is_bad node.now quick.now)) }
    ensures err { OnErr result (K.lines lines.new ≡ K.lines lines.old) }
    ensures untold { K.failed lines.new ≡ K.failed lines.old }
{
    match quick.step {
        Step::Ignored => return Ok(Seen::silent(false)),
        Step::Held => return Ok(Seen::silent(false)),
        Step::BadCrc => return Ok(Seen::silent(true)),
        Step::Whole => {}
        Step::Delivered(_) => {}
    }
    tell_ended(node, writer, lines, gathered, rec, quick)
}

/// The same of one that ended a transfer.
#[inline(always)]
fn tell_ended<W: ReportWriter, K: LineSink>(
    node: &Node,
    writer: &mut W,
    lines: &mut K,
    gathered: &mut TextBuffer,
    rec: &Record,
    quick: &Quick<'_>,
) -> Result<Seen, NoMemory>
    requires placed { IsPlaced node.now quick.now }
    requires of { frame_of rec.now ≡ Some (seen quick.now.frame) }
    requires good { quick_is_bad node.now quick.now ≡ false }
    ensures style { W.style writer.new ≡ W.style writer.old }
    ensures told { let said = quick_lines node.now quick.now in
        IfOk result (λ _. (types : Types) → AreTypesOf types node.now
        → HasTold (W.style writer.old) types said (text_of gathered.old)
        (text_of gathered.new) (K.lines lines.old) (K.lines lines.new)) }
    ensures counts { IfOk result (λ counted.
        Counts counted (quick_lines node.now quick.now) false) }
    ensures err { OnErr result (K.lines lines.new ≡ K.lines lines.old) }
    ensures untold { K.failed lines.new ≡ K.failed lines.old }
{
    if !node.is_untyped(quick) {
        return tell_typed(node, writer, lines, gathered, rec, quick.met());
    }
    let told = node.told_untyped(quick);
    tell_untyped(writer, lines, gathered, told)?;
    Ok(Seen::of(told, false))
}

/// Gathers the text of a line that is of no port with a type, and hands the line to the sink.
#[inline(always)]
fn tell_untyped<W: ReportWriter, K: LineSink>(
    writer: &mut W,
    lines: &mut K,
    gathered: &mut TextBuffer,
    told: Option<LineRef<'_>>,
) -> Result<(), NoMemory>
    requires { IfSome told IsUntyped }
    ensures style { W.style writer.new ≡ W.style writer.old }
    ensures told { let said = told_lines told.entry in
        OnOk result ((types : Types) → IfSome told.entry (HasType types)
        → HasTold (W.style writer.old) types said (text_of gathered.old)
        (text_of gathered.new) (K.lines lines.old) (K.lines lines.new)) }
    ensures err { OnErr result (K.lines lines.new ≡ K.lines lines.old) }
    ensures untold { K.failed lines.new ≡ K.failed lines.old }
{
    match told {
        Some(LineRef::Rx(rx)) => {
            writer.push_raw(gathered, &rx)?;
            lines.put(&LineRef::Rx(rx))
        }
        _ => tell_other(writer, lines, gathered, told),
    }
}

/// Tells a line that is none of a transfer, apart from where that is told.
#[cold]
#[inline(never)]
fn tell_other<W: ReportWriter, K: LineSink>(
    writer: &mut W,
    lines: &mut K,
    gathered: &mut TextBuffer,
    told: Option<LineRef<'_>>,
) -> Result<(), NoMemory>
    ensures style { W.style writer.new ≡ W.style writer.old }
    ensures told { let said = told_lines told.entry in
        OnOk result ((types : Types) → IfSome told.entry (HasType types)
        → HasTold (W.style writer.old) types said (text_of gathered.old)
        (text_of gathered.new) (K.lines lines.old) (K.lines lines.new)) }
    ensures err { OnErr result (K.lines lines.new ≡ K.lines lines.old) }
    ensures untold { K.failed lines.new ≡ K.failed lines.old }
{
    tell(writer, lines, gathered, told)
}

/// Tells the line on a frame that came to this in the node's table, if there is one, and what is
/// counted of it. The frame is read from its record again: then one on a port without a type
/// isn't put into memory for it.
#[inline(never)]
fn tell_typed<W: ReportWriter, K: LineSink>(
    node: &Node,
    writer: &mut W,
    lines: &mut K,
    gathered: &mut TextBuffer,
    rec: &Record,
    met: Met,
) -> Result<Seen, NoMemory>
    ensures style { W.style writer.new ≡ W.style writer.old }
    ensures told { let said = framed_lines node.now rec.now met in
        IfOk result (λ _. (types : Types) → AreTypesOf types node.now
        → HasTold (W.style writer.old) types said (text_of gathered.old)
        (text_of gathered.new) (K.lines lines.old) (K.lines lines.new)) }
    ensures counts { IfOk result (λ counted.
        Counts counted (framed_lines node.now rec.now met) false) }
    ensures err { OnErr result (K.lines lines.new ≡ K.lines lines.old) }
    ensures untold { K.failed lines.new ≡ K.failed lines.old }
{
    let Some(frame) = frame_of(rec) else {
        return Ok(Seen::of(None, false));
    };
    let told = node.told_met(&frame, met);
    tell(writer, lines, gathered, told)?;
    Ok(Seen::of(told, false))
}

/// Tells on which buses there was no room for a transfer.
pub(crate) fn tell_fulls<W: ReportWriter, K: LineSink>(
    writer: &mut W,
    lines: &mut K,
    gathered: &mut TextBuffer,
    fulls: &ShortList<FullLine, 3>,
) -> Result<(), NoMemory>
    ensures style { W.style writer.new ≡ W.style writer.old }
    ensures told { OnOk result ((types : Types)
        → HasTold (W.style writer.old) types (map Full fulls.now)
        (text_of gathered.old) (text_of gathered.new) (K.lines lines.old) (K.lines lines.new)) }
    ensures err { OnErr result
        (BeginsList (map Full fulls.now) (K.lines lines.old) (K.lines lines.new)) }
    ensures untold { K.failed lines.new ≡ K.failed lines.old }
{
    for full in fulls.as_slice() {
        tell(writer, lines, gathered, Some(LineRef::Full(*full)))?;
    }
    Ok(())
}

/// Tells on which line of the log a request ended in which the tree failed, if it failed.
pub(crate) fn tell_failed<K: LineSink>(
    lines: &mut K,
    failed: bool,
    line: u64,
) -> Result<(), NoMemory>
    ensures told { let told = if failed then line ∷ [] else [] in
        OnOk result (K.failed lines.new ≡ put_behind (K.failed lines.old) told) }
    ensures err { OnErr result (K.failed lines.new ≡ K.failed lines.old) }
    ensures lines { K.lines lines.new ≡ K.lines lines.old }
{
    if failed { lines.fail(line) } else { Ok(()) }
}
