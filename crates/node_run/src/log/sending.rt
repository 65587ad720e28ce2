//! Frames that leave a node, each told as it leaves.
ghost use Rattle.std.specs.Prelude.{◌≡◌, ◌<◌, ◌++◌, IfOk, OnOk, OnErr, length, map};
ghost use Rattle.line_text.specs.Buffer.{text_of};
ghost use Rattle.node_core.specs.Keeps.{keeps};
ghost use Rattle.report_lines.specs.LineSinks.{BeginsList};
ghost use Rattle.node_core.specs.Pops.{queue_at};
ghost use Rattle.node_core.specs.Queues.{bus_lines, leaving, rounds, waiting};
ghost use Rattle.node_core.specs.Steps.{left};
ghost use Rattle.report_lines.specs.declared.line.Line.TheVariants.{Full};
ghost use Rattle.node_run.specs.Forms.{Types};
ghost use Rattle.node_run.specs.Leaves.{IsSameNode, bus_left};
ghost use Rattle.node_run.specs.Tells.{HasTold};

use crate::log::report_writer::ReportWriter;
use crate::log::telling::{tell, tell_fulls};
use cy_bits::{NoMemory, ShortList};
use line_text::TextBuffer;
use node_core::{FullLine, LineRef, LineSink, Node, TxRef};

/// Tells on which buses there was no room for what a step sends, and lets frames leave behind it.
/// Answers how many left.
pub(crate) fn send<W: ReportWriter, K: LineSink>(
    node: &mut Node,
    moment: u64,
    fulls: &ShortList<FullLine, 3>,
    writer: &mut W,
    lines: &mut K,
    gathered: &mut TextBuffer,
) -> Result<u64, NoMemory>
    ensures same { IsSameNode node.old node.new }
    ensures style { W.style writer.new ≡ W.style writer.old }
    ensures keeps { OnOk result (keeps node.new ≡ left (keeps node.old)) }
    ensures told { let told = map Full fulls.now ++ leaving moment (keeps node.old).queues in
        OnOk result ((types : Types) → HasTold (W.style writer.old) types told
        (text_of gathered.old) (text_of gathered.new) (K.lines lines.old) (K.lines lines.new)) }
    ensures sent { IfOk result (λ n. n ≡ length (leaving moment (keeps node.old).queues)) }
    ensures err { let told = map Full fulls.now ++ leaving moment (keeps node.old).queues in
        OnErr result (BeginsList told (K.lines lines.old) (K.lines lines.new)) }
    ensures untold { K.failed lines.new ≡ K.failed lines.old }
{
    tell_fulls(writer, lines, gathered, fulls)?;
    drain(node, moment, writer, lines, gathered)
}

/// Lets frames leave each bus, in the plan's order: at most its rate, the least identifier first.
/// Tells them with a moment in microseconds, and answers how many they are. Where it fails, some
/// were told, and the node is not to be used further.
fn drain<W: ReportWriter, K: LineSink>(
    node: &mut Node,
    moment: u64,
    writer: &mut W,
    lines: &mut K,
    gathered: &mut TextBuffer,
) -> Result<u64, NoMemory>
    ensures same { IsSameNode node.old node.new }
    ensures style { W.style writer.new ≡ W.style writer.old }
    ensures keeps { OnOk result (keeps node.new ≡ left (keeps node.old)) }
    ensures told { let told = leaving moment (keeps node.old).queues in
        OnOk result ((types : Types) → HasTold (W.style writer.old) types told
        (text_of gathered.old) (text_of gathered.new) (K.lines lines.old) (K.lines lines.new)) }
    ensures sent { IfOk result (λ n. n ≡ length (leaving moment (keeps node.old).queues)) }
    ensures err { let told = leaving moment (keeps node.old).queues in
        OnErr result (BeginsList told (K.lines lines.old) (K.lines lines.new)) }
    ensures untold { K.failed lines.new ≡ K.failed lines.old }
{
    let before = node.waiting();
    drain_buses(node, moment, writer, lines, gathered)?;
    Ok(before - node.waiting())
}

/// The same, bus by bus.
fn drain_buses<W: ReportWriter, K: LineSink>(
    node: &mut Node,
    moment: u64,
    writer: &mut W,
    lines: &mut K,
    gathered: &mut TextBuffer,
) -> Result<(), NoMemory>
    ensures same { IsSameNode node.old node.new }
    ensures style { W.style writer.new ≡ W.style writer.old }
    ensures keeps { OnOk result (keeps node.new ≡ left (keeps node.old)) }
    ensures told { let told = leaving moment (keeps node.old).queues in
        OnOk result ((types : Types) → HasTold (W.style writer.old) types told
        (text_of gathered.old) (text_of gathered.new) (K.lines lines.old) (K.lines lines.new)) }
    ensures err { let told = leaving moment (keeps node.old).queues in
        OnErr result (BeginsList told (K.lines lines.old) (K.lines lines.new)) }
    ensures untold { K.failed lines.new ≡ K.failed lines.old }
{
    let buses = node.buses();
    for bus in 0..buses {
        drain_bus(node, bus, moment, writer, lines, gathered)?;
    }
    Ok(())
}

/// Lets frames leave one bus.
fn drain_bus<W: ReportWriter, K: LineSink>(
    node: &mut Node,
    bus: u8,
    moment: u64,
    writer: &mut W,
    lines: &mut K,
    gathered: &mut TextBuffer,
) -> Result<(), NoMemory>
    requires { bus < length (keeps node.old).queues }
    ensures same { IsSameNode node.old node.new }
    ensures style { W.style writer.new ≡ W.style writer.old }
    ensures keeps { OnOk result (keeps node.new ≡ bus_left (keeps node.old) bus) }
    ensures told { let q = queue_at (keeps node.old).queues bus in
        OnOk result ((types : Types) → HasTold (W.style writer.old) types (bus_lines moment bus q)
        (text_of gathered.old) (text_of gathered.new) (K.lines lines.old) (K.lines lines.new)) }
    ensures err { let q = queue_at (keeps node.old).queues bus in
        OnErr result (BeginsList (bus_lines moment bus q) (K.lines lines.old) (K.lines lines.new)) }
    ensures untold { K.failed lines.new ≡ K.failed lines.old }
{
    let rate = node.rate(bus);
    for turn in 0..rate {
        let Some(frame) = node.pop_out(bus) else {
            return Ok(());
        };
        let tx = TxRef {
            moment,
            bus,
            ident: frame.ident,
            bytes: &frame.bytes,
        };
        tell(writer, lines, gathered, Some(LineRef::Tx(tx)))?;
    }
    Ok(())
}

/// Lets all frames leave that wait, in rounds, and answers how many they are.
pub(crate) fn empty<W: ReportWriter, K: LineSink>(
    node: &mut Node,
    moment: u64,
    writer: &mut W,
    lines: &mut K,
    gathered: &mut TextBuffer,
) -> Result<u64, NoMemory>
    ensures style { W.style writer.new ≡ W.style writer.old }
    ensures told { let qs = (keeps node.old).queues in
        OnOk result ((types : Types)
        → HasTold (W.style writer.old) types (rounds (waiting qs) moment qs)
        (text_of gathered.old) (text_of gathered.new) (K.lines lines.old) (K.lines lines.new)) }
    ensures sent { let qs = (keeps node.old).queues in
        IfOk result (λ n. n ≡ length (rounds (waiting qs) moment qs)) }
    ensures err { let qs = (keeps node.old).queues in
        OnErr result (BeginsList (rounds (waiting qs) moment qs)
        (K.lines lines.old) (K.lines lines.new)) }
    ensures untold { K.failed lines.new ≡ K.failed lines.old }
{
    let most = node.waiting();
    for round in 0..most {
        drain(node, moment, writer, lines, gathered)?;
    }
    Ok(most - node.waiting())
}
