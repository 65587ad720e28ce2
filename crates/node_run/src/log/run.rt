//! A run over a log.
ghost use Rattle.std.specs.Prelude.{◌≡◌, ◌≢◌, ◌≤◌, [], map};
ghost use Rattle.cy_outside.specs.Outside.{Rose};
ghost use Rattle.node_plan.specs.Bound.{bound_of};
ghost use Rattle.node_plan.specs.IsPlan.{IsPlan};
ghost use Rattle.node_run.specs.Failures.{failures, tree_counts};
ghost use Rattle.node_run.specs.Forms.{Text};
ghost use Rattle.node_run.specs.HasRun.{HasRun};
ghost use Rattle.node_run.specs.Ran.{IsEmpty, end_sent, names_of, of_failed, of_report};
ghost use Rattle.node_run.specs.Ran.{reported, status_of};
ghost use Rattle.node_run.specs.ValueLines.{flow};

use crate::form::Form;
use crate::log::clock::Clock;
use crate::log::report_writer::ReportWriter;
use crate::log::running::Running;
use crate::log::tally::Tally;
use crate::report::Report;
use crate::status::Status;
use cy_bits::{BusName, ShortList};
use cy_outside::{Sink, Source, Tree};
use json_lines::JsonWriter;
use log_loop::{Ended, listen};
use node_core::{KeptLines, LineSink, Node, Numbers};
use node_plan::{BusPlan, Plan, bound};
use std::alloc::Global;
use text_lines::LineWriter;

/// Runs the node of a plan over a log: a step for each record, and at the log's end the last line.
/// The files that it serves are those of a tree. A sink takes the lines of the steps, and the lines
/// of the log on which requests ended in which the tree failed; the text of the steps is written
/// before the input is read again, and the numbers become those of the run.
pub fn run_over<T: Tree, L: Source, O: Sink, K: LineSink>(
    alloc: Global,
    plan: Plan,
    tree: &mut T,
    input: &mut L,
    out: &mut O,
    lines: &mut K,
    numbers: &mut Numbers,
) -> Status
    requires plan { IsPlan plan }
    ensures ran { let r = reported (K.lines lines.old) (K.lines lines.new) numbers.new in
        let old = tree_counts (T.faults tree.old) (T.calls tree.old) in
        let new = tree_counts (T.faults tree.new) (T.calls tree.new) in
        let f = failures (K.failed lines.old) (K.failed lines.new) old new in
        let flow = flow (L.left input.old) (L.left input.new)
        (O.written out.old) (O.written out.new) in
        HasRun Text plan (T.files tree.old) flow result r f }
    ensures files { T.files tree.new ≡ T.files tree.old }
    ensures read { result ≡ Status.ReadFault → Rose (L.faults input.old) (L.faults input.new) }
    ensures write { result ≡ Status.WriteFault → Rose (O.faults out.old) (O.faults out.new) }
    ensures unread { result ≢ Status.ReadFault → L.faults input.new ≡ L.faults input.old }
    ensures unwritten { result ≢ Status.WriteFault → O.faults out.new ≡ O.faults out.old }
    ensures bound { numbers.new.bound ≡ bound_of plan }
    ensures held { numbers.new.held ≤ numbers.new.bound }
{
    let mut writer = LineWriter::new(alloc, &plan.buses);
    run_with(alloc, plan, &mut writer, tree, input, out, lines, numbers)
}

/// The same, written in a form: as text, or as JSON lines (RFC 8259), an object a line.
pub fn run_in<T: Tree, L: Source, O: Sink, K: LineSink>(
    alloc: Global,
    form: Form,
    plan: Plan,
    tree: &mut T,
    input: &mut L,
    out: &mut O,
    lines: &mut K,
    numbers: &mut Numbers,
) -> Status
    requires plan { IsPlan plan }
    ensures ran { let r = reported (K.lines lines.old) (K.lines lines.new) numbers.new in
        let old = tree_counts (T.faults tree.old) (T.calls tree.old) in
        let new = tree_counts (T.faults tree.new) (T.calls tree.new) in
        let f = failures (K.failed lines.old) (K.failed lines.new) old new in
        let flow = flow (L.left input.old) (L.left input.new)
        (O.written out.old) (O.written out.new) in
        HasRun form plan (T.files tree.old) flow result r f }
    ensures files { T.files tree.new ≡ T.files tree.old }
    ensures read { result ≡ Status.ReadFault → Rose (L.faults input.old) (L.faults input.new) }
    ensures write { result ≡ Status.WriteFault → Rose (O.faults out.old) (O.faults out.new) }
    ensures unread { result ≢ Status.ReadFault → L.faults input.new ≡ L.faults input.old }
    ensures unwritten { result ≢ Status.WriteFault → O.faults out.new ≡ O.faults out.old }
    ensures bound { numbers.new.bound ≡ bound_of plan }
    ensures held { numbers.new.held ≤ numbers.new.bound }
{
    match form {
        Form::Text => run_over(alloc, plan, tree, input, out, lines, numbers),
        Form::Json => {
            let mut writer = JsonWriter::new(alloc, &plan.buses);
            run_with(alloc, plan, &mut writer, tree, input, out, lines, numbers)
        }
    }
}

/// The same, written as a writer of the plan's lines does.
fn run_with<W: ReportWriter, T: Tree, L: Source, O: Sink, K: LineSink>(
    alloc: Global,
    plan: Plan,
    writer: &mut W,
    tree: &mut T,
    input: &mut L,
    out: &mut O,
    lines: &mut K,
    numbers: &mut Numbers,
) -> Status
    requires plan { IsPlan plan }
    requires buses { (W.style writer.old).buses ≡ plan.buses }
    ensures ran { let r = reported (K.lines lines.old) (K.lines lines.new) numbers.new in
        let old = tree_counts (T.faults tree.old) (T.calls tree.old) in
        let new = tree_counts (T.faults tree.new) (T.calls tree.new) in
        let f = failures (K.failed lines.old) (K.failed lines.new) old new in
        let flow = flow (L.left input.old) (L.left input.new)
        (O.written out.old) (O.written out.new) in
        HasRun (W.style writer.old).form plan (T.files tree.old) flow result r f }
    ensures files { T.files tree.new ≡ T.files tree.old }
    ensures read { result ≡ Status.ReadFault → Rose (L.faults input.old) (L.faults input.new) }
    ensures write { result ≡ Status.WriteFault → Rose (O.faults out.old) (O.faults out.new) }
    ensures unread { result ≢ Status.ReadFault → L.faults input.new ≡ L.faults input.old }
    ensures unwritten { result ≢ Status.WriteFault → O.faults out.new ≡ O.faults out.old }
    ensures bound { numbers.new.bound ≡ bound_of plan }
    ensures held { numbers.new.held ≤ numbers.new.bound }
{
    let names = names_of(&plan);
    let bound = bound(&plan);
    *numbers = Tally::new(0, bound).numbers;
    let Ok(mut node) = Node::open(alloc, plan) else {
        return Status::NoMemory;
    };
    let mut run = Running {
        clock: Clock::new(node.plan.silent),
        tally: Tally::new(node.held(), bound),
        sent: 0,
        node: &mut node,
        writer,
        lines,
        tree,
    };
    let ended = listen(alloc, &mut run, names, input, out);
    *numbers = numbers_of(ended, &run.tally.numbers, run.sent);
    status_of(ended)
}

/// The same, whose lines, failed requests and numbers a report takes.
pub fn run_log<T: Tree, L: Source, O: Sink>(
    alloc: Global,
    plan: Plan,
    tree: &mut T,
    input: &mut L,
    out: &mut O,
    report: &mut Report,
) -> Status
    requires plan { IsPlan plan }
    requires empty { IsEmpty report.old }
    ensures ran { let old = tree_counts (T.faults tree.old) (T.calls tree.old) in
        let new = tree_counts (T.faults tree.new) (T.calls tree.new) in
        let f = of_failed report.new old new in
        let flow = flow (L.left input.old) (L.left input.new)
        (O.written out.old) (O.written out.new) in
        HasRun Text plan (T.files tree.old) flow result (of_report report.new) f }
    ensures files { T.files tree.new ≡ T.files tree.old }
    ensures read { result ≡ Status.ReadFault → Rose (L.faults input.old) (L.faults input.new) }
    ensures write { result ≡ Status.WriteFault → Rose (O.faults out.old) (O.faults out.new) }
    ensures unread { result ≢ Status.ReadFault → L.faults input.new ≡ L.faults input.old }
    ensures unwritten { result ≢ Status.WriteFault → O.faults out.new ≡ O.faults out.old }
    ensures bound { report.new.bound ≡ bound_of plan }
    ensures held { report.new.held ≤ report.new.bound }
{
    let mut kept = KeptLines::new(alloc);
    let mut numbers = Tally::new(0, 0).numbers;
    let status = run_over(alloc, plan, tree, input, out, &mut kept, &mut numbers);
    report.lines = kept.lines;
    report.failed = kept.failed;
    report.count(&numbers);
    status
}

/// The numbers of a run, by how its loop over the log ended: those of its steps, and where the last
/// line was written with all frames that were sent.
fn numbers_of(ended: Ended, numbers: &Numbers, sent: u64) -> Numbers
    ensures { result ≡ end_sent ended numbers.now sent }
{
    match ended {
        Ended::Ok => Numbers { sent, ..*numbers },
        _ => *numbers,
    }
}

/// The status of a command that hears a log, by how its loop over the log ended.
pub fn status_of(ended: Ended) -> Status
    ensures { result ≡ status_of ended }
{
    match ended {
        Ended::Ok => Status::Ok,
        Ended::Log { line, why } => Status::Log { line, why },
        Ended::LogLong => Status::LogLong,
        Ended::ReadFault => Status::ReadFault,
        Ended::WriteFault => Status::WriteFault,
        Ended::NoMemory => Status::NoMemory,
    }
}

/// The names of a plan's buses.
fn names_of(plan: &Plan) -> ShortList<BusName, 3>
    ensures { result ≡ names_of plan.now }
{
    let mut names = ShortList::new();
    for bus in plan.buses.as_slice() {
        names.push(name_of(bus));
    }
    names
}

/// The name of a bus, copied.
fn name_of(bus: &BusPlan) -> BusName
    ensures { result ≡ bus.now.name }
{
    let text = bus.name.as_str();
    BusName::new(text).unwrap()
}
