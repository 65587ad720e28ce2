ghost use Rattle.std.specs.Prelude.{◌≡◌, ◌+◌, ◌<◌, ◌≤◌};
ghost use Rattle.node_status.specs.Status.{info_payload};
ghost use Rattle.register_service.specs.Within.{limits_of};
ghost use Rattle.node_core.specs.InTime.{IsInTime, IsInTime-prop};

use crate::bus_queues::BusQueues;
use crate::came::{Came, Heard};
use crate::fed::{is_bad, line_on};
use crate::heard::subject_in;
use crate::port_shape::PortShape;
use crate::ports::table_of;
use crate::pushes::push_told;
use crate::request::Request;
use can_id::Kind;
use cy_bits::{List, NoMemory, ShortList};
use cy_outside::Tree;
use node_plan::Plan;
use node_status::info_payload;
use register_service::Limited;
use report_lines::{Line, LineRef};
use rx_table::{Met, Table, frame_for};
use std::alloc::Global;
use tail_frame::{Frame, Record};

/// A node that runs by a plan. It stands for the records of a log that it has taken.
#[derive(Drop)]
pub struct Node {
    /// How it is set up.
    pub plan: Plan,
    /// The sessions of the sources that it hears.
    pub table: Table<PortShape>,
    /// A moment in microseconds: no session heard anything later.
    pub latest: u64,
    /// The frames that wait on each bus.
    pub queues: BusQueues,
    /// The transfer-ID of the next heartbeat, 0 to 31.
    pub tid: u8,
    /// What its registers hold, each within its limits.
    pub registers: Limited,
    /// What it says of itself where it is asked: the payload of each reply of GetInfo.
    pub info: ShortList<u8, 128>,
    pub(crate) alloc: Global,
    pub ghost node_id: { plan.node < 128 },
    pub ghost health: { plan.status.health ≤ 3 },
    pub ghost mode: { plan.status.mode ≤ 3 },
    pub ghost few_ids: { tid < 32 },
    pub ghost tells: { info ≡ info_payload plan.info },
    pub ghost limits: { limits_of registers ≡ limits_of plan.registers },
    ghost in_time: { IsInTime latest table } by { IsInTime-prop latest table },
}

/// What a step gave besides its lines.
#[derive(Clone, Copy, Debug, PartialEq, Eq)]
pub struct Stepped {
    /// Whether the record ends a transfer whose bytes don't fit their CRC.
    pub badcrc: bool,
    /// Whether the tree failed in the request that the record ends.
    pub failed: bool,
}

impl Node {
    ghost use Rattle.std.specs.Prelude.{[], List as ListOf, IfOk, IfSome, IsSomeAnd, OnOk, OnErr};
    ghost use Rattle.std.specs.Prelude.{length, take};
    ghost use Rattle.std.specs.Option.{ForSome};
    ghost use Rattle.file_service.specs.Causes.{TellsFault};
    ghost use Rattle.tail_frame.specs.Frames.{seen};
    ghost use Rattle.node_plan.specs.IsPlan.{IsPlan};
    ghost use Rattle.std.specs.Bool.{OnFalse, OnTrue};
    ghost use Rattle.rx_table.specs.Views.{subscriptions};
    ghost use Rattle.report_lines.specs.declared.line.Line.{Line as LineOf};
    ghost use Rattle.node_core.specs.Heard.{IsElsewhere};
    ghost use Rattle.node_core.specs.Shapes.{port_schema};
    ghost use Rattle.node_core.specs.Came.{answer_in, heard_is_bad, came_lines, came_request};
    ghost use Rattle.node_core.specs.Came.{met_lines, HasPort, IsHeardAs, IsMetAs, TellsRequest};
    ghost use Rattle.node_core.specs.Keeps.{DidStep, HasQueues, keeps};
    ghost use Rattle.node_core.specs.Sending.{IsReadRequest, IsRequestTo};
    ghost use Rattle.node_core.specs.Steps.{kept};
    ghost use Rattle.node_core.specs.Stands.{Stands, Takes, StandsAsBefore, Gives, TellsBadCrc};
    ghost use Rattle.node_core.specs.Stands.{TakesFrame, TakesOrNot, KeepsSessions, FrameGives};
    ghost use Rattle.node_core.specs.Stands.{FrameOpens, FrameTellsBadCrc, OpensSession};
    ghost use Rattle.node_core.specs.Stands.{Holds, IsWithinBound};
    ghost use Rattle.node_core.specs.Told.{answer_is_bad};
    ghost use Rattle.node_core.specs.Types.{type_at};
    ghost use Rattle.report_lines.specs.Lent.{HasType, told_lines};

    /// A node that runs by a plan of `read_plan`. It has heard nothing.
    pub fn open(alloc: Global, plan: Plan) -> Result<Node, NoMemory>
        requires { IsPlan plan }
        ensures plan { IfOk result (λ node. node.plan ≡ plan) }
        ensures stands { IfOk result (λ node. Stands node []) }
        ensures latest { IfOk result (λ node. node.latest ≡ 0) }
        ensures keeps { IfOk result (λ node. keeps node ≡ kept plan []) }
    {
        let table = table_of(alloc, &plan)?;
        let queues = BusQueues::new(alloc, &plan)?;
        let registers = Limited::open(alloc, plan.registers.as_slice())?;
        let info = info_payload(&plan.info);
        Ok(Node {
            plan,
            table,
            latest: 0,
            queues,
            tid: 0,
            registers,
            info,
            alloc,
        })
    }

    /// Takes the next record of the log, at a moment not before the last one, and appends the lines
    /// on what it gives, and those on the buses that have no room for its reply. A request of a
    /// file is asked of the tree. Memory may be wanting; then the lines and the frames that wait
    /// are left as they were, and the node, which may have taken the record, keeps its ports and
    /// its bound.
    ///
    /// The short form of `step`, `told`, `request`, `serve` and `reply`, for a caller that keeps
    /// the lines; a run calls these.
    pub fn frame<T: Tree>(
        &mut self,
        rec: &Record,
        tree: &mut T,
        lines: &mut List<Line>,
    ) -> Result<Stepped, NoMemory>
        requires { self.old.latest ≤ rec.now.moment }
        ensures plan { self.new.plan ≡ self.old.plan }
        ensures latest { self.new.latest ≤ rec.now.moment }
        ensures stands { OnOk result (Takes rec.now self.old self.new) }
        ensures did { IfOk result (λ step. DidStep (T.files tree.old) rec.now
            self.old self.new lines.old lines.new step.failed) }
        ensures badcrc { IfOk result (λ step. TellsBadCrc self.old rec.now step.badcrc) }
        ensures behind { take (length lines.old) lines.new ≡ lines.old }
        ensures queues { HasQueues self.old → HasQueues self.new }
        ensures unsent { OnErr result ((keeps self.new).queues ≡ (keeps self.old).queues) }
        ensures err { OnErr result (lines.new ≡ lines.old) }
        ensures memory { OnErr result (TakesOrNot rec.now self.old self.new) }
        ensures files { T.files tree.new ≡ T.files tree.old }
        ensures cause { IfOk result (λ step.
            TellsFault step.failed (T.faults tree.old) (T.faults tree.new)) }
        ensures count { T.faults tree.old ≤ T.faults tree.new }
        ensures calls { T.calls tree.new ≤ T.calls tree.old + 1 }
    {
        let came = self.step(rec)?;
        let told = self.told(rec, came);
        let request = self.request(came, told)?;
        let before = lines.len();
        push_told(self.alloc, lines, told)?;
        match self.answer(rec.moment, request, tree, lines) {
            Ok(failed) => Ok(Stepped {
                badcrc: came.badcrc,
                failed,
            }),
            Err(refused) => {
                lines.cut_back(before);
                Err(refused)
            }
        }
    }

    /// Takes the next record of the log, at a moment not before the last one. Memory may be wanting
    /// only for a record that opens a session; then the sessions are left as they were.
    #[inline(always)]
    pub fn step(&mut self, rec: &Record) -> Result<Came, NoMemory>
        requires { self.old.latest ≤ rec.now.moment }
        ensures plan { self.new.plan ≡ self.old.plan }
        ensures latest { self.new.latest ≤ rec.now.moment }
        ensures stands { OnOk result (Takes rec.now self.old self.new) }
        ensures lines { IfOk result (λ came.
            Gives self.old rec.now (came_lines self.new rec.now came)) }
        ensures badcrc { IfOk result (λ came. TellsBadCrc self.old rec.now came.badcrc) }
        ensures heard { IfOk result (λ came. IsHeardAs self.old self.new rec.now came.heard) }
        ensures keeps { keeps self.new ≡ keeps self.old }
        ensures request { IfOk result (λ came. TellsRequest self.old rec.now came) }
        ensures asks { let node = self.old.plan.node in IfOk result (λ came.
            (lines : ListOf LineOf) → ForSome (came_request came lines) (IsRequestTo node)) }
        ensures err { OnErr result (StandsAsBefore self.old self.new) }
        ensures memory { OnErr result (OpensSession self.old rec.now) }
    {
        if self.passes_by(rec) {
            return Ok(Came {
                badcrc: false,
                heard: None,
            });
        }
        match frame_for(self.plan.node, rec) {
            Some(frame) => {
                let met = self.hear(&frame)?;
                let heard = Heard {
                    ident: frame.ident,
                    tail: frame.tail,
                    met,
                };
                Ok(Came {
                    badcrc: self.ends_badly(rec, heard),
                    heard: Some(heard),
                })
            }
            None => Ok(Came {
                badcrc: false,
                heard: None,
            }),
        }
    }

    /// The line on what a record came to, if there is one: it was the last that the node took.
    #[inline(always)]
    pub fn told<'a>(&'a self, rec: &'a Record, came: Came) -> Option<LineRef<'a>>
        ensures line { told_lines result ≡ came_lines self.now rec.now came }
        ensures typed { IfSome result (HasType (type_at self.now.table)) }
    {
        let heard = came.heard?;
        let frame = heard.frame(rec);
        line_on(&self.table, &frame, self.table.lend(heard.met, &frame))
    }

    /// The request that the record ended, where this was told of it and the node answers it. Memory
    /// may be wanting only for a request that is answered by what its payload says.
    #[inline(always)]
    pub fn request(
        &self,
        came: Came,
        told: Option<LineRef<'_>>,
    ) -> Result<Option<Request>, NoMemory>
        ensures request { IfOk result (λ request.
            request ≡ came_request came (told_lines told.entry)) }
        ensures memory { OnErr result
            (IsSomeAnd came.heard (λ heard. IsReadRequest heard.ident)) }
    {
        let Some(LineRef::Rx(rx)) = told else {
            return Ok(None);
        };
        let Some(heard) = came.heard else {
            return Ok(None);
        };
        Request::with(self.alloc, heard.tail.tid, heard.ident, rx.payload)
    }

    /// Whether a record is of a message on no port of the plan. Its identifier says so, before it
    /// is read as a frame.
    #[inline(always)]
    fn passes_by(&self, rec: &Record) -> bool
        ensures elsewhere { OnTrue result
            (IsElsewhere (subscriptions port_schema self.now.table) rec.now) }
        ensures port { OnFalse result (HasPort self.now rec.now) }
    {
        match subject_in(rec.ident) {
            Some(subject) => !self.table.takes(Kind::Message, subject),
            None => false,
        }
    }

    /// Takes a frame that is for the node.
    #[inline(always)]
    fn hear(&mut self, frame: &Frame) -> Result<Met, NoMemory>
        requires { self.old.latest ≤ frame.now.moment }
        ensures plan { self.new.plan ≡ self.old.plan }
        ensures latest { self.new.latest ≤ frame.now.moment }
        ensures keeps { keeps self.new ≡ keeps self.old }
        ensures stands { OnOk result (TakesFrame (seen frame.now) self.old self.new) }
        ensures lines { let f = seen frame.now in
            IfOk result (λ met. FrameGives self.old f (met_lines self.new f met)) }
        ensures badcrc { let f = seen frame.now in IfOk result (λ met.
            FrameTellsBadCrc self.old f (answer_is_bad (answer_in self.new f met))) }
        ensures met { IfOk result (λ met. IsMetAs self.old self.new (seen frame.now) met) }
        ensures err { OnErr result (KeepsSessions self.old self.new) }
        ensures memory { OnErr result (FrameOpens self.old (seen frame.now)) }
    {
        rx_table::laws::outcome_tells();
        let met = self.table.step(frame)?;
        self.latest = frame.moment;
        Ok(met)
    }

    /// Whether a frame that was heard ends a transfer whose bytes don't fit their CRC.
    #[inline(always)]
    fn ends_badly(&self, rec: &Record, heard: Heard) -> bool
        ensures { result ≡ heard_is_bad self.now rec.now heard }
    {
        let frame = heard.frame(rec);
        is_bad(self.table.lend(heard.met, &frame))
    }

    /// The bytes that the buffers of the open sessions take.
    pub fn held(&self) -> u64
        ensures held { Holds self.now result }
        ensures bound { IsWithinBound self.now result }
    {
        self.table.held()
    }
}
