//! What a node sends.
ghost use Rattle.std.specs.Prelude.{◌≡◌, ◌+◌, ◌<◌, ◌≤◌, IfOk, OnErr, OnOk, Some, length, map};
ghost use Rattle.std.specs.Option.{ForSome};
ghost use Rattle.file_service.specs.Causes.{TellsFault};
ghost use Rattle.node_core.specs.Files.{FitsFileReply};
ghost use Rattle.node_core.specs.Keeps.{DidAnswer, HasQueues, answered, beaten, keeps, reply_by};
ghost use Rattle.node_core.specs.Pops.{Pops, queue_at};
ghost use Rattle.node_core.specs.Queues.{fulls, waiting};
ghost use Rattle.node_core.specs.Questions.{IsOfContent};
ghost use Rattle.node_core.specs.Sending.{IsRequestTo, beat};
ghost use Rattle.node_core.specs.Stands.{StandsAsBefore};
ghost use Rattle.report_lines.specs.declared.line.Line.TheVariants.{Full};

use crate::answers::MAX_REPLY;
use crate::file_reply::FileReply;
use crate::node::Node;
use crate::pushes::{put_fulls, take_with_room};
use crate::request::Request;
use crate::transfer::{Transfer, beat_ident};
use cy_bits::{List, NoMemory, ShortList};
use cy_outside::Tree;
use node_status::heartbeat_payload;
use report_lines::{FullLine, Line};
use std_types::ports;
use tx_queue::OutFrame;

impl Node {
    /// Does what a request asks, and puts the reply behind the frames that wait on each bus: to the
    /// one who asks, with the request's priority and transfer-ID (Cyphal Specification, section
    /// 5.3.3). The reply to a request of a file is what the tree told for it. Tells on which buses
    /// there is no room for the reply, at a moment in microseconds. Memory may be wanting only for
    /// what is asked of registers and files; then the node is not to be used further: its plan, its
    /// sessions and the frames that wait are as they were, and of its registers nothing is known.
    #[inline(never)]
    pub fn reply(
        &mut self,
        moment: u64,
        request: Request,
        file: &FileReply,
    ) -> Result<ShortList<FullLine, 3>, NoMemory>
        requires asks { IsRequestTo self.old.plan.node request }
        requires file { FitsFileReply file.now }
        ensures plan { self.new.plan ≡ self.old.plan }
        ensures latest { self.new.latest ≡ self.old.latest }
        ensures stands { StandsAsBefore self.old self.new }
        ensures keeps { let old = keeps self.old in
            OnOk result (keeps self.new ≡ answered self.old.plan (Some request) file.now old) }
        ensures fulls { let old = keeps self.old in
            let reply = reply_by self.old.plan (Some request) file.now old in
            IfOk result (λ full. map Full full ≡ fulls moment reply old.queues) }
        ensures queues { HasQueues self.old → HasQueues self.new }
        ensures unsent { OnErr result ((keeps self.new).queues ≡ (keeps self.old).queues) }
        ensures memory { OnErr result (IsOfContent request.question) }
    {
        let mut out = [0; MAX_REPLY];
        let ident = request.reply_ident(self.plan.node);
        let size = self.answer_with(request.question, file, &mut out)?;
        let reply = Transfer {
            ident,
            tid: request.tid,
            port: request.service,
            payload: &out[..size],
        };
        Ok(self.queues.push_all(moment, &reply))
    }

    /// Serves a request and replies to it, if there is one, and puts the lines on full buses behind
    /// others. Answers whether the tree failed. Where memory is wanting, neither a line nor a frame
    /// is put.
    pub(crate) fn answer<T: Tree>(
        &mut self,
        moment: u64,
        request: Option<Request>,
        tree: &mut T,
        lines: &mut List<Line>,
    ) -> Result<bool, NoMemory>
        requires { ForSome request (IsRequestTo self.old.plan.node) }
        ensures plan { self.new.plan ≡ self.old.plan }
        ensures latest { self.new.latest ≡ self.old.latest }
        ensures stands { StandsAsBefore self.old self.new }
        ensures did { IfOk result (DidAnswer (T.files tree.old) moment request
            self.old self.new lines.old lines.new) }
        ensures queues { HasQueues self.old → HasQueues self.new }
        ensures unsent { OnErr result ((keeps self.new).queues ≡ (keeps self.old).queues) }
        ensures err { OnErr result (lines.new ≡ lines.old) }
        ensures files { T.files tree.new ≡ T.files tree.old }
        ensures cause { IfOk result (λ failed.
            TellsFault failed (T.faults tree.old) (T.faults tree.new)) }
        ensures count { T.faults tree.old ≤ T.faults tree.new }
        ensures calls { T.calls tree.new ≤ T.calls tree.old + 1 }
    {
        let Some(request) = request else {
            return Ok(false);
        };
        let file = self.serve(&request, tree)?;
        let mut said = take_with_room(self.alloc, lines)?;
        match self.reply(moment, request, &file) {
            Ok(fulls) => {
                put_fulls(&mut said, &fulls);
                *lines = List::new(said);
                Ok(file.is_failed())
            }
            Err(refused) => {
                *lines = List::new(said);
                Err(refused)
            }
        }
    }

    /// Puts the heartbeat of a tick behind the frames that wait on each bus (Cyphal Specification,
    /// section 5.3.2). The tick's number is the uptime in seconds, its moment is in microseconds.
    /// Tells on which buses there is no room for it; its transfer-ID is used all the same. Takes no
    /// memory.
    #[inline(never)]
    pub fn tick(&mut self, moment: u64, number: u64) -> ShortList<FullLine, 3>
        ensures plan { self.new.plan ≡ self.old.plan }
        ensures latest { self.new.latest ≡ self.old.latest }
        ensures stands { StandsAsBefore self.old self.new }
        ensures keeps { let x = beat self.old.plan number (keeps self.old).tid in
            keeps self.new ≡ beaten x (keeps self.old) }
        ensures fulls { let x = beat self.old.plan number (keeps self.old).tid in
            map Full result ≡ fulls moment (Some x) (keeps self.old).queues }
    {
        let status = self.plan.status;
        let payload = heartbeat_payload(status.health, status.mode, status.code, number);
        let beat = Transfer {
            ident: beat_ident(self.plan.node),
            tid: self.tid,
            port: ports::HEARTBEAT,
            payload: &payload,
        };
        let fulls = self.queues.push_all(moment, &beat);
        self.tid = (self.tid + 1) % 32;
        fulls
    }

    /// Takes the first of the frames with the least identifier that wait on a bus; `None` where
    /// nothing waits there.
    pub fn pop_out(&mut self, bus: u8) -> Option<OutFrame>
        requires { bus < length (keeps self.old).queues }
        ensures plan { self.new.plan ≡ self.old.plan }
        ensures latest { self.new.latest ≡ self.old.latest }
        ensures stands { StandsAsBefore self.old self.new }
        ensures pops { Pops bus (keeps self.old) (keeps self.new) result }
    {
        self.queues.pop(bus)
    }

    /// How many frames wait on all buses.
    #[inline(always)]
    pub fn waiting(&self) -> u64
        ensures { result ≡ waiting (keeps self.now).queues }
    {
        self.queues.waiting()
    }

    /// The number of buses, 1 to 3.
    #[inline(always)]
    pub fn buses(&self) -> u8
        ensures { result ≡ length (keeps self.now).queues }
    {
        self.queues.buses.len() as u8
    }

    /// How many frames leave a bus after a step at most.
    pub fn rate(&self, bus: u8) -> u32
        requires { bus < length (keeps self.now).queues }
        ensures { result ≡ (queue_at (keeps self.now).queues bus).rate }
    {
        self.queues.buses[bus as usize].rate
    }
}
