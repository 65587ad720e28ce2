//! The plan as far as its lines were read.
ghost use Rattle.std.specs.Prelude.{◌≡◌, ◌<◌, IfSome, Some, length, map, slice_get, unwrap_or};
ghost use Rattle.std_types.specs.declared.registers.Register.{Register as Held};
ghost use Rattle.node_plan.specs.Info.{blank_info};
ghost use Rattle.node_plan.specs.Draft.{has_bus, has_register, has_subject, limited, on_bus, place_of};

use crate::info::blank_info;
use crate::line::{PlanVersion, Said};
use crate::plan::{BusPlan, NodeStatus, Plan, PlanError, PlanWhy, Sub};
use crate::registers::can_limit;
use cy_bits::{BusName, List, ShortList, Text};
use std::alloc::Global;
use std::mem::replace;
use std_types::node::NodeInfo;
use std_types::registers::{Limits, Register};

const MAX_BUSES: usize = 3;

const MAX_SUBS: usize = 64;

const MAX_REGISTERS: usize = 256;

/// The status of a node of which nothing is said.
const NO_STATUS: NodeStatus = NodeStatus {
    health: 0,
    mode: 0,
    code: 0,
};

/// What the lines said so far.
#[derive(Drop)]
pub struct Draft {
    /// The version of the lines, where `plan 1` or `plan 2` was there.
    pub version: Option<PlanVersion>,
    pub node: Option<u8>,
    pub buses: ShortList<BusPlan, 3>,
    /// The MTU of all buses, in version 1.
    pub mtu: Option<u8>,
    /// The rate of all buses, in version 1.
    pub rate: Option<u32>,
    pub timeout: Option<u64>,
    pub silent: bool,
    pub subs: List<Sub>,
    pub clients: Option<u16>,
    pub status: Option<NodeStatus>,
    pub info: Option<NodeInfo>,
    pub registers: List<Register>,
    /// The path of the folder whose files the node serves.
    pub serve: Option<Text>,
    pub queue: Option<u32>,
}

impl Draft {
    ghost use Rattle.std.specs.Prelude.{◌≡◌, ◌≢◌, ◌<◌, ◌≤◌, Err, IfSome, Some, length, true};
    ghost use Rattle.node_plan.specs.declared.plan.PlanError.TheVariants as error;
    ghost use Rattle.node_plan.specs.Answers.{IsStep};
    ghost use Rattle.node_plan.specs.Draft.{start, complete, grows_a_list, is_two, limits_at, plan_with, without_type, with_limits, with_line, step};
    ghost use Rattle.node_plan.specs.IsPlan.{IsBus, IsDraft, IsFolderPath, IsInfo, IsMtu, IsPlan, IsRate, IsStatus, IsSub};
    ghost use Rattle.node_plan.specs.Line.{IsSaid};
    ghost use Rattle.node_plan.specs.Registers.{IsRegister};

    /// Nothing was said yet.
    pub fn new(alloc: Global) -> Draft
        ensures value { result ≡ start }
        ensures sound { IsDraft result }
    {
        Draft {
            version: None,
            node: None,
            buses: ShortList::new(),
            mtu: None,
            rate: None,
            timeout: None,
            silent: false,
            subs: List::empty(alloc),
            clients: None,
            status: None,
            info: None,
            registers: List::empty(alloc),
            serve: None,
            queue: None,
        }
    }

    /// Whether the lines are those of version 2.
    pub fn is_two(&self) -> bool
        ensures { result ≡ is_two self.now.version }
    {
        matches!(self.version, Some(PlanVersion::Two))
    }

    fn set_version(&mut self, n: u32, version: PlanVersion) -> Result<(), PlanError>
        requires { IsDraft self.old }
        ensures value { IsStep (step self.old (Said.Version version)) n self.new result }
        ensures sound { IsDraft self.new }
        ensures no_memory { result ≢ Err error.NoMemory }
    {
        match (self.version, version) {
            (None, _) => {
                self.version = Some(version);
                Ok(())
            }
            (Some(PlanVersion::One), PlanVersion::One) => Err(repeated(n)),
            (Some(PlanVersion::Two), PlanVersion::Two) => Err(repeated(n)),
            _ => Err(PlanError::Refused {
                n,
                why: PlanWhy::Line,
            }),
        }
    }

    fn set_node(&mut self, n: u32, node: u8) -> Result<(), PlanError>
        requires sound { IsDraft self.old }
        requires low { node < 128 }
        ensures value { IsStep (with_line self.old (Said.Node node)) n self.new result }
        ensures sound { IsDraft self.new }
        ensures no_memory { result ≢ Err error.NoMemory }
    {
        if self.node.is_some() {
            return Err(repeated(n));
        }
        self.node = Some(node);
        Ok(())
    }

    fn set_mtu(&mut self, n: u32, mtu: u8) -> Result<(), PlanError>
        requires sound { IsDraft self.old }
        requires fits { IsMtu mtu }
        ensures value { IsStep (with_line self.old (Said.Mtu mtu)) n self.new result }
        ensures sound { IsDraft self.new }
        ensures no_memory { result ≢ Err error.NoMemory }
    {
        if self.mtu.is_some() {
            return Err(repeated(n));
        }
        self.mtu = Some(mtu);
        Ok(())
    }

    fn set_rate(&mut self, n: u32, rate: u32) -> Result<(), PlanError>
        requires sound { IsDraft self.old }
        requires fits { IsRate rate }
        ensures value { IsStep (with_line self.old (Said.Rate rate)) n self.new result }
        ensures sound { IsDraft self.new }
        ensures no_memory { result ≢ Err error.NoMemory }
    {
        if self.rate.is_some() {
            return Err(repeated(n));
        }
        self.rate = Some(rate);
        Ok(())
    }

    fn set_timeout(&mut self, n: u32, timeout: u64) -> Result<(), PlanError>
        requires sound { IsDraft self.old }
        requires low { 1 ≤ timeout }
        requires high { timeout ≤ 60000000 }
        ensures value { IsStep (with_line self.old (Said.Timeout timeout)) n self.new result }
        ensures sound { IsDraft self.new }
        ensures no_memory { result ≢ Err error.NoMemory }
    {
        if self.timeout.is_some() {
            return Err(repeated(n));
        }
        self.timeout = Some(timeout);
        Ok(())
    }

    fn set_clients(&mut self, n: u32, clients: u16) -> Result<(), PlanError>
        requires sound { IsDraft self.old }
        requires low { 1 ≤ clients }
        requires high { clients ≤ 128 }
        ensures value { IsStep (with_line self.old (Said.Clients clients)) n self.new result }
        ensures sound { IsDraft self.new }
        ensures no_memory { result ≢ Err error.NoMemory }
    {
        if self.clients.is_some() {
            return Err(repeated(n));
        }
        self.clients = Some(clients);
        Ok(())
    }

    fn set_status(&mut self, n: u32, status: NodeStatus) -> Result<(), PlanError>
        requires sound { IsDraft self.old }
        requires fits { IsStatus status }
        ensures value { IsStep (with_line self.old (Said.Status status)) n self.new result }
        ensures sound { IsDraft self.new }
        ensures no_memory { result ≢ Err error.NoMemory }
    {
        if self.status.is_some() {
            return Err(repeated(n));
        }
        self.status = Some(status);
        Ok(())
    }

    fn set_info(&mut self, n: u32, info: NodeInfo) -> Result<(), PlanError>
        requires sound { IsDraft self.old }
        requires fits { IsInfo info }
        ensures value { IsStep (with_line self.old (Said.Info info)) n self.new result }
        ensures sound { IsDraft self.new }
        ensures no_memory { result ≢ Err error.NoMemory }
    {
        if self.info.is_some() {
            return Err(repeated(n));
        }
        self.info = Some(info);
        Ok(())
    }

    fn set_queue(&mut self, n: u32, queue: u32) -> Result<(), PlanError>
        requires sound { IsDraft self.old }
        requires low { 1 ≤ queue }
        requires high { queue ≤ 4096 }
        ensures value { IsStep (with_line self.old (Said.Queue queue)) n self.new result }
        ensures sound { IsDraft self.new }
        ensures no_memory { result ≢ Err error.NoMemory }
    {
        if self.queue.is_some() {
            return Err(repeated(n));
        }
        self.queue = Some(queue);
        Ok(())
    }

    fn set_silent(&mut self, n: u32) -> Result<(), PlanError>
        requires { IsDraft self.old }
        ensures value { IsStep (with_line self.old Said.Silent) n self.new result }
        ensures sound { IsDraft self.new }
        ensures no_memory { result ≢ Err error.NoMemory }
    {
        if self.silent {
            return Err(repeated(n));
        }
        self.silent = true;
        Ok(())
    }

    fn add_bus(&mut self, n: u32, bus: BusPlan) -> Result<(), PlanError>
        requires sound { IsDraft self.old }
        requires fits { IsBus bus }
        ensures value { IsStep (with_line self.old (Said.Bus bus)) n self.new result }
        ensures sound { IsDraft self.new }
        ensures no_memory { result ≢ Err error.NoMemory }
    {
        if self.buses.len() >= MAX_BUSES {
            return Err(PlanError::Refused {
                n,
                why: PlanWhy::Range,
            });
        }
        if has_bus(self.buses.as_slice(), &bus.name) {
            return Err(repeated(n));
        }
        self.buses.push(bus);
        Ok(())
    }

    fn add_sub(&mut self, n: u32, sub: Sub) -> Result<(), PlanError>
        requires sound { IsDraft self.old }
        requires fits { IsSub sub }
        ensures value { IsStep (with_line self.old (Said.Sub sub)) n self.new result }
        ensures sound { IsDraft self.new }
    {
        if self.subs.len() >= MAX_SUBS {
            return Err(PlanError::Refused {
                n,
                why: PlanWhy::Range,
            });
        }
        if has_subject(self.subs.as_slice(), sub.port) {
            return Err(repeated(n));
        }
        match self.subs.push(sub) {
            Ok(()) => Ok(()),
            Err(_) => Err(PlanError::NoMemory),
        }
    }

    fn add_register(&mut self, n: u32, register: Register) -> Result<(), PlanError>
        requires sound { IsDraft self.old }
        requires fits { IsRegister register }
        ensures value { IsStep (with_line self.old (Said.Register register)) n self.new result }
        ensures sound { IsDraft self.new }
    {
        if self.registers.len() >= MAX_REGISTERS {
            return Err(out_of_range(n));
        }
        if has_register(self.registers.as_slice(), &register.name) {
            return Err(repeated(n));
        }
        match self.registers.push(register) {
            Ok(()) => Ok(()),
            Err(_) => Err(PlanError::NoMemory),
        }
    }

    /// Keeps the register of this name within limits, where a line before said it.
    fn set_limits(
        &mut self,
        alloc: Global,
        n: u32,
        name: &Text,
        limits: Limits,
    ) -> Result<(), PlanError>
        requires sound { IsDraft self.old }
        ensures value { IsStep (with_limits self.old name.now limits) n self.new result }
        ensures sound { IsDraft self.new }
        ensures no_memory { result ≢ Err error.NoMemory }
    {
        match place_of(self.registers.as_slice(), name.as_str().as_bytes()) {
            Some(place) => self.set_limits_at(alloc, n, place, limits),
            None => Err(out_of_range(n)),
        }
    }

    /// Keeps the register at a place within limits, where it has none.
    fn set_limits_at(
        &mut self,
        alloc: Global,
        n: u32,
        place: usize,
        limits: Limits,
    ) -> Result<(), PlanError>
        requires sound { IsDraft self.old }
        requires held { place < length self.old.registers }
        ensures value { IsStep (limits_at self.old limits (Some place)) n self.new result }
        ensures sound { IsDraft self.new }
        ensures no_memory { result ≢ Err error.NoMemory }
    {
        let register = &self.registers.as_slice()[place];
        if !can_limit(limits, &register.value) {
            return Err(out_of_range(n));
        }
        if register.limits.is_some() {
            return Err(repeated(n));
        }
        limit_at(alloc, &mut self.registers, place, limits);
        Ok(())
    }

    fn set_serve(&mut self, n: u32, path: Text) -> Result<(), PlanError>
        requires sound { IsDraft self.old }
        requires fits { IsFolderPath path }
        ensures value { IsStep (with_line self.old (Said.Serve path)) n self.new result }
        ensures sound { IsDraft self.new }
        ensures no_memory { result ≢ Err error.NoMemory }
    {
        if self.serve.is_some() {
            return Err(repeated(n));
        }
        self.serve = Some(path);
        Ok(())
    }

    /// Why a subscription is refused whose type can't be subscribed to for this cause.
    fn why_no_type(&self, port: u16, cause: PlanWhy) -> PlanWhy
        ensures { Err result ≡ without_type self.now port cause }
    {
        if self.subs.len() >= MAX_SUBS {
            PlanWhy::Range
        } else if has_subject(self.subs.as_slice(), port) {
            PlanWhy::Repeated
        } else {
            cause
        }
    }

    /// Takes what line `n` says, behind the line of the version.
    fn take_behind(&mut self, alloc: Global, n: u32, said: Said) -> Result<(), PlanError>
        requires sound { IsDraft self.old }
        requires fits { IsSaid said }
        ensures value { IsStep (with_line self.old said) n self.new result }
        ensures sound { IsDraft self.new }
        ensures memory { result ≡ Err error.NoMemory → grows_a_list said ≡ true }
    {
        match said {
            Said::Node(node) => self.set_node(n, node),
            Said::Bus(bus) => self.add_bus(n, bus),
            Said::Mtu(mtu) => self.set_mtu(n, mtu),
            Said::Rate(rate) => self.set_rate(n, rate),
            Said::Timeout(timeout) => self.set_timeout(n, timeout),
            Said::Silent => self.set_silent(n),
            Said::Sub(sub) => self.add_sub(n, sub),
            Said::Clients(clients) => self.set_clients(n, clients),
            Said::Status(status) => self.set_status(n, status),
            Said::Info(info) => self.set_info(n, info),
            Said::Queue(queue) => self.set_queue(n, queue),
            Said::Register(register) => self.add_register(n, register),
            Said::Limits { name, limits } => self.set_limits(alloc, n, &name, limits),
            Said::Serve(path) => self.set_serve(n, path),
            Said::UnknownType { port } => Err(PlanError::Refused {
                n,
                why: self.why_no_type(port, PlanWhy::UnknownType),
            }),
            Said::LongType { port } => Err(PlanError::Refused {
                n,
                why: self.why_no_type(port, PlanWhy::Range),
            }),
            _ => Err(PlanError::Refused {
                n,
                why: PlanWhy::Range,
            }),
        }
    }

    /// Takes what line `n` says.
    pub fn take(&mut self, alloc: Global, n: u32, said: Said) -> Result<(), PlanError>
        requires sound { IsDraft self.old }
        requires fits { IsSaid said }
        ensures value { IsStep (step self.old said) n self.new result }
        ensures sound { IsDraft self.new }
        ensures memory { result ≡ Err error.NoMemory → grows_a_list said ≡ true }
    {
        match said {
            Said::NoForm => Err(PlanError::Refused {
                n,
                why: PlanWhy::Line,
            }),
            Said::Nothing => Ok(()),
            Said::Version(version) => self.set_version(n, version),
            _ => {
                if self.version.is_none() {
                    return Err(PlanError::Refused {
                        n,
                        why: PlanWhy::Line,
                    });
                }
                self.take_behind(alloc, n, said)
            }
        }
    }

    /// The plan of this node, with what counts where nothing is said.
    fn plan_with(self, alloc: Global, node: u8) -> Plan
        ensures { result ≡ plan_with self node }
    {
        let Draft {
            version: _,
            node: _,
            buses,
            mtu,
            rate,
            timeout,
            silent,
            subs,
            clients,
            status,
            info,
            registers,
            serve,
            queue,
        } = self;
        Plan {
            node,
            buses: on_buses(&buses, mtu, rate),
            timeout: timeout.unwrap_or(2_000_000),
            silent,
            subs,
            clients: clients.unwrap_or(4),
            status: status.unwrap_or(NO_STATUS),
            info: info_or_blank(alloc, info),
            registers,
            serve,
            queue: queue.unwrap_or(64),
        }
    }

    /// The plan, where no line is missing that must be there.
    pub fn finish(self, alloc: Global) -> Option<Plan>
        requires { IsDraft self }
        ensures value { result ≡ complete self }
        ensures sound { IfSome result IsPlan }
    {
        let node = self.node?;
        if self.version.is_none() || self.buses.is_empty() {
            return None;
        }
        Some(self.plan_with(alloc, node))
    }
}

/// What the node is, where it was said.
fn info_or_blank(alloc: Global, info: Option<NodeInfo>) -> NodeInfo
    ensures { result ≡ unwrap_or info blank_info }
{
    match info {
        Some(info) => info,
        None => blank_info(alloc),
    }
}

/// Gives limits to the register at a place.
fn limit_at(alloc: Global, registers: &mut List<Register>, place: usize, limits: Limits)
    requires { place < length registers.old }
    ensures { (r : Held) → slice_get registers.old place ≡ Some r
        → registers.new ≡ limited registers.old place limits r }
{
    let mut items = replace(registers, List::empty(alloc)).into_vec();
    items[place].limits = Some(limits);
    *registers = List::new(items);
}

fn has_register(registers: &[Register], name: &Text) -> bool
    ensures { result ≡ has_register name.now registers.now }
{
    registers.iter().any(|r| r.name.as_str() == name.as_str())
}

/// The place of the register with this name.
fn place_of(registers: &[Register], name: &[u8]) -> Option<usize>
    ensures value { result ≡ place_of name.now registers.now }
    ensures held { IfSome result (λ place. place < length registers.now) }
{
    registers
        .iter()
        .position(|r| r.name.as_str().as_bytes() == name)
}

/// That a part of line `n` is outside its range.
fn out_of_range(n: u32) -> PlanError
    ensures { result ≡ PlanError.Refused n PlanWhy.Range }
{
    PlanError::Refused {
        n,
        why: PlanWhy::Range,
    }
}

/// That line `n` says again what may be said once.
fn repeated(n: u32) -> PlanError
    ensures { result ≡ PlanError.Refused n PlanWhy.Repeated }
{
    PlanError::Refused {
        n,
        why: PlanWhy::Repeated,
    }
}

/// The bus, where an MTU and a rate that were said count for all buses.
fn on_bus(bus: &BusPlan, mtu: Option<u8>, rate: Option<u32>) -> BusPlan
    ensures { result ≡ on_bus mtu rate bus.now }
{
    let Some(name) = BusName::new(bus.name.as_str()) else {
        unreachable!()
    };
    BusPlan {
        name,
        mtu: mtu.unwrap_or(bus.mtu),
        rate: rate.unwrap_or(bus.rate),
    }
}

/// The buses, where an MTU and a rate that were said count for all of them.
fn on_buses(
    buses: &ShortList<BusPlan, 3>,
    mtu: Option<u8>,
    rate: Option<u32>,
) -> ShortList<BusPlan, 3>
    ensures { result ≡ map (on_bus mtu rate) buses.now }
{
    let mut made = ShortList::new();
    for bus in buses.as_slice() {
        made.push(on_bus(bus, mtu, rate));
    }
    made
}

fn has_bus(buses: &[BusPlan], name: &BusName) -> bool
    ensures { result ≡ has_bus name.now buses.now }
{
    buses.iter().any(|b| b.name.as_str() == name.as_str())
}

fn has_subject(subs: &[Sub], port: u16) -> bool
    ensures { result ≡ has_subject port subs.now }
{
    subs.iter().any(|s| s.port == port)
}
