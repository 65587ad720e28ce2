//! What a plan has.
ghost use Rattle.std.specs.Prelude.{◌≡◌};
ghost use Rattle.node_plan.specs.Bound.{extent_of};
ghost use Rattle.node_plan.specs.IsPlan.{IsShape};

use cy_bits::{BusName, List, NoMemory, ShortList, Text};
use dsdl_names::TypeId;
use dsdl_types::Schema;
use std_types::node::NodeInfo;
use std_types::registers::Register;

/// How a node is set up, what it listens to, and what it says of itself. It has the types of its
/// subscriptions, so that it needs no namespace any more.
#[derive(Drop)]
pub struct Plan {
    /// The node's ID, below 128.
    pub node: u8,
    /// The node's buses, 1 to 3 with distinct names.
    pub buses: ShortList<BusPlan, 3>,
    /// The transfer-ID timeout, in microseconds: 1 to 60,000,000.
    pub timeout: u64,
    /// Whether the node neither publishes a heartbeat nor answers what it is.
    pub silent: bool,
    /// The subjects that the node subscribes to, at most 64 and all distinct.
    pub subs: List<Sub>,
    /// From how many nodes at a time a request of each service is received: 1 to 128.
    pub clients: u16,
    /// How the node is, by its heartbeat.
    pub status: NodeStatus,
    /// What the node is (Cyphal Specification, section 5.3.3). The protocol is 1.0, and there is
    /// neither a CRC of the software nor a certificate.
    pub info: NodeInfo,
    /// The registers of the node, at most 256 with distinct names of 1 to 255 printable bytes
    /// without a space (Cyphal Specification, section 5.3.10). Each value is within its limits.
    pub registers: List<Register>,
    /// The path in the tree of the folder whose files the node serves, if any: a word of UTF-8 that
    /// isn't empty (Cyphal Specification, section 5.3.7). The folder needn't exist.
    pub serve: Option<Text>,
    /// The greatest number of frames that wait to be sent on a bus: 1 to 4,096.
    pub queue: u32,
}

/// How a node is, by its heartbeat (Cyphal Specification, section 5.3.2).
#[derive(Clone, Copy)]
pub struct NodeStatus {
    /// 0 nominal, 1 advisory, 2 caution, 3 warning.
    pub health: u8,
    /// 0 operational, 1 initialization, 2 maintenance, 3 software update.
    pub mode: u8,
    /// A number of the vendor's.
    pub code: u8,
}

/// A bus of a node.
#[derive(Default, Drop)]
pub struct BusPlan {
    /// The name of the bus in the log: 1 to 15 letters, digits and `_`.
    pub name: BusName,
    /// The largest number of data bytes of a frame that is sent on the bus: 8, or 64 for CAN FD.
    pub mtu: u8,
    /// The largest number of frames that leave the bus's queue after a step: 1 to 4,096.
    pub rate: u32,
}

/// A subscription to a subject.
#[derive(Drop)]
pub struct Sub {
    /// The subject's ID, below 8,192.
    pub port: u16,
    /// From how many nodes at a time the subject is received: 1 to 128.
    pub sources: u16,
    /// What the payload is read as.
    pub shape: SubShape,
}

/// What the payload of a subject is read as.
#[derive(Drop)]
pub enum SubShape {
    /// Bytes, of which this many at most are kept: the extent, up to 65,536.
    Raw(u32),
    /// A message type of the namespace; its extent is at most 65,536 bytes.
    Named {
        /// The type's full name and version.
        id: TypeId,
        /// Its schema, a composite that keeps the rules.
        schema: Schema,
    },
}

impl SubShape {
    /// The extent in bytes, to which a longer payload is cut. Takes no memory.
    pub fn extent(&self) -> u32
        requires { IsShape self.now }
        ensures { result ≡ extent_of self.now }
    {
        match self {
            SubShape::Raw(extent) => *extent,
            SubShape::Named { schema, .. } => schema.extent_bytes() as u32,
        }
    }
}

/// Why a line of a plan is refused.
#[derive(Clone, Copy, Debug, PartialEq, Eq)]
pub enum PlanWhy {
    /// It is no line of a plan, or a line that must stand here is missing.
    Line,
    /// It names a type that is no message of the namespace.
    UnknownType,
    /// It says again what may be said once.
    Repeated,
    /// A part of it is outside its range, or there is no more room for what it adds.
    Range,
}

/// Why there is no plan.
#[derive(Clone, Copy, Debug, PartialEq, Eq)]
pub enum PlanError {
    /// Line `n`, counted from 1, is refused.
    Refused { n: u32, why: PlanWhy },
    /// Memory was wanted and not given.
    NoMemory,
}

impl From<NoMemory> for PlanError {
    ghost use Rattle.std.specs.Prelude.{◌≡◌};
    ghost use Rattle.node_plan.specs.declared.plan.PlanError.TheVariants as error;

    ghost from_gives = { λ _ e. e ≡ error.NoMemory };

    fn from(_: NoMemory) -> PlanError {
        PlanError::NoMemory
    }
}
