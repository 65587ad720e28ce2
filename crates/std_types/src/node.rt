//! The standard types of a node.
use crate::Standard;
use crate::field_values::FieldValues;
use crate::held::{
    alone, bytes, bytes_value, number, number_value, numbers, numbers_value, part, structure,
    unique_id,
};
use crate::register_value::copy_items;
use cy_bits::{Bytes, List, NoMemory, TryCopy};
use dsdl_types::Value;
use std::alloc::Global;

/// `uavcan.node.Health.1.0` (Cyphal Specification, section 5.3.2): 0 nominal, 1 advisory, 2
/// caution, 3 warning.
#[derive(Clone, Copy)]
pub struct Health {
    /// The health, 0 to 3.
    pub value: u8,
}

/// `uavcan.node.Mode.1.0` (Cyphal Specification, section 5.3.2): 0 operational, 1 initialization, 2
/// maintenance, 3 software update.
#[derive(Clone, Copy)]
pub struct Mode {
    /// The mode, 0 to 3.
    pub value: u8,
}

/// `uavcan.node.Version.1.0`, of a protocol, a hardware or a software (Cyphal Specification,
/// section 5.3.3).
#[derive(Clone, Copy)]
pub struct Version {
    /// The major number.
    pub major: u8,
    /// The minor number.
    pub minor: u8,
}

/// `uavcan.node.Heartbeat.1.0`, with the port 7509 (Cyphal Specification, section 5.3.2): that a
/// node is online, and how it is.
#[derive(Clone, Copy)]
pub struct Heartbeat {
    /// How long the node has run, in seconds.
    pub uptime: u32,
    /// Its health.
    pub health: Health,
    /// Its mode.
    pub mode: Mode,
    /// A number of the vendor's.
    pub vendor_specific_status_code: u8,
}

/// The request of `uavcan.node.GetInfo.1.0`, with the port 430 (Cyphal Specification,
/// section 5.3.3).
#[derive(Clone, Copy)]
pub struct NodeInfoRequest {}

/// The reply of `uavcan.node.GetInfo.1.0` (Cyphal Specification, section 5.3.3): what a node is.
#[derive(Drop)]
pub struct NodeInfo {
    /// The version of the protocol.
    pub protocol_version: Version,
    /// The version of the hardware.
    pub hardware_version: Version,
    /// The version of the software.
    pub software_version: Version,
    /// The revision of the software's source.
    pub software_vcs_revision_id: u64,
    /// The bytes that tell this node from all others.
    pub unique_id: [u8; 16],
    /// The name of the node, of at most 50 bytes.
    pub name: Bytes,
    /// The CRC of the software, where there is one: at most 1.
    pub software_image_crc: List<u64>,
    /// A certificate, of at most 222 bytes.
    pub certificate_of_authenticity: Bytes,
}

impl TryCopy for NodeInfo {
    fn copy(&self, alloc: Global) -> Result<NodeInfo, NoMemory> {
        Ok(NodeInfo {
            protocol_version: self.protocol_version,
            hardware_version: self.hardware_version,
            software_version: self.software_version,
            software_vcs_revision_id: self.software_vcs_revision_id,
            unique_id: self.unique_id,
            name: self.name.copy(alloc)?,
            software_image_crc: copy_items(alloc, &self.software_image_crc)?,
            certificate_of_authenticity: self.certificate_of_authenticity.copy(alloc)?,
        })
    }
}

impl Standard for Health {
    ghost use Rattle.std_types.specs.Node.{health_value, health_of, FitsHealth};
    ghost use Rattle.std_types.specs.NodeLaws.{health_back, health_forth};
    ghost use Rattle.std_types.specs.Schemas.{health};

    ghost schema = { health };

    ghost fits = { FitsHealth };

    ghost value = { health_value };

    ghost made_of = { health_of };

    ghost back = { health_back };

    ghost forth = { health_forth };

    fn to_value(&self, alloc: Global) -> Result<Value, NoMemory> {
        alone(alloc, number_value(self.value))
    }

    fn of_value(_alloc: Global, from: &Value) -> Result<Health, NoMemory> {
        Ok(Health {
            value: number(part(from, 0)),
        })
    }
}

impl Standard for Mode {
    ghost use Rattle.std_types.specs.Node.{mode_value, mode_of, FitsMode};
    ghost use Rattle.std_types.specs.NodeLaws.{mode_back, mode_forth};
    ghost use Rattle.std_types.specs.Schemas.{mode};

    ghost schema = { mode };

    ghost fits = { FitsMode };

    ghost value = { mode_value };

    ghost made_of = { mode_of };

    ghost back = { mode_back };

    ghost forth = { mode_forth };

    fn to_value(&self, alloc: Global) -> Result<Value, NoMemory> {
        alone(alloc, number_value(self.value))
    }

    fn of_value(_alloc: Global, from: &Value) -> Result<Mode, NoMemory> {
        Ok(Mode {
            value: number(part(from, 0)),
        })
    }
}

impl Standard for Version {
    ghost use Rattle.std_types.specs.Node.{version_value, version_of, FitsVersion};
    ghost use Rattle.std_types.specs.NodeLaws.{version_back, version_forth};
    ghost use Rattle.std_types.specs.Schemas.{version};

    ghost schema = { version };

    ghost fits = { FitsVersion };

    ghost value = { version_value };

    ghost made_of = { version_of };

    ghost back = { version_back };

    ghost forth = { version_forth };

    fn to_value(&self, alloc: Global) -> Result<Value, NoMemory> {
        Ok(structure(vec![in alloc; number_value(self.major), number_value(self.minor)]?))
    }

    fn of_value(_alloc: Global, from: &Value) -> Result<Version, NoMemory> {
        Ok(Version {
            major: number(part(from, 0)),
            minor: number(part(from, 1)),
        })
    }
}

impl Standard for Heartbeat {
    ghost use Rattle.std_types.specs.Node.{heartbeat_value, heartbeat_of, FitsHeartbeat};
    ghost use Rattle.std_types.specs.NodeLaws.{heartbeat_back, heartbeat_forth};
    ghost use Rattle.std_types.specs.Schemas.{heartbeat};

    ghost schema = { heartbeat };

    ghost fits = { FitsHeartbeat };

    ghost value = { heartbeat_value };

    ghost made_of = { heartbeat_of };

    ghost back = { heartbeat_back };

    ghost forth = { heartbeat_forth };

    fn to_value(&self, alloc: Global) -> Result<Value, NoMemory> {
        let values = FieldValues::new(alloc)
            .with(number_value(self.uptime))?
            .with(self.health.to_value(alloc)?)?
            .with(self.mode.to_value(alloc)?)?
            .with(number_value(self.vendor_specific_status_code))?;
        Ok(values.structure())
    }

    fn of_value(alloc: Global, from: &Value) -> Result<Heartbeat, NoMemory> {
        Ok(Heartbeat {
            uptime: number(part(from, 0)),
            health: Health::of_value(alloc, part(from, 1))?,
            mode: Mode::of_value(alloc, part(from, 2))?,
            vendor_specific_status_code: number(part(from, 3)),
        })
    }
}

impl Standard for NodeInfoRequest {
    ghost use Rattle.std_types.specs.Node.{node_info_request_value, node_info_request_of, FitsNodeInfoRequest};
    ghost use Rattle.std_types.specs.NodeLaws.{node_info_request_back, node_info_request_forth};
    ghost use Rattle.std_types.specs.Schemas.{node_info_request};

    ghost schema = { node_info_request };

    ghost fits = { FitsNodeInfoRequest };

    ghost value = { node_info_request_value };

    ghost made_of = { node_info_request_of };

    ghost back = { node_info_request_back };

    ghost forth = { node_info_request_forth };

    fn to_value(&self, alloc: Global) -> Result<Value, NoMemory> {
        Ok(structure(Vec::new(alloc)))
    }

    fn of_value(_alloc: Global, _from: &Value) -> Result<NodeInfoRequest, NoMemory> {
        Ok(NodeInfoRequest {})
    }
}

impl Standard for NodeInfo {
    ghost use Rattle.std_types.specs.Node.{node_info_value, node_info_of, FitsNodeInfo};
    ghost use Rattle.std_types.specs.NodeLaws.{node_info_back, node_info_forth};
    ghost use Rattle.std_types.specs.Schemas.{node_info};

    ghost schema = { node_info };

    ghost fits = { FitsNodeInfo };

    ghost value = { node_info_value };

    ghost made_of = { node_info_of };

    ghost back = { node_info_back };

    ghost forth = { node_info_forth };

    fn to_value(&self, alloc: Global) -> Result<Value, NoMemory> {
        let values = FieldValues::new(alloc)
            .with(self.protocol_version.to_value(alloc)?)?
            .with(self.hardware_version.to_value(alloc)?)?
            .with(self.software_version.to_value(alloc)?)?
            .with(number_value(self.software_vcs_revision_id))?
            .with(numbers_value(alloc, &self.unique_id)?)?
            .with(bytes_value(alloc, &self.name)?)?
            .with(numbers_value(alloc, self.software_image_crc.as_slice())?)?
            .with(bytes_value(alloc, &self.certificate_of_authenticity)?)?;
        Ok(values.structure())
    }

    fn of_value(alloc: Global, from: &Value) -> Result<NodeInfo, NoMemory> {
        Ok(NodeInfo {
            protocol_version: Version::of_value(alloc, part(from, 0))?,
            hardware_version: Version::of_value(alloc, part(from, 1))?,
            software_version: Version::of_value(alloc, part(from, 2))?,
            software_vcs_revision_id: number(part(from, 3)),
            unique_id: unique_id(alloc, part(from, 4))?,
            name: bytes(alloc, part(from, 5))?,
            software_image_crc: numbers(alloc, part(from, 6))?,
            certificate_of_authenticity: bytes(alloc, part(from, 7))?,
        })
    }
}
