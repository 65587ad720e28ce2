//! The standard types of registers.
use crate::Standard;
use crate::field_values::FieldValues;
use crate::held::{
    alone, byte_array, byte_array_value, bytes, number, number_value, part, structure, truth,
};
use crate::register_value::RegisterValue;
use crate::time::SynchronizedTimestamp;
use cy_bits::{Bytes, NoMemory};
use dsdl_types::Value;
use std::alloc::Global;

/// `uavcan.register.Name.1.0` (Cyphal Specification, section 5.3.10).
#[derive(Drop)]
pub struct Name {
    /// The name, of at most 255 bytes.
    pub name: Bytes,
}

/// The request of `uavcan.register.Access.1.0`, with the port 384 (Cyphal Specification,
/// section 5.3.10): reads and writes a register.
#[derive(Drop)]
pub struct AccessRequest {
    /// The name of the register, of at most 255 bytes.
    pub name: Bytes,
    /// What is to be written; empty where the register is only read.
    pub value: RegisterValue,
}

/// The reply of `uavcan.register.Access.1.0` (Cyphal Specification, section 5.3.10).
#[derive(Drop)]
pub struct AccessReply {
    /// When the value was read.
    pub timestamp: SynchronizedTimestamp,
    /// Whether the register can be written.
    pub mutable: bool,
    /// Whether its value outlasts a restart.
    pub persistent: bool,
    /// The value after the call; empty of an unknown register.
    pub value: RegisterValue,
}

/// The request of `uavcan.register.List.1.0`, with the port 385 (Cyphal Specification,
/// section 5.3.10).
#[derive(Clone, Copy)]
pub struct ListRequest {
    /// The number of a register, counted from 0.
    pub index: u16,
}

/// The reply of `uavcan.register.List.1.0` (Cyphal Specification, section 5.3.10).
#[derive(Drop)]
pub struct ListReply {
    /// The name of the register, of at most 255 bytes; empty past the last.
    pub name: Bytes,
}

impl Standard for Name {
    ghost use Rattle.std_types.specs.Registers.{register_name_value, register_name_of, FitsName};
    ghost use Rattle.std_types.specs.RegisterLaws.{register_name_back, register_name_forth};
    ghost use Rattle.std_types.specs.Schemas.{register_name};

    ghost schema = { register_name };

    ghost fits = { FitsName };

    ghost value = { register_name_value };

    ghost made_of = { register_name_of };

    ghost back = { register_name_back };

    ghost forth = { register_name_forth };

    fn to_value(&self, alloc: Global) -> Result<Value, NoMemory> {
        byte_array_value(alloc, &self.name)
    }

    fn of_value(alloc: Global, from: &Value) -> Result<Name, NoMemory> {
        Ok(Name {
            name: bytes(alloc, part(from, 0))?,
        })
    }
}

impl Standard for AccessRequest {
    ghost use Rattle.std_types.specs.Registers.{access_request_value, access_request_of, FitsAccessRequest};
    ghost use Rattle.std_types.specs.RegisterLaws.{access_request_back, access_request_forth};
    ghost use Rattle.std_types.specs.Schemas.{access_request};

    ghost schema = { access_request };

    ghost fits = { FitsAccessRequest };

    ghost value = { access_request_value };

    ghost made_of = { access_request_of };

    ghost back = { access_request_back };

    ghost forth = { access_request_forth };

    fn to_value(&self, alloc: Global) -> Result<Value, NoMemory> {
        let name = byte_array_value(alloc, &self.name)?;
        let value = self.value.to_value(alloc)?;
        Ok(structure(vec![in alloc; name, value]?))
    }

    fn of_value(alloc: Global, from: &Value) -> Result<AccessRequest, NoMemory> {
        Ok(AccessRequest {
            name: byte_array(alloc, part(from, 0))?,
            value: RegisterValue::of_value(alloc, part(from, 1))?,
        })
    }
}

impl Standard for AccessReply {
    ghost use Rattle.std_types.specs.Registers.{access_reply_value, access_reply_of, FitsAccessReply};
    ghost use Rattle.std_types.specs.RegisterLaws.{access_reply_back, access_reply_forth};
    ghost use Rattle.std_types.specs.Schemas.{access_reply};

    ghost schema = { access_reply };

    ghost fits = { FitsAccessReply };

    ghost value = { access_reply_value };

    ghost made_of = { access_reply_of };

    ghost back = { access_reply_back };

    ghost forth = { access_reply_forth };

    fn to_value(&self, alloc: Global) -> Result<Value, NoMemory> {
        let values = FieldValues::new(alloc)
            .with(self.timestamp.to_value(alloc)?)?
            .with(Value::Bool(self.mutable))?
            .with(Value::Bool(self.persistent))?
            .with(self.value.to_value(alloc)?)?;
        Ok(values.structure())
    }

    fn of_value(alloc: Global, from: &Value) -> Result<AccessReply, NoMemory> {
        Ok(AccessReply {
            timestamp: SynchronizedTimestamp::of_value(alloc, part(from, 0))?,
            mutable: truth(part(from, 1)),
            persistent: truth(part(from, 2)),
            value: RegisterValue::of_value(alloc, part(from, 3))?,
        })
    }
}

impl Standard for ListRequest {
    ghost use Rattle.std_types.specs.Registers.{list_request_value, list_request_of, FitsListRequest};
    ghost use Rattle.std_types.specs.RegisterLaws.{list_request_back, list_request_forth};
    ghost use Rattle.std_types.specs.Schemas.{list_request};

    ghost schema = { list_request };

    ghost fits = { FitsListRequest };

    ghost value = { list_request_value };

    ghost made_of = { list_request_of };

    ghost back = { list_request_back };

    ghost forth = { list_request_forth };

    fn to_value(&self, alloc: Global) -> Result<Value, NoMemory> {
        alone(alloc, number_value(self.index))
    }

    fn of_value(_alloc: Global, from: &Value) -> Result<ListRequest, NoMemory> {
        Ok(ListRequest {
            index: number(part(from, 0)),
        })
    }
}

impl Standard for ListReply {
    ghost use Rattle.std_types.specs.Registers.{list_reply_value, list_reply_of, FitsListReply};
    ghost use Rattle.std_types.specs.RegisterLaws.{list_reply_back, list_reply_forth};
    ghost use Rattle.std_types.specs.Schemas.{list_reply};

    ghost schema = { list_reply };

    ghost fits = { FitsListReply };

    ghost value = { list_reply_value };

    ghost made_of = { list_reply_of };

    ghost back = { list_reply_back };

    ghost forth = { list_reply_forth };

    fn to_value(&self, alloc: Global) -> Result<Value, NoMemory> {
        alone(alloc, byte_array_value(alloc, &self.name)?)
    }

    fn of_value(alloc: Global, from: &Value) -> Result<ListReply, NoMemory> {
        Ok(ListReply {
            name: byte_array(alloc, part(from, 0))?,
        })
    }
}
