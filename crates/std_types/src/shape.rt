ghost use Rattle.std.specs.Prelude.{◌≡◌, ◌*◌, true, IfOk};
ghost use Rattle.dsdl_types.specs.OneWay.{schema_prop};
ghost use Rattle.dsdl_types.specs.Rules.{IsSchema};
ghost use Rattle.dsdl_types.specs.Schemas.{is_composite};
ghost use Rattle.dsdl_types.specs.Views.{sch};
ghost use Rattle.std_types.specs.Types.{schema_of};

use crate::StdName;
use crate::schemas::{arrays, file, node, register};
use cy_bits::NoMemory;
use dsdl_types::{Schema, Shape};
use std::alloc::Global;

/// A standard type (Cyphal Specification, chapter 5), as its payloads are received.
#[derive(Drop)]
pub struct StdType {
    /// Its name.
    pub name: StdName,
    /// Its schema.
    pub schema: Schema,
    pub ghost rules: { IsSchema (sch schema) } by { schema_prop (sch schema) },
    pub ghost composite: { is_composite (sch schema) ≡ true },
}

impl Shape for StdType {
    ghost shape = { λ standard. sch standard.schema };

    fn extent_bytes(&self) -> usize {
        self.schema.extent_bytes()
    }

    fn schema(&self) -> &Schema {
        &self.schema
    }
}

/// The standard type of a name.
#[tactic(auto, using(crate::proofs::SchemaRules::schema_rules, crate::proofs::SchemaRules::schema_composite))]
pub fn std_type(alloc: Global, name: StdName) -> Result<StdType, NoMemory>
    ensures name { IfOk result (λ t. t.name ≡ name) }
    ensures schema { IfOk result (λ t. sch t.schema ≡ schema_of name) }
{
    let schema = schema_of(alloc, name)?;
    Ok(StdType { name, schema })
}

/// The schema of a name.
#[tactic(auto, unfolding(crate::specs::Types::schema_of))]
fn schema_of(alloc: Global, name: StdName) -> Result<Schema, NoMemory>
    ensures { IfOk result (λ s. sch s ≡ schema_of name) }
{
    match name {
        StdName::Health => node::health(alloc),
        StdName::Mode => node::mode(alloc),
        StdName::Version => node::version(alloc),
        StdName::Heartbeat => node::heartbeat(alloc),
        StdName::NodeInfoRequest => node::node_info_request(alloc),
        StdName::NodeInfo => node::node_info(alloc),
        StdName::NodeId => node::node_id(alloc),
        StdName::NodeIdAllocation => node::node_id_allocation(alloc),
        StdName::SynchronizedTimestamp => node::synchronized_timestamp(alloc),
        StdName::Synchronization => node::synchronization(alloc),
        StdName::Empty => arrays::empty(alloc),
        StdName::PrimitiveString => arrays::string(alloc),
        StdName::Unstructured => arrays::unstructured(alloc),
        StdName::Bit => arrays::bit(alloc),
        StdName::Integer64 => arrays::integer64(alloc),
        StdName::Integer32 => arrays::integer32(alloc),
        StdName::Integer16 => arrays::integer16(alloc),
        StdName::Integer8 => arrays::integer8(alloc),
        StdName::Natural64 => arrays::natural64(alloc),
        StdName::Natural32 => arrays::natural32(alloc),
        StdName::Natural16 => arrays::natural16(alloc),
        StdName::Natural8 => arrays::natural8(alloc),
        StdName::Real64 => arrays::real64(alloc),
        StdName::Real32 => arrays::real32(alloc),
        StdName::Real16 => arrays::real16(alloc),
        StdName::Name => register::register_name(alloc),
        StdName::RegisterValue => register::register_value(alloc),
        StdName::AccessRequest => register::access_request(alloc),
        StdName::AccessReply => register::access_reply(alloc),
        StdName::ListRequest => register::list_request(alloc),
        StdName::ListReply => register::list_reply(alloc),
        StdName::Path => file::path(alloc),
        StdName::FileError => file::file_error(alloc),
        StdName::InfoRequest => file::info_request(alloc),
        StdName::InfoReply => file::info_reply(alloc),
        StdName::FileListRequest => file::file_list_request(alloc),
        StdName::FileListReply => file::file_list_reply(alloc),
        StdName::ReadRequest => file::read_request(alloc),
        StdName::ReadReply => file::read_reply(alloc),
    }
}
