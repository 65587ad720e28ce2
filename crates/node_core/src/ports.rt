//! The table of a plan's ports.
ghost use Rattle.std.specs.Prelude.{◌≡◌, ◌<◌, ◌≤◌, ◌^◌, ◌++◌, ◌∷◌, [], ℕ, List, None, IfOk, OnOk};
ghost use Rattle.std.specs.Prelude.{length, option_map, take};
ghost use Rattle.std_types.specs.Types.{schema_of};
ghost use Rattle.node_plan.specs.IsPlan.{IsPlan, IsShape};
ghost use Rattle.node_plan.specs.Ports.{PlanPort, extent_of, ports, service_extent, type_in};
ghost use Rattle.node_core.specs.Shapes.{port_schema, port_type, shape_extent};
ghost use Rattle.node_core.specs.Tables.{IsTableOf, port_with};
ghost use Rattle.node_core.specs.Types.{schema_by};
ghost use Rattle.rx_table.specs.Ports.{port_at};
ghost use Rattle.rx_table.specs.Views.{subscriptions};

use crate::port_shape::PortShape;
use crate::raw_shape::RawShape;
use can_id::Kind;
use cy_bits::{NoMemory, TryCopy};
use node_plan::laws::ports_are_fit;
use node_plan::{Plan, Service, SubShape};
use report_lines::CompiledShape;
use rx_table::{SubscribeError, Table};
use std::alloc::Global;
use std_types::std_type;

/// The table of a plan's ports. No source has a session yet.
pub fn table_of(alloc: Global, plan: &Plan) -> Result<Table<PortShape>, NoMemory>
    requires { IsPlan plan.now }
    ensures { IfOk result (IsTableOf plan.now.timeout (ports plan.now)) }
{
    let mut table = Table::new(alloc, plan.timeout)?;
    subscribe_subs(alloc, plan, &mut table)?;
    subscribe_services(alloc, plan, &mut table)?;
    Ok(table)
}

/// Subscribes to the subjects of a plan.
fn subscribe_subs(alloc: Global, plan: &Plan, table: &mut Table<PortShape>) -> Result<(), NoMemory>
    requires plan { IsPlan plan.now }
    requires empty { IsTableOf plan.now.timeout [] table.old }
    ensures { let subs = take (length plan.now.subs) (ports plan.now) in
        OnOk result (IsTableOf plan.now.timeout subs table.new) }
{
    ports_are_fit();
    for sub in plan.subs.as_slice() {
        let shape = sub_shape(alloc, &sub.shape)?;
        subscribe(table, Kind::Message, sub.port, sub.sources, shape)?;
    }
    Ok(())
}

/// Subscribes to the requests of the services that a node answers.
fn subscribe_services(
    alloc: Global,
    plan: &Plan,
    table: &mut Table<PortShape>,
) -> Result<(), NoMemory>
    requires plan { IsPlan plan.now }
    requires subs { let subs = take (length plan.now.subs) (ports plan.now) in
        IsTableOf plan.now.timeout subs table.old }
    ensures { OnOk result (IsTableOf plan.now.timeout (ports plan.now) table.new) }
{
    ports_are_fit();
    for service in plan.services().as_slice() {
        let shape = service_shape(alloc, service)?;
        subscribe(table, Kind::Request, service.port, service.sources, shape)?;
    }
    Ok(())
}

/// Subscribes to a port that isn't subscribed yet.
fn subscribe(
    table: &mut Table<PortShape>,
    kind: Kind,
    port: u16,
    sources: u16,
    shape: PortShape,
) -> Result<(), NoMemory>
    requires some { 0 < sources }
    requires few { sources ≤ 128 }
    requires small { shape_extent shape ≤ 65536 }
    requires schema { port_schema shape ≡ schema_by (shape_extent shape) (port_type shape) }
    requires room { length table.old.ports.items < 2 ^ 16 }
    requires other { port_at kind port (subscriptions port_schema table.old) ≡ None }
    ensures { (timeout : ℕ) (ps : List PlanPort) → IsTableOf timeout ps table.old
        → OnOk result (IsTableOf timeout (ps ++ port_with kind port sources shape ∷ []) table.new) }
{
    match table.subscribe(kind, port, sources, shape) {
        Ok(()) => Ok(()),
        Err(SubscribeError::NoMemory) => Err(NoMemory),
        Err(SubscribeError::Taken) => unreachable!(),
    }
}

/// The shape of a subscription.
fn sub_shape(alloc: Global, shape: &SubShape) -> Result<PortShape, NoMemory>
    requires rules { IsShape shape.now }
    requires small { extent_of shape.now ≤ 65536 }
    ensures extent { IfOk result (λ made. shape_extent made ≡ extent_of shape.now) }
    ensures port_type { IfOk result (λ made. port_type made ≡ type_in shape.now) }
    ensures schema { IfOk result (λ made.
        port_schema made ≡ schema_by (extent_of shape.now) (type_in shape.now)) }
{
    match shape {
        SubShape::Raw(extent) => Ok(PortShape::Raw(RawShape::new(alloc, *extent)?)),
        SubShape::Named { schema, .. } => {
            let schema = schema.copy(alloc)?;
            Ok(PortShape::Compiled(CompiledShape { schema }))
        }
    }
}

/// The shape of the requests of a service: no byte is kept of those that have no type.
fn service_shape(alloc: Global, service: &Service) -> Result<PortShape, NoMemory>
    ensures extent { IfOk result (λ made. shape_extent made ≡ service_extent service.now) }
    ensures port_type { IfOk result (λ made.
        port_type made ≡ option_map schema_of service.now.request) }
    ensures schema { let request = option_map schema_of service.now.request in IfOk result (λ made.
        port_schema made ≡ schema_by (service_extent service.now) request) }
{
    match service.request {
        Some(name) => {
            let schema = std_type(alloc, name)?.schema;
            Ok(PortShape::Compiled(CompiledShape { schema }))
        }
        None => Ok(PortShape::Raw(RawShape::new(alloc, 0)?)),
    }
}
