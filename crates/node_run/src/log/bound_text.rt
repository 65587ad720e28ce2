//! The memory bound of a plan, port by port.
ghost use Rattle.std.specs.Prelude.{◌≡◌, ◌≢◌, ◌++◌, OnOk, IfOk};
ghost use Rattle.cy_outside.specs.Outside.{Rose};
ghost use Rattle.std.specs.Prelude.{map};
ghost use Rattle.std.specs.List.{flat_map};
ghost use Rattle.node_plan.specs.IsPlan.{IsPlan};
ghost use Rattle.node_plan.specs.Ports.{port_of_sub, port_of_service, services};
ghost use Rattle.node_run.specs.BoundText.{port_line, port_numbers, bound_line, bound_text, HasBound};

use crate::log::labelled::push_labelled;
use crate::status::Status;
use cy_bits::NoMemory;
use cy_outside::{Sink, put_all};
use node_plan::{Plan, bound as bound_of};
use std::alloc::Global;

/// Writes how many bytes each port of a plan may hold at most, a line a port in the order of the
/// plan, and then how many all may. Where memory is wanting, nothing is written.
pub fn bound<O: Sink>(alloc: Global, plan: &Plan, out: &mut O) -> Status
    requires { IsPlan plan.now }
    ensures written { HasBound plan.now result (O.written out.old) (O.written out.new) }
    ensures write { result ≡ Status.WriteFault → Rose (O.faults out.old) (O.faults out.new) }
    ensures unwritten { result ≢ Status.WriteFault → O.faults out.new ≡ O.faults out.old }
{
    let Ok(text) = text_of(alloc, plan) else {
        return Status::NoMemory;
    };
    let Ok(()) = put_all(out, text.as_slice()) else {
        return Status::WriteFault;
    };
    Status::Ok
}

/// The lines of the ports, and that of the memory bound.
fn text_of(alloc: Global, plan: &Plan) -> Result<Vec<u8>, NoMemory>
    requires { IsPlan plan.now }
    ensures { IfOk result (λ text. text.items ≡ bound_text plan.now) }
{
    let mut text = Vec::new(alloc);
    push_subs(&mut text, plan)?;
    push_services(&mut text, plan)?;
    push_bound(&mut text, bound_of(plan))?;
    Ok(text)
}

/// Appends the lines of the subscriptions.
fn push_subs(text: &mut Vec<u8>, plan: &Plan) -> Result<(), NoMemory>
    requires { IsPlan plan.now }
    ensures { let subs = map port_of_sub plan.now.subs in
        OnOk result (text.new.items ≡ text.old.items ++ flat_map port_line subs) }
{
    for sub in plan.subs.as_slice() {
        push_port(
            text,
            b"port msg ",
            sub.port,
            sub.sources,
            sub.shape.extent(),
        )?;
    }
    Ok(())
}

/// Appends the lines of the services.
fn push_services(text: &mut Vec<u8>, plan: &Plan) -> Result<(), NoMemory>
    requires { IsPlan plan.now }
    ensures { let services = map port_of_service (services plan.now) in
        OnOk result (text.new.items ≡ text.old.items ++ flat_map port_line services) }
{
    for service in plan.services().as_slice() {
        push_port(
            text,
            b"port req ",
            service.port,
            service.sources,
            service.extent(),
        )?;
    }
    Ok(())
}

/// Appends the line of a port behind a label with its kind.
fn push_port(
    text: &mut Vec<u8>,
    label: &[u8],
    port: u16,
    sources: u16,
    extent: u32,
) -> Result<(), NoMemory>
    ensures { let said = label.now ++ port_numbers port sources extent in
        OnOk result (text.new.items ≡ text.old.items ++ said) }
{
    let bytes = sources as u64 * extent as u64;
    push_labelled(text, label, port as u64)?;
    push_labelled(text, b" sources ", sources as u64)?;
    push_labelled(text, b" extent ", extent as u64)?;
    push_labelled(text, b" bytes ", bytes)?;
    text.push(b'\n')?;
    Ok(())
}

/// Appends the line of the memory bound.
fn push_bound(text: &mut Vec<u8>, bound: u64) -> Result<(), NoMemory>
    ensures { OnOk result (text.new.items ≡ text.old.items ++ bound_line bound) }
{
    push_labelled(text, b"bound ", bound)?;
    text.push(b'\n')?;
    Ok(())
}
