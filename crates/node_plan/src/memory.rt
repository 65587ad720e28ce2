//! The memory bound of a plan.
ghost use Rattle.std.specs.Prelude.{◌≡◌, ◌≤◌, ◌*◌, ◌^◌, All, sum_by, length};
ghost use Rattle.node_plan.specs.Bound.{bound_of, service_bound, sub_bound};
ghost use Rattle.node_plan.specs.IsPlan.{IsPlan, IsSub};
ghost use Rattle.node_plan.specs.Ports.{IsService};

use crate::plan::{Plan, Sub};
use crate::services::Service;

/// The greatest number of payload bytes that a subscription may hold at a time.
fn sub_bound(sub: &Sub) -> u64
    requires { IsSub sub.now }
    ensures value { result ≡ sub_bound sub.now }
    ensures most { result ≤ 2 ^ 23 }
{
    sub.sources as u64 * sub.shape.extent() as u64
}

/// The greatest number of payload bytes that a service's requests may hold at a time.
fn service_bound(service: &Service) -> u64
    requires { IsService service.now }
    ensures value { result ≡ service_bound service.now }
    ensures most { result ≤ 2 ^ 23 }
{
    service.sources as u64 * service.extent() as u64
}

fn subs_bound(subs: &[Sub]) -> u64
    requires fit { All IsSub subs.now }
    requires few { length subs.now ≤ 64 }
    ensures value { result ≡ sum_by sub_bound subs.now }
    ensures most { result ≤ 64 * 2 ^ 23 }
{
    let mut total = 0u64;
    for sub in subs {
        total += sub_bound(sub);
    }
    total
}

fn services_bound(services: &[Service]) -> u64
    requires fit { All IsService services.now }
    requires few { length services.now ≤ 8 }
    ensures value { result ≡ sum_by service_bound services.now }
    ensures most { result ≤ 8 * 2 ^ 23 }
{
    let mut total = 0u64;
    for service in services {
        total += service_bound(service);
    }
    total
}

/// The greatest number of payload bytes that the ports of a plan may hold at a time: the sum of
/// their sources times their extent. Takes no memory.
pub fn bound(plan: &Plan) -> u64
    requires { IsPlan plan.now }
    ensures value { result ≡ bound_of plan.now }
    ensures most { result ≤ 2 ^ 30 }
{
    let services = plan.services();
    subs_bound(plan.subs.as_slice()) + services_bound(services.as_slice())
}
