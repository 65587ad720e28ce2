//! The services that a node answers.
ghost use Rattle.std.specs.Prelude.{◌≡◌, ◌++◌, ◌≤◌, All, length};
ghost use Rattle.node_plan.specs.IsPlan.{IsPlan};
ghost use Rattle.node_plan.specs.Ports.{IsRequest, IsService, file_services, register_services, request_extent, service, service_extent, services, status_services};

use crate::plan::Plan;
use cy_bits::ShortList;
use std_types::{StdName, ports};

/// A service that a node answers.
#[derive(Clone, Copy)]
pub struct Service {
    /// The service-ID, below 512.
    pub port: u16,
    /// From how many nodes at a time a request is received: 1 to 128.
    pub sources: u16,
    /// The standard type of its requests; no byte is kept of those that have none.
    pub request: Option<StdName>,
}

impl Default for Service {
    /// `uavcan.node.GetInfo` for one client.
    fn default() -> Service {
        Service {
            port: ports::GET_INFO,
            sources: 1,
            request: Some(StdName::NodeInfoRequest),
        }
    }
}

impl Service {
    /// The extent of its requests in bytes, to which a longer payload is cut. Takes no memory.
    pub fn extent(&self) -> u32
        requires { IsService self.now }
        ensures { result ≡ service_extent self.now }
    {
        request_extent(self.request)
    }
}

/// The extent of the requests of a service in bytes, by their type, if any.
#[tactic(auto, using(crate::proofs::PortLemmas::info_extent, crate::proofs::PortLemmas::access_extent, crate::proofs::PortLemmas::list_extent, crate::proofs::PortLemmas::file_info_extent, crate::proofs::PortLemmas::file_list_extent, crate::proofs::PortLemmas::file_read_extent))]
fn request_extent(request: Option<StdName>) -> u32
    requires { IsRequest request }
    ensures { result ≡ request_extent request }
{
    match request {
        Some(StdName::AccessRequest) => 515,
        Some(StdName::ListRequest) => 2,
        Some(StdName::InfoRequest | StdName::FileListRequest | StdName::ReadRequest) => 300,
        _ => 0,
    }
}

impl Plan {
    /// A service of this number, for the clients of the plan.
    fn service(&self, port: u16, request: Option<StdName>) -> Service
        ensures { result ≡ service self.now port request }
    {
        Service {
            port,
            sources: self.clients,
            request,
        }
    }

    /// `uavcan.node.GetInfo`, unless the node is silent.
    fn push_status(&self, services: &mut ShortList<Service, 8>)
        requires { length services.old ≡ 0 }
        ensures { services.new ≡ services.old ++ status_services self.now }
    {
        if !self.silent {
            services.push(self.service(ports::GET_INFO, Some(StdName::NodeInfoRequest)));
        }
    }

    /// The services of registers, where the node has any.
    fn push_registers(&self, services: &mut ShortList<Service, 8>)
        requires { length services.old ≤ 1 }
        ensures { services.new ≡ services.old ++ register_services self.now }
    {
        if !self.registers.is_empty() {
            services.push(self.service(ports::REGISTER_ACCESS, Some(StdName::AccessRequest)));
            services.push(self.service(ports::REGISTER_LIST, Some(StdName::ListRequest)));
        }
    }

    /// The services of files, where the node serves a folder.
    fn push_files(&self, services: &mut ShortList<Service, 8>)
        requires { length services.old ≤ 3 }
        ensures { services.new ≡ services.old ++ file_services self.now }
    {
        if self.serve.is_some() {
            services.push(self.service(ports::FILE_GET_INFO, Some(StdName::InfoRequest)));
            services.push(self.service(ports::FILE_LIST, Some(StdName::FileListRequest)));
            services.push(self.service(ports::FILE_MODIFY, None));
            services.push(self.service(ports::FILE_READ, Some(StdName::ReadRequest)));
            services.push(self.service(ports::FILE_WRITE, None));
        }
    }

    /// The services that the node answers. Takes no memory.
    pub fn services(&self) -> ShortList<Service, 8>
        ensures value { result ≡ services self.now }
        ensures fit { IsPlan self.now → All IsService result }
    {
        let mut services = ShortList::new();
        self.push_status(&mut services);
        self.push_registers(&mut services);
        self.push_files(&mut services);
        services
    }
}
