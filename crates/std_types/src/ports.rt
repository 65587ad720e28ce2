//! The fixed service-IDs and subject-IDs of the standard types.
ghost use Rattle.std.specs.Prelude.{◌≡◌};
ghost use Rattle.std_types.specs.Ports.{get_info_service, heartbeat_subject};
ghost use Rattle.std_types.specs.Ports.{register_access_service, register_list_service};
ghost use Rattle.std_types.specs.Ports.{file_get_info_service, file_list_service};
ghost use Rattle.std_types.specs.Ports.{file_modify_service, file_read_service, file_write_service};
ghost use Rattle.std_types.specs.Ports.{synchronization_subject, allocation_subject};

/// The service-ID of `uavcan.node.GetInfo` (Cyphal Specification, section 5.3.3).
pub const GET_INFO: u16 = 430;

/// The service-ID of `uavcan.register.Access` (Cyphal Specification, section 5.3.10).
pub const REGISTER_ACCESS: u16 = 384;

/// The service-ID of `uavcan.register.List` (Cyphal Specification, section 5.3.10).
pub const REGISTER_LIST: u16 = 385;

/// The service-ID of `uavcan.file.GetInfo` (Cyphal Specification, section 5.3.7).
pub const FILE_GET_INFO: u16 = 405;

/// The service-ID of `uavcan.file.List` (Cyphal Specification, section 5.3.7).
pub const FILE_LIST: u16 = 406;

/// The service-ID of `uavcan.file.Modify` (Cyphal Specification, section 5.3.7).
pub const FILE_MODIFY: u16 = 407;

/// The service-ID of `uavcan.file.Read` (Cyphal Specification, section 5.3.7).
pub const FILE_READ: u16 = 408;

/// The service-ID of `uavcan.file.Write` (Cyphal Specification, section 5.3.7).
pub const FILE_WRITE: u16 = 409;

/// The subject-ID of `uavcan.node.Heartbeat` (Cyphal Specification, section 5.3.2).
pub const HEARTBEAT: u16 = 7509;

/// The subject-ID of `uavcan.time.Synchronization` (Cyphal Specification, section 5.3.5).
pub const SYNCHRONIZATION: u16 = 7168;

/// The subject-ID of `uavcan.pnp.NodeIDAllocationData.1.0` (Cyphal Specification, section 5.3.12).
pub const ALLOCATION: u16 = 8166;

/// These are the numbers of the definitions.
pub fn ports_are_standard()
    ensures get_info { GET_INFO ≡ get_info_service }
    ensures register_access { REGISTER_ACCESS ≡ register_access_service }
    ensures register_list { REGISTER_LIST ≡ register_list_service }
    ensures file_get_info { FILE_GET_INFO ≡ file_get_info_service }
    ensures file_list { FILE_LIST ≡ file_list_service }
    ensures file_modify { FILE_MODIFY ≡ file_modify_service }
    ensures file_read { FILE_READ ≡ file_read_service }
    ensures file_write { FILE_WRITE ≡ file_write_service }
    ensures heartbeat { HEARTBEAT ≡ heartbeat_subject }
    ensures synchronization { SYNCHRONIZATION ≡ synchronization_subject }
    ensures allocation { ALLOCATION ≡ allocation_subject }
{}
