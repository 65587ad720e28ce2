/// The name of a standard type, or of a half of a standard service (Cyphal Specification,
/// chapter 5).
#[derive(Clone, Copy)]
pub enum StdName {
    /// `uavcan.node.Health.1.0`.
    Health,
    /// `uavcan.node.Mode.1.0`.
    Mode,
    /// `uavcan.node.Version.1.0`.
    Version,
    /// `uavcan.node.Heartbeat.1.0`.
    Heartbeat,
    /// `uavcan.node.GetInfo.1.0`, its request.
    NodeInfoRequest,
    /// `uavcan.node.GetInfo.1.0`, its reply.
    NodeInfo,
    /// `uavcan.node.ID.1.0`.
    NodeId,
    /// `uavcan.pnp.NodeIDAllocationData.1.0`.
    NodeIdAllocation,
    /// `uavcan.time.SynchronizedTimestamp.1.0`.
    SynchronizedTimestamp,
    /// `uavcan.time.Synchronization.1.0`.
    Synchronization,
    /// `uavcan.primitive.Empty.1.0`.
    Empty,
    /// `uavcan.primitive.String.1.0`.
    PrimitiveString,
    /// `uavcan.primitive.Unstructured.1.0`.
    Unstructured,
    /// `uavcan.primitive.array.Bit.1.0`.
    Bit,
    /// `uavcan.primitive.array.Integer64.1.0`.
    Integer64,
    /// `uavcan.primitive.array.Integer32.1.0`.
    Integer32,
    /// `uavcan.primitive.array.Integer16.1.0`.
    Integer16,
    /// `uavcan.primitive.array.Integer8.1.0`.
    Integer8,
    /// `uavcan.primitive.array.Natural64.1.0`.
    Natural64,
    /// `uavcan.primitive.array.Natural32.1.0`.
    Natural32,
    /// `uavcan.primitive.array.Natural16.1.0`.
    Natural16,
    /// `uavcan.primitive.array.Natural8.1.0`.
    Natural8,
    /// `uavcan.primitive.array.Real64.1.0`.
    Real64,
    /// `uavcan.primitive.array.Real32.1.0`.
    Real32,
    /// `uavcan.primitive.array.Real16.1.0`.
    Real16,
    /// `uavcan.register.Name.1.0`.
    Name,
    /// `uavcan.register.Value.1.0`.
    RegisterValue,
    /// `uavcan.register.Access.1.0`, its request.
    AccessRequest,
    /// `uavcan.register.Access.1.0`, its reply.
    AccessReply,
    /// `uavcan.register.List.1.0`, its request.
    ListRequest,
    /// `uavcan.register.List.1.0`, its reply.
    ListReply,
    /// `uavcan.file.Path.2.0`.
    Path,
    /// `uavcan.file.Error.1.0`.
    FileError,
    /// `uavcan.file.GetInfo`, its request.
    InfoRequest,
    /// `uavcan.file.GetInfo`, its reply.
    InfoReply,
    /// `uavcan.file.List`, its request.
    FileListRequest,
    /// `uavcan.file.List`, its reply.
    FileListReply,
    /// `uavcan.file.Read`, its request.
    ReadRequest,
    /// `uavcan.file.Read`, its reply.
    ReadReply,
}
