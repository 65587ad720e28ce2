ghost use Rattle.std.specs.Prelude.{◌≤◌};

/// The number of a node on the network, at most 127.
#[derive(Clone, Copy, Drop)]
pub struct NodeId {
    /// The number.
    pub number: u8,
    ghost within: { number ≤ 127 },
}
