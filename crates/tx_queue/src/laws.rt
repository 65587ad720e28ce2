//! Laws of the definitions, the contract of a call that does nothing.

ghost use Rattle.tx_queue.specs.Waiting.{LeastIsFirst};

/// The frame that leaves has the least identifier: those before it have greater ones, those behind it no less ones,
/// and the others stay in their order.
pub fn is_least()
    ensures { LeastIsFirst }
{}
