//! The lines of a report, with what their payloads say; where lines go.
#![tactic(auto)]

mod compiled_shape;
pub mod line;
pub mod line_ref;
pub mod line_sink;
pub mod numbers;

pub use compiled_shape::CompiledShape;
pub use line::{FullLine, Line, Reading, Refused, Rx, Tx};
pub use line_ref::{LineRef, RxRef, TxRef};
pub use line_sink::{KeptLines, LineSink, NoLines};
pub use numbers::Numbers;
