//! The inputs of the terminal.

use vt_can::{Action, Frame};

/// One input of the terminal, which is one atomic step.
#[derive(Drop)]
pub enum Input<'a> {
    /// A frame from the bus with its time, in microseconds.
    Frame { time: u64, frame: Frame },
    /// An action of the operator.
    Operator(Action<'a>),
}
