//! When the terminal that replays a log receives the frame of a line.

ghost use Rattle.std.specs.Prelude.{◌↔◌, IsTrue};
ghost use Rattle.log_order.specs.Turns.{IsOverdueAt};
ghost use Rattle.vt_can.specs.lines.Readings.{reading_of};
ghost use Rattle.vt_server.specs.States.{state_of};

use crate::input::input_of;
use std::alloc::AllocError;
use vt_can::{Line, LineFault};
use vt_server::{Output, Terminal};

/// When the terminal that replays a log receives the frame of a line.
#[derive(Clone, Copy, PartialEq, Eq)]
pub enum Turn {
    /// At its line.
    Now,
    /// Only if a session or a set is overdue at its time: it is a frame of the recorded terminal, which does not receive it either.
    Own,
    /// Not at all: it came again or out of order, in a message that is put together.
    Never,
    /// After the packets before it.
    Later,
    /// Now, after its line: the packets before it have come.
    Late,
}

impl Turn {
    ghost use Rattle.log_order.specs.Turns.{IsReceived};

    /// Whether a terminal receives a line now.
    pub fn is_for(self, reading: &Result<Line<'_>, LineFault>, terminal: &Terminal) -> bool
        ensures { IsTrue result ↔ IsReceived self (state_of terminal.now) (reading_of reading.now) }
    {
        match (self, reading) {
            (Turn::Now | Turn::Late, _) => true,
            (Turn::Own, Ok(Line::Frame { time, .. })) => is_overdue_at(terminal, *time),
            (Turn::Own | Turn::Never | Turn::Later, _) => false,
        }
    }
}

/// Whether a session becomes overdue, or a set silent, between the terminal's latest time and a later one.
fn is_overdue_at(terminal: &Terminal, time: u64) -> bool
    ensures { IsTrue result ↔ IsOverdueAt (state_of terminal.now) time }
{
    match terminal.next_deadline() {
        Some(deadline) => 0 < deadline && deadline <= time,
        None => false,
    }
}

/// Gives the input of a line to a terminal if it is its turn, and appends the outputs. Returns whether the terminal had an input. After
/// `OutOfMemory` it had none.
pub fn take(
    turn: Turn,
    reading: Result<Line<'_>, LineFault>,
    terminal: &mut Terminal,
    outputs: &mut Vec<Output>,
) -> Result<bool, AllocError> {
    if !turn.is_for(&reading, terminal) {
        return Ok(false);
    }
    let Some(input) = input_of(reading) else {
        return Ok(false);
    };
    terminal.step(&input, outputs)?;
    Ok(true)
}
