//! The input of a line.

use vt_can::{Line, LineFault};
use vt_server::Input;

/// The input of a line: its frame, or the action of its operator. `None` for any other line.
pub(crate) fn input_of<'a>(reading: Result<Line<'a>, LineFault>) -> Option<Input<'a>> {
    match reading {
        Ok(Line::Frame { time, frame }) => Some(Input::Frame { time, frame }),
        Ok(Line::Operator(action)) => Some(Input::Operator(action)),
        Ok(Line::Skipped(_) | Line::Comment) | Err(_) => None,
    }
}
