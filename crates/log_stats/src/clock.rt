//! Steps of a log's clock.

use log_times::{FirstPlace, Occurrences};
use log_traffic::Seconds;
use std::alloc::Global;
use std::fmt;
use std::io::{self, Write};
use vt_cli::{Cell, put_line};
use vt_frames_text::Count;

/// The most microseconds from a frame to the next one that are no step ahead.
const MOST_AHEAD: u64 = 10_000_000;

/// Steps of a log's clock in one direction.
#[derive(Clone, Copy, Default)]
pub struct ClockSteps {
    /// How many there are, and the line of the first.
    pub found: Occurrences,
    /// The greatest of them, in microseconds.
    pub greatest: u64,
}

impl ClockSteps {
    /// Counts a step of so many microseconds at a line.
    fn note(&mut self, line: u64, step: u64) {
        self.found.note(line);
        self.greatest = self.greatest.max(step);
    }

    /// Writes them as a line of JSON, if there are any.
    fn put_json<W: Write>(&self, alloc: Global, direction: &str, out: &mut W) -> io::Result<()> {
        if self.found.count == 0 {
            return Ok(());
        }
        let members = [
            ("count", Cell::Number(self.found.count)),
            ("direction", Cell::Text(direction)),
            ("first_line", Cell::Number(self.found.first_line)),
            ("greatest", Cell::Number(self.greatest)),
            ("kind", Cell::Text("clock")),
        ];
        put_line(alloc, &members, out)
    }
}

/// The steps of a log's clock, each from the time of a frame to that of the next one. Its `Display` writes a line for each direction in
/// which there are steps.
#[derive(Clone, Copy, Default)]
pub struct Clock {
    /// The time of the last frame, in microseconds.
    last: Option<u64>,
    /// Times that are earlier than that of the frame before.
    pub back: ClockSteps,
    /// Times that are more than ten seconds later than that of the frame before.
    pub ahead: ClockSteps,
}

impl Clock {
    /// Takes the time of the frame at a line, in microseconds, as the log has it.
    pub(crate) fn take(&mut self, line: u64, time: u64) {
        let last = self.last.unwrap_or(time);
        self.last = Some(time);
        if time < last {
            self.back.note(line, last.saturating_sub(time));
        }
        let step = time.saturating_sub(last);
        if step > MOST_AHEAD {
            self.ahead.note(line, step);
        }
    }

    /// Writes a line of JSON for each direction in which there are steps.
    pub(crate) fn put_json<W: Write>(&self, alloc: Global, out: &mut W) -> io::Result<()> {
        self.back.put_json(alloc, "back", out)?;
        self.ahead.put_json(alloc, "ahead", out)
    }
}

impl fmt::Display for Clock {
    fn fmt<W: fmt::Write>(&self, f: &mut fmt::Formatter<W>) -> fmt::Result {
        write_steps(f, self.back, "back")?;
        write_steps(f, self.ahead, "ahead of more than 10 s")
    }
}

/// Writes the line of the steps in a direction, if there are any.
fn write_steps<W: fmt::Write>(
    f: &mut fmt::Formatter<W>,
    steps: ClockSteps,
    direction: &str,
) -> fmt::Result {
    let ClockSteps { found, greatest } = steps;
    if found.count == 0 {
        return Ok(());
    }
    let count = Count(found.count, "step");
    let which = if found.count == 1 {
        ""
    } else {
        "the greatest "
    };
    writeln!(
        f,
        "clock: {count} {direction}, {}, {which}{} s",
        FirstPlace(found),
        Seconds(greatest)
    )
}
