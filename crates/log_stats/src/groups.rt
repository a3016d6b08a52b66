//! Frames by parameter group, and messages by function.

use log_times::{Direction, FunctionLabel, Message, put_group};
use std::alloc::{AllocError, Global};
use std::collections::BTreeMap;
use std::fmt;
use std::io::{self, Write};
use vt_cli::{Cell, JsonLine};
use vt_frames_text::{Count, ParameterGroup, function_name};

/// How many frames each parameter group has, and how many messages each function. Its `Display` writes a line for each of them. The memory
/// grows with the number of parameter groups.
#[derive(Drop)]
pub struct Groups {
    /// The number of frames of each parameter group, by rising numbers.
    pub frames: BTreeMap<u32, u64>,
    /// The number of messages to terminals with each function.
    to_terminals: [u64; 256],
    /// The number of messages of terminals with each function.
    of_terminals: [u64; 256],
}

impl Groups {
    /// No frames. Does not allocate.
    pub(crate) fn new(alloc: Global) -> Groups {
        Groups {
            frames: BTreeMap::new(alloc),
            to_terminals: [0; 256],
            of_terminals: [0; 256],
        }
    }

    /// Counts a frame of a parameter group, and the message that is whole with it.
    pub(crate) fn take(
        &mut self,
        pgn: u32,
        message: Option<Message<'_>>,
    ) -> Result<(), AllocError> {
        let frames = self.frames.entry(pgn)?.or_insert(0);
        *frames = frames.saturating_add(1);
        if let Some(message) = message {
            let place = usize::from(message.function);
            let counts = match message.direction {
                Direction::ToTerminal => &mut self.to_terminals,
                Direction::OfTerminal => &mut self.of_terminals,
            };
            counts[place] = counts[place].saturating_add(1);
        }
        Ok(())
    }

    /// Writes a line of JSON for each parameter group and each function.
    pub(crate) fn put_json<W: Write>(&self, alloc: Global, out: &mut W) -> io::Result<()> {
        for (pgn, frames) in self.frames.iter() {
            let mut line = JsonLine::new(alloc);
            line.put_all(&[
                ("frames", Cell::Number(*frames)),
                ("kind", Cell::Text("group")),
                ("name", Cell::text_if(ParameterGroup(*pgn).name())),
            ])?;
            put_group(&mut line, *pgn)?;
            line.write(out)?;
        }
        for direction in [Direction::ToTerminal, Direction::OfTerminal] {
            for (function, count) in (0..=u8::MAX).zip(self.messages(direction).iter()) {
                if *count > 0 {
                    put_function(alloc, direction, function, *count, out)?;
                }
            }
        }
        Ok(())
    }

    /// The number of messages in a direction with each function.
    fn messages(&self, direction: Direction) -> &[u64; 256] {
        match direction {
            Direction::ToTerminal => &self.to_terminals,
            Direction::OfTerminal => &self.of_terminals,
        }
    }

    /// Writes the messages in a direction, with a line before them if there are any.
    fn write_messages<W: fmt::Write>(
        &self,
        direction: Direction,
        f: &mut fmt::Formatter<W>,
    ) -> fmt::Result {
        let counts = self.messages(direction);
        if counts.iter().all(|count| *count == 0) {
            return Ok(());
        }
        f.write_str(match direction {
            Direction::ToTerminal => "messages to terminals:\n",
            Direction::OfTerminal => "messages of terminals:\n",
        })?;
        for (function, count) in (0..=u8::MAX).zip(counts.iter()) {
            if *count > 0 {
                let messages = Count(*count, "message");
                writeln!(f, "  {}: {messages}", FunctionLabel(function))?;
            }
        }
        Ok(())
    }
}

impl fmt::Display for Groups {
    fn fmt<W: fmt::Write>(&self, f: &mut fmt::Formatter<W>) -> fmt::Result {
        if !self.frames.is_empty() {
            f.write_str("parameter groups:\n")?;
        }
        for (pgn, count) in self.frames.iter() {
            let frames = Count(*count, "frame");
            writeln!(f, "  {}: {frames}", GroupLabel(*pgn))?;
        }
        self.write_messages(Direction::ToTerminal, f)?;
        self.write_messages(Direction::OfTerminal, f)
    }
}

/// A parameter group by its number in hex, and its name if it is known, such as `E700 ECU to VT`.
#[derive(Clone, Copy)]
struct GroupLabel(u32);

impl fmt::Display for GroupLabel {
    fn fmt<W: fmt::Write>(&self, f: &mut fmt::Formatter<W>) -> fmt::Result {
        let pgn = self.0;
        match ParameterGroup(pgn).name() {
            Some(name) => write!(f, "{pgn:04X} {name}"),
            None => write!(f, "{pgn:04X}"),
        }
    }
}

/// Writes the messages in a direction with a function as a line of JSON.
fn put_function<W: Write>(
    alloc: Global,
    direction: Direction,
    function: u8,
    count: u64,
    out: &mut W,
) -> io::Result<()> {
    let mut line = JsonLine::new(alloc);
    line.put_all(&[
        ("function", Cell::Hex(function)),
        ("kind", Cell::Text("function")),
        ("messages", Cell::Number(count)),
        ("name", Cell::text_if(function_name(function))),
    ])?;
    put_group(&mut line, direction.group())?;
    line.write(out)
}
