//! Gaps between messages that are sent each second.

use crate::labels::put_group;
use crate::message::{Direction, Message};
use crate::rhythm::{Gap, Rhythm};
use log_traffic::{Moment, Seconds};
use serde_json::Value;
use std::alloc::{AllocError, Global};
use std::collections::BTreeMap;
use std::fmt;
use std::io::{self, Write};
use vt_can::assigned::{ECU_TO_VT, GLOBAL_ADDRESS, VT_STATUS, VT_TO_ECU};
use vt_cli::{Cell, JsonLine};
use vt_frames_text::MAINTENANCE;

/// Messages that are sent each second.
#[derive(Clone, Copy, PartialEq, Eq, PartialOrd, Ord)]
pub enum Signal {
    /// The VT Status of the terminal at an address.
    Status { source: u8 },
    /// The Working Set Maintenance of an implement to a terminal.
    Maintenance { source: u8, destination: u8 },
}

impl Signal {
    /// The signal of a message. `None` for another message.
    fn of_message(message: Message<'_>) -> Option<Signal> {
        let Message {
            direction,
            source,
            destination,
            function,
            ..
        } = message;
        match (direction, function) {
            (Direction::OfTerminal, VT_STATUS) if destination == GLOBAL_ADDRESS => {
                Some(Signal::Status { source })
            }
            (Direction::ToTerminal, MAINTENANCE) if destination != GLOBAL_ADDRESS => {
                Some(Signal::Maintenance {
                    source,
                    destination,
                })
            }
            _ => None,
        }
    }
}

impl fmt::Display for Signal {
    fn fmt<W: fmt::Write>(&self, f: &mut fmt::Formatter<W>) -> fmt::Result {
        match self {
            Signal::Status { source } => write!(f, "VT Status of {source:02X}"),
            Signal::Maintenance {
                source,
                destination,
            } => write!(
                f,
                "Working Set Maintenance of {source:02X} to {destination:02X}"
            ),
        }
    }
}

/// The messages of each signal so far. The memory grows with the number of signals, of which there are fewer than 65,536.
#[derive(Drop)]
pub(crate) struct Gaps {
    alloc: Global,
    rhythms: BTreeMap<Signal, Rhythm>,
}

impl Gaps {
    /// No messages. Does not allocate.
    pub(crate) fn new(alloc: Global) -> Gaps {
        Gaps {
            alloc,
            rhythms: BTreeMap::new(alloc),
        }
    }

    /// Takes a message at a moment, which is no earlier than that of the message before.
    pub(crate) fn take(&mut self, at: Moment, message: Message<'_>) -> Result<(), AllocError> {
        let Some(signal) = Signal::of_message(message) else {
            return Ok(());
        };
        match self.rhythms.get_mut(&signal) {
            Some(rhythm) => rhythm.take(at),
            None => {
                self.rhythms.insert(signal, Rhythm::new(at))?;
            }
        }
        Ok(())
    }

    /// The gaps of each signal in a log whose last frame is at a moment, by rising signals.
    pub(crate) fn report(&self, end: Moment) -> Result<Vec<SignalGaps>, AllocError> {
        let mut gaps = Vec::new(self.alloc);
        for (signal, rhythm) in self.rhythms.iter() {
            let mut ended = *rhythm;
            ended.take(end);
            if let Some(longest) = ended.longest {
                gaps.push(SignalGaps {
                    signal: *signal,
                    count: ended.count,
                    longest,
                    reaches_end: rhythm.longest != ended.longest,
                })?;
            }
        }
        Ok(gaps)
    }
}

/// The gaps of a signal. Its `Display` writes its line.
#[derive(Clone, Copy)]
pub struct SignalGaps {
    /// The signal.
    pub signal: Signal,
    /// How many gaps it has.
    pub count: u64,
    /// The longest of them, the first if several are as long.
    pub longest: Gap,
    /// Whether the longest gap lasts to the end of the log.
    pub reaches_end: bool,
}

impl fmt::Display for SignalGaps {
    fn fmt<W: fmt::Write>(&self, f: &mut fmt::Formatter<W>) -> fmt::Result {
        let Gap { from, to } = self.longest;
        let signal = self.signal;
        let length = Seconds(self.longest.length());
        write!(f, "  {signal}: ")?;
        match self.count {
            1 => write!(f, "{length} s")?,
            count => write!(f, "{count}, the longest {length} s")?,
        }
        write!(f, " from line {} to ", from.line)?;
        if self.reaches_end {
            writeln!(f, "the end of the log")
        } else {
            writeln!(f, "line {}", to.line)
        }
    }
}

impl SignalGaps {
    /// Writes them as a line of JSON.
    pub(crate) fn put_json<W: Write>(&self, alloc: Global, out: &mut W) -> io::Result<()> {
        let (destination, function, group, source) = match self.signal {
            Signal::Status { source } => (Cell::Null, VT_STATUS, VT_TO_ECU, source),
            Signal::Maintenance {
                source,
                destination,
            } => (Cell::Hex(destination), MAINTENANCE, ECU_TO_VT, source),
        };
        let mut line = JsonLine::new(alloc);
        line.put_all(&[
            ("count", Cell::Number(self.count)),
            ("destination", destination),
            ("function", Cell::Hex(function)),
            ("kind", Cell::Text("gaps")),
            ("source", Cell::Hex(source)),
        ])?;
        put_group(&mut line, group)?;
        line.put("longest", self.longest_value(alloc)?)?;
        line.write(out)
    }

    /// The longest gap by its length and the lines around it. The line after it is null if it lasts to the end of the log.
    fn longest_value(&self, alloc: Global) -> Result<Value, AllocError> {
        let Gap { from, to } = self.longest;
        let last_line = (!self.reaches_end).then_some(to.line);
        let mut object = JsonLine::new(alloc);
        object.put_all(&[
            ("first_line", Cell::Number(from.line)),
            ("last_line", Cell::number_if(last_line)),
            ("time", Cell::Number(self.longest.length())),
        ])?;
        Ok(object.into_value())
    }
}
