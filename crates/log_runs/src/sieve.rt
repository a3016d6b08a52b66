//! Decides which lines of a log are printed, by the options of a subcommand.

use crate::messages::LineMessage;
use check_text::Names;
use log_listen::{Broken, Listener};
use log_options::LineFilter;
use log_replay::Turn;
use std::alloc::{AllocError, Global};
use std::io::Write;
use vt_can::{Action, Frame, Line, LineFault};
use vt_cli::Program;
use vt_objects::ObjectId;
use vt_server::Output;

/// Decides for each line of a log whether it is printed.
///
/// A line is printed if it is in the range of the filter and one of its messages fits the rest of it. The messages of a line are its frame,
/// the message in packets that the frame completes, and the frames that the terminal sends at it.
#[derive(Drop)]
pub(crate) struct Sieve<'a> {
    filter: &'a LineFilter<'a>,
    names: &'a Names,
    /// The latest time so far, in microseconds.
    now: u64,
    /// Whether the last line is in the range.
    is_in_range: bool,
    /// Whether some line was in the range before the last one.
    has_begun: bool,
    /// Whether the last line is the first one in the range.
    is_first: bool,
    /// Whether the last line fits by what the log itself says in it.
    fits: bool,
    /// Whether the last line is an input of the terminal.
    is_input: bool,
    /// The messages in packets whose last packets are still to come.
    listener: Listener,
    /// The transfers that the last line has ended before they were whole.
    broken: Vec<Broken>,
}

impl<'a> Sieve<'a> {
    /// A sieve before the first line. Allocates nothing.
    pub(crate) fn new(alloc: Global, filter: &'a LineFilter<'a>, names: &'a Names) -> Sieve<'a> {
        Sieve {
            filter,
            names,
            now: 0,
            is_in_range: false,
            has_begun: false,
            is_first: false,
            fits: false,
            is_input: false,
            listener: Listener::new(alloc),
            broken: Vec::new(alloc),
        }
    }

    /// Whether each name in the options is the name of an object. Writes to `errors` the first that is not.
    pub(crate) fn has_known_names<F: Program, E: Write>(&self, files: &F, errors: &mut E) -> bool {
        for object in self.filter.objects.iter() {
            if let Some(unknown) = object.unknown_name(self.names) {
                let _ = writeln!(errors, "{}: {unknown}", files.name());
                return false;
            }
        }
        true
    }

    /// Receives a line, as it was read, with the turn of its frame, before the terminal does.
    pub(crate) fn take_line(
        &mut self,
        number: u64,
        turn: Turn,
        reading: &Result<Line<'_>, LineFault>,
    ) -> Result<(), AllocError> {
        if let Ok(Line::Frame { time, .. }) = reading {
            self.now = self.now.max(*time);
        }
        self.is_in_range = self.filter.range.has(number, self.now);
        self.is_first = self.is_in_range && !self.has_begun;
        self.has_begun |= self.is_in_range;
        self.is_input = matches!(reading, Ok(Line::Frame { .. } | Line::Operator(_)));
        self.fits = match reading {
            _ if self.takes_all() => true,
            // A packet that is left out or held makes no message whole.
            Ok(Line::Frame { frame, .. }) if matches!(turn, Turn::Never | Turn::Later) => {
                self.fits_message(LineMessage::of_frame(frame))
            }
            Ok(Line::Frame { frame, .. }) => self.hear(frame)?,
            Ok(Line::Operator(action)) => self.fits_action(*action),
            Ok(Line::Skipped(_) | Line::Comment) | Err(_) => false,
        };
        Ok(())
    }

    /// The latest time so far, in microseconds.
    pub(crate) fn now(&self) -> u64 {
        self.now
    }

    /// Whether the last line is the first one of the range.
    pub(crate) fn is_first(&self) -> bool {
        self.is_first
    }

    /// Whether the last line is in the range.
    pub(crate) fn is_in_range(&self) -> bool {
        self.is_in_range
    }

    /// Whether the range begins with the log.
    pub(crate) fn begins_with_log(&self) -> bool {
        self.filter.range.from.is_none()
    }

    /// Whether the last line is printed. `outputs` are those of the terminal at it.
    pub(crate) fn shows(&self, outputs: &[Output]) -> bool {
        self.is_in_range && (self.fits || (self.is_input && self.fits_output(outputs)))
    }

    /// Whether every line of the range is printed.
    fn takes_all(&self) -> bool {
        let LineFilter {
            addresses,
            functions,
            objects,
            ..
        } = self.filter;
        addresses.is_empty() && functions.is_empty() && objects.is_empty()
    }

    /// Whether a frame fits, or the message in packets that it completes.
    fn hear(&mut self, frame: &Frame) -> Result<bool, AllocError> {
        self.broken.clear();
        let whole = self.listener.hear(frame, &mut self.broken)?;
        if self.fits_message(LineMessage::of_frame(frame)) {
            return Ok(true);
        }
        let Some(whole) = whole else {
            return Ok(false);
        };
        Ok(self.fits_message(LineMessage {
            group: whole.pgn,
            source: whole.source,
            destination: whole.destination,
            bytes: &whole.bytes,
        }))
    }

    /// Whether one of the frames that the terminal sends fits.
    fn fits_output(&self, outputs: &[Output]) -> bool {
        outputs.iter().any(|output| match output {
            Output::Frame(frame) => self.fits_message(LineMessage::of_frame(frame)),
            Output::Refused(_) => false,
        })
    }

    /// Whether a message fits each part of the filter.
    fn fits_message(&self, message: LineMessage<'_>) -> bool {
        self.fits_address(message) && self.fits_function(message) && self.fits_objects(message)
    }

    /// Whether a message is from or to one of the addresses.
    fn fits_address(&self, message: LineMessage<'_>) -> bool {
        let addresses = &self.filter.addresses;
        let is_end = |address: &u8| *address == message.source || *address == message.destination;
        addresses.is_empty() || addresses.iter().any(is_end)
    }

    /// Whether a message has one of the functions.
    fn fits_function(&self, message: LineMessage<'_>) -> bool {
        let functions = &self.filter.functions;
        let of_message = message.function();
        functions.is_empty()
            || functions
                .iter()
                .any(|function| Some(*function) == of_message)
    }

    /// Whether a message names one of the objects.
    fn fits_objects(&self, message: LineMessage<'_>) -> bool {
        if self.filter.objects.is_empty() {
            return true;
        }
        let (first, second) = message.objects();
        self.fits_object(first) || self.fits_object(second)
    }

    /// Whether an action of the operator fits: it names an object, and has neither an address nor a function.
    fn fits_action(&self, action: Action<'_>) -> bool {
        let LineFilter {
            addresses,
            functions,
            ..
        } = self.filter;
        addresses.is_empty() && functions.is_empty() && self.fits_object(object_of(action))
    }

    /// Whether an object is one of those of the filter.
    fn fits_object(&self, object: Option<ObjectId>) -> bool {
        let Some(id) = object else {
            return false;
        };
        self.filter
            .objects
            .iter()
            .any(|object| object.is(id, self.names))
    }
}

/// The object of an action of the operator.
fn object_of(action: Action<'_>) -> Option<ObjectId> {
    match action {
        Action::Press(id)
        | Action::Release(id)
        | Action::Select(id)
        | Action::Number(id, _)
        | Action::Text(id, _) => Some(ObjectId::from_raw(id)),
        Action::Set(_) => None,
    }
}
