//! What a log says about the recorded terminal, before the log is replayed.

use crate::feed::TakeLine;
use crate::log::Log;
use crate::messages::Messages;
use byteorder::{ByteOrder, LittleEndian};
use log_order::Endings;
use memchr::memchr;
use std::alloc::{AllocError, Global};
use std::io;
use vt_can::assigned::{ADDRESS_CLAIMED, ECU_TO_VT, GLOBAL_ADDRESS, VT_TO_ECU};
use vt_can::{Frame, Line};
use vt_cli::Open;
use vt_frames_text::PoolRequest;
use vt_names::Name;
use vt_recorded::{Reader, is_of_interface};

/// The function of a virtual terminal in a NAME (ISO 11783-5).
const VIRTUAL_TERMINAL: u8 = 29;

/// A node that requests to load a stored pool.
#[derive(Clone, Copy, PartialEq, Eq)]
pub struct Load {
    /// The line of its first such request.
    pub line: u64,
    /// The address of the node.
    pub source: u8,
    /// The label of the pool in its first such request.
    pub label: [u8; 7],
}

/// What a log says about the recorded terminal.
#[derive(Drop)]
pub struct Recorded {
    /// The least NAME of a virtual terminal that claims the address. If no virtual terminal claims it, the least NAME of any node that
    /// does.
    pub name: Option<u64>,
    /// The nodes that request to load a stored pool, in the order of their first such lines.
    pub loads: Vec<Load>,
    /// Whether the log has a frame, or may have one.
    pub has_frames: bool,
    /// Whether a message of the terminal is in the log, to an implement or to all.
    pub has_messages: bool,
    /// How the messages in packets to it ended.
    pub(crate) endings: Endings,
}

impl Recorded {
    /// What is known before the first line of a log that is read as it comes.
    pub(crate) fn unknown(alloc: Global) -> Recorded {
        Recorded {
            name: None,
            loads: Vec::new(alloc),
            has_frames: true,
            has_messages: false,
            endings: Endings::unknown(alloc),
        }
    }

    /// What the lines of a log say about the terminal at an address. Reads only the lines that can matter. `None` if the log cannot be
    /// read: then `errors` receives the reason.
    pub(crate) fn in_log<F: Open, E: Messages>(
        alloc: Global,
        log: &Log<'_>,
        own: u8,
        files: &mut F,
        errors: &mut E,
    ) -> io::Result<Option<Recorded>> {
        let mut search = Search {
            recorded: Recorded {
                has_frames: false,
                ..Recorded::unknown(alloc)
            },
            reader: Reader::new(alloc),
            front: Front::new(alloc),
            interface: log.interface(),
            own,
        };
        let mut nothing = Vec::new(alloc);
        let is_whole = log.each_line(&mut search, files, &mut nothing, errors)?;
        Ok(is_whole.then_some(search.recorded))
    }

    /// Notes what the frame of a line says about the recorded terminal.
    fn note(&mut self, line: u64, frame: &Frame, own: u8) -> Result<(), AllocError> {
        let source = frame.id.source();
        let destination = frame.id.destination();
        let bytes = frame.bytes.as_slice();
        match frame.id.pgn() {
            ADDRESS_CLAIMED if source == own && destination == Some(GLOBAL_ADDRESS) => {
                self.note_claim(bytes);
                Ok(())
            }
            ECU_TO_VT if destination == Some(own) => self.note_message(line, source, bytes),
            VT_TO_ECU if source == own => {
                self.has_messages = true;
                Ok(())
            }
            _ => Ok(()),
        }
    }

    /// Notes the NAME of a claim of the terminal's address.
    fn note_claim(&mut self, bytes: &[u8]) {
        if bytes.len() != 8 {
            return;
        }
        let name = LittleEndian::read_u64(bytes);
        let is_better = match self.name {
            None => true,
            Some(other) if is_terminal(other) == is_terminal(name) => name < other,
            Some(_) => is_terminal(name),
        };
        if is_better {
            self.name = Some(name);
        }
    }

    /// Notes a message to the terminal that requests to load a stored pool.
    fn note_message(&mut self, line: u64, source: u8, message: &[u8]) -> Result<(), AllocError> {
        let Some(PoolRequest::Load(label)) = PoolRequest::in_message(message) else {
            return Ok(());
        };
        let Ok(label) = <[u8; 7]>::try_from(label) else {
            return Ok(());
        };
        if !self.loads.iter().any(|load| load.source == source) {
            self.loads.push(Load {
                line,
                source,
                label,
            })?;
        }
        Ok(())
    }
}

/// Whether a NAME is that of a virtual terminal.
fn is_terminal(name: u64) -> bool {
    Name::from_raw(name).function() == VIRTUAL_TERMINAL
}

/// A search for the lines of a log that say something about the recorded terminal.
#[derive(Drop)]
struct Search<'a> {
    recorded: Recorded,
    reader: Reader,
    front: Front,
    /// The only interface whose frames are read, or `None` for all.
    interface: Option<&'a str>,
    /// The address of the terminal.
    own: u8,
}

impl<F, W, E> TakeLine<F, W, E> for Search<'_> {
    fn take_line(
        &mut self,
        number: u64,
        line: &[u8],
        _files: &mut F,
        _out: &mut W,
        _errors: &mut E,
    ) -> io::Result<()> {
        if !self.is_told_by(line)? || !is_of_interface(line, self.interface) {
            return Ok(());
        }
        if let Ok(Line::Frame { frame, .. }) = self.reader.read(line)? {
            self.recorded.has_frames = true;
            self.recorded.note(number, &frame, self.own)?;
            self.recorded.endings.note(number, &frame, self.own)?;
        }
        Ok(())
    }
}

impl Search<'_> {
    /// Whether a line has to be read: claims, requests to load a stored pool, messages of a terminal while none of the recorded terminal
    /// is noted, what begins and ends a message in packets, and each line of another form than `candump -L` writes.
    fn is_told_by(&mut self, line: &[u8]) -> Result<bool, AllocError> {
        if !self.recorded.has_frames {
            return Ok(true);
        }
        let Some((id, data)) = self.front.frame_in(line)? else {
            return Ok(true);
        };
        Ok(match id {
            [_, _, b'E' | b'e', b'E' | b'e', ..] => true,
            [_, _, b'E' | b'e', b'6', ..] => !self.recorded.has_messages,
            [_, _, b'E' | b'e', b'7', ..] => matches!(data, [b'D' | b'd', b'1', ..]),
            [_, _, b'E' | b'e', b'C' | b'c', ..] => is_begin_or_end(data, b'0', b'3'),
            [_, _, b'C' | b'c', b'8', ..] => is_begin_or_end(data, b'4', b'7'),
            _ => false,
        })
    }
}

/// Whether the hex digits of a frame are those of a request, of an end message or of an abort of a transport protocol. The control bytes
/// of the first two are 16 and the digit.
fn is_begin_or_end(data: &[u8], request: u8, end: u8) -> bool {
    match data {
        [b'1', digit, ..] => *digit == request || *digit == end,
        [b'F' | b'f', b'F' | b'f', ..] => true,
        _ => false,
    }
}

/// The place of the interface in a line as `candump -L` writes it, `(TIME) INTERFACE ID#DATA` with single spaces. The next line mostly has its
/// interface at the same place.
#[derive(Drop)]
struct Front {
    /// The index of the interface's text in the line.
    index: usize,
    /// The interface between two spaces; empty before the first line.
    interface: Vec<u8>,
}

impl Front {
    /// Before the first line. Does not allocate.
    fn new(alloc: Global) -> Front {
        Front {
            index: 0,
            interface: Vec::new(alloc),
        }
    }

    /// The eight digits of the ID in a line, and the text behind `#`. `None` for a line of another form.
    fn frame_in<'a>(&mut self, line: &'a [u8]) -> Result<Option<(&'a [u8], &'a [u8])>, AllocError> {
        let [b'(', ..] = line else {
            return Ok(None);
        };
        if !self.is_in(line) {
            let Some((index, interface)) = interface_in(line) else {
                return Ok(None);
            };
            self.index = index;
            self.interface.clear();
            self.interface.extend_from_slice(interface)?;
        }
        let end = self.index.saturating_add(self.interface.len());
        Ok(frame_behind(line, end))
    }

    /// Whether a line has this interface at this index.
    fn is_in(&self, line: &[u8]) -> bool {
        let has_it = |rest: &[u8]| rest.starts_with(&self.interface);
        !self.interface.is_empty() && line.get(self.index..).is_some_and(has_it)
    }
}

/// The interface of a line from its first space to its second, and the index of the first.
fn interface_in(line: &[u8]) -> Option<(usize, &[u8])> {
    let index = memchr(b' ', line)?;
    let (_, rest) = line.split_at_checked(index)?;
    let length = memchr(b' ', rest.get(1..)?)?.checked_add(2)?;
    // An interface has a name: two spaces alone pad one.
    if length == 2 {
        return None;
    }
    Some((index, rest.get(..length)?))
}

/// The eight digits of the ID at an index of a line, and the text behind `#`.
fn frame_behind(line: &[u8], index: usize) -> Option<(&[u8], &[u8])> {
    match line.get(index..)?.split_at_checked(8)? {
        (id, [b'#', data @ ..]) => Some((id, data)),
        _ => None,
    }
}
