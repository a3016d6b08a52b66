//! Why this terminal differs from the recorded one, where that is known.

use crate::unanswered::Unanswered;
use log_answers::{Difference, Said};
use std::alloc::{AllocError, Global};
use std::collections::BTreeMap;
use std::fmt;
use vt_can::assigned::{
    ECU_TO_VT, END_OF_POOL, GET_FONTS, GET_HARDWARE, GET_MEMORY, GET_SOFT_KEYS, GLOBAL_ADDRESS,
    NULL_ADDRESS, VT_STATUS,
};
use vt_can::{Frame, Line, LineFault};
use vt_commands::CommandRow;
use vt_commands::function::{BUTTON_ACTIVATION, NUMERIC_VALUE, SOFT_KEY_ACTIVATION, STRING_VALUE};
use vt_frames_text::{
    DELETE_VERSION, GET_VERSIONS, GET_VERSIONS_RESPONSE, HexByte, LOAD_VERSION, STORE_VERSION,
};
use vt_server::{Terminal, UploadEnd};

/// Why this terminal sends another message than the recorded one, or none.
#[derive(Clone, Copy, PartialEq, Eq)]
pub(crate) enum Cause {
    /// It sent the same message before, longer ago than an answer may take.
    Late,
    /// It has lost its address.
    AddressLost,
    /// It stores no pools.
    StoresNone,
    /// It never sends a message of this function.
    NeverSent,
    /// It has no working set at an address.
    NoSet(u8),
    /// It has no pool of the working set at an address, and no upload from there has ended.
    NoPool(u8),
    /// It has refused the last upload of a working set.
    Refused(RefusedUpload),
    /// No line of the log before has an action of the operator.
    NoAction,
}

impl fmt::Display for Cause {
    fn fmt<W: fmt::Write>(&self, f: &mut fmt::Formatter<W>) -> fmt::Result {
        match self {
            Cause::Late => f.write_str("this terminal sent it before, longer ago than --wait"),
            Cause::AddressLost => f.write_str("this terminal has lost its address"),
            Cause::StoresNone => f.write_str("this terminal stores no pools"),
            Cause::NeverSent => f.write_str("this terminal never sends this function"),
            Cause::NoSet(address) => {
                write!(f, "this terminal has no working set {}", HexByte(*address))
            }
            Cause::NoPool(address) => {
                write!(f, "this terminal has no pool of {}", HexByte(*address))
            }
            Cause::Refused(upload) => write!(f, "{upload}"),
            Cause::NoAction => f.write_str("no line before it has an action of the operator"),
        }
    }
}

/// The last upload of a working set, which this terminal has refused.
#[derive(Clone, Copy, PartialEq, Eq)]
pub(crate) struct RefusedUpload {
    /// The address of the working set.
    address: u8,
    /// The line of its end.
    line: u64,
    /// What is wrong with it.
    end: UploadEnd,
}

impl fmt::Display for RefusedUpload {
    fn fmt<W: fmt::Write>(&self, f: &mut fmt::Formatter<W>) -> fmt::Result {
        let address = HexByte(self.address);
        let line = self.line;
        write!(
            f,
            "this terminal refused the pool of {address} at line {line}"
        )?;
        match self.end {
            UploadEnd::Accepted => Ok(()),
            UploadEnd::Faulty(fault) => write!(f, ": {fault}"),
            UploadEnd::Refused(broken) => {
                write!(f, ": rule {}", broken.rule)?;
                if !broken.object.is_null() {
                    write!(f, ", object {}", broken.object.raw())?;
                }
                if !broken.other.is_null() {
                    write!(f, ", which names {}", broken.other.raw())?;
                }
                Ok(())
            }
        }
    }
}

/// What is known of the causes of differences, so far in a log.
#[derive(Drop)]
pub(crate) struct Causes {
    /// The last upload of each working set, if it was refused.
    refused: BTreeMap<u8, RefusedUpload>,
    /// The messages of this terminal that were not answered in time.
    unanswered: Unanswered,
    /// Whether a line had an action of the operator.
    has_actions: bool,
}

impl Causes {
    /// Nothing. Allocates nothing.
    pub(crate) fn new(alloc: Global) -> Causes {
        Causes {
            refused: BTreeMap::new(alloc),
            unanswered: Unanswered::new(alloc),
            has_actions: false,
        }
    }

    /// Notes what a line tells before the terminal receives it. Returns the address of the working set whose upload the line ends, if it
    /// ends one.
    pub(crate) fn note_line(
        &mut self,
        reading: &Result<Line<'_>, LineFault>,
        own: u8,
    ) -> Option<u8> {
        match reading {
            Ok(Line::Operator(_)) => {
                self.has_actions = true;
                None
            }
            Ok(Line::Frame { frame, .. }) => ends_upload(frame, own).then_some(frame.id.source()),
            Ok(Line::Skipped(_) | Line::Comment) | Err(_) => None,
        }
    }

    /// Notes how the terminal has ended the upload of the working set at an address, at a line. After an error nothing is noted.
    pub(crate) fn note_end(
        &mut self,
        address: u8,
        line: u64,
        terminal: &Terminal,
    ) -> Result<(), AllocError> {
        if terminal.is_lost() || !terminal.registered(address) {
            return Ok(());
        }
        match terminal.upload_end() {
            None => {}
            Some(UploadEnd::Accepted) => {
                let _ = self.refused.remove(&address);
            }
            Some(end) => {
                let upload = RefusedUpload { address, line, end };
                self.refused.insert(address, upload)?;
            }
        }
        Ok(())
    }

    /// The cause of a difference, if it is known. The differences have to come in the order in which they are certain. After an error a
    /// late answer may be taken for another one.
    pub(crate) fn cause_of(
        &mut self,
        difference: &Difference,
        terminal: &Terminal,
    ) -> Result<Option<Cause>, AllocError> {
        match difference {
            Difference::Differ { ours, .. } => Ok(self.cause_of_end(ours)),
            Difference::OursAlone(ours) => {
                self.unanswered.add(ours)?;
                Ok(None)
            }
            Difference::TheirsAlone(theirs) if self.unanswered.takes_late(theirs) => {
                Ok(Some(Cause::Late))
            }
            Difference::TheirsAlone(theirs) => Ok(self.cause_of_silence(theirs, terminal)),
        }
    }

    /// Why this terminal has answered the end of an upload so.
    fn cause_of_end(&self, ours: &Said) -> Option<Cause> {
        let upload = self.refused.get(&ours.topic.destination)?;
        if ours.topic.function == END_OF_POOL && ours.line == upload.line {
            Some(Cause::Refused(*upload))
        } else {
            None
        }
    }

    /// Why this terminal has not sent a message that the recorded one sent.
    fn cause_of_silence(&self, theirs: &Said, terminal: &Terminal) -> Option<Cause> {
        let function = theirs.topic.function;
        if terminal.is_lost() {
            return Some(Cause::AddressLost);
        }
        if is_about_stored_pools(function) {
            return Some(Cause::StoresNone);
        }
        if !is_sent(function) {
            return Some(Cause::NeverSent);
        }
        if let Some(address) = set_of(theirs) {
            if !terminal.registered(address) {
                return Some(Cause::NoSet(address));
            }
            if needs_pool(function) && terminal.set(address).is_none() {
                return Some(match self.refused.get(&address) {
                    Some(upload) => Cause::Refused(*upload),
                    None => Cause::NoPool(address),
                });
            }
        }
        if reports_action(function) && !self.has_actions {
            return Some(Cause::NoAction);
        }
        None
    }
}

/// Whether a frame ends an upload to the terminal at an address.
fn ends_upload(frame: &Frame, own: u8) -> bool {
    frame.id.pgn() == ECU_TO_VT
        && frame.id.destination() == Some(own)
        && frame.bytes.first() == Some(&END_OF_POOL)
}

/// The working set to which a message goes, or which a status names. `None` if there is none.
fn set_of(said: &Said) -> Option<u8> {
    let address = if said.topic.function == VT_STATUS {
        *said.bytes.get(1)?
    } else {
        said.topic.destination
    };
    if address == GLOBAL_ADDRESS || address == NULL_ADDRESS {
        None
    } else {
        Some(address)
    }
}

/// Whether a function is about the pools that a terminal stores.
fn is_about_stored_pools(function: u8) -> bool {
    matches!(
        function,
        GET_VERSIONS | GET_VERSIONS_RESPONSE | STORE_VERSION | LOAD_VERSION | DELETE_VERSION
    )
}

/// Whether this terminal sends messages of a function.
fn is_sent(function: u8) -> bool {
    let is_reply = CommandRow::of(function).is_some();
    is_reply || !needs_pool(function) || reports_action(function) || function == VT_STATUS
}

/// Whether only a set with a pool gets a message of a function.
fn needs_pool(function: u8) -> bool {
    !matches!(
        function,
        END_OF_POOL | GET_MEMORY | GET_SOFT_KEYS | GET_FONTS | GET_HARDWARE
    )
}

/// Whether a function reports an action of the operator.
fn reports_action(function: u8) -> bool {
    matches!(
        function,
        SOFT_KEY_ACTIVATION | BUTTON_ACTIVATION | NUMERIC_VALUE | STRING_VALUE
    )
}
