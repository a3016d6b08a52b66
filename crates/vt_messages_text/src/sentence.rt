//! What a frame says.

use crate::objects::Objects;
use crate::replies::ReplySentence;
use crate::requests::RequestSentence;
use check_text::Names;
use std::fmt;
use vt_can::Frame;
use vt_can::assigned::{
    ADDRESS_CLAIMED, ECU_TO_VT, ETP_CM, ETP_DT, REQUEST, TP_CM, TP_DT, VT_TO_ECU,
    WORKING_SET_MASTER, WORKING_SET_MEMBER,
};
use vt_frames_text::{
    ACKNOWLEDGEMENT, AcknowledgementSentence, ClaimSentence, Destination, EtpControl, GroupRequest,
    HexByte, HexBytes, LANGUAGE, LanguageSentence, MasterSentence, MemberSentence, Packet,
    ParameterGroup, TpControl,
};
use vt_server::Terminal;

/// What a frame says. `Display` writes it on one line, such as ``Hide/Show Object: Container 100 `boom`, hide``: each object by its
/// kind, its ID and its name, texts of the bus with a dot for each byte that is no printable ASCII. A name that has a newline in it
/// is written with the newline. The objects are those of the terminal's working set at the source of a message to a terminal, and
/// at the destination of a message from one.
#[derive(Clone, Copy, Drop)]
pub struct Sentence<'a> {
    /// The frame.
    pub frame: &'a Frame,
    /// The terminal, which has the objects.
    pub terminal: &'a Terminal,
    /// The names of objects.
    pub names: &'a Names,
}

impl fmt::Display for Sentence<'_> {
    fn fmt<W: fmt::Write>(&self, f: &mut fmt::Formatter<W>) -> fmt::Result {
        let id = self.frame.id;
        let bytes = self.frame.bytes.as_slice();
        match id.pgn() {
            TP_CM => write!(f, "{}", TpControl(bytes)),
            ETP_CM => write!(f, "{}", EtpControl(bytes)),
            TP_DT => {
                let protocol = "TP";
                write!(f, "{}", Packet { protocol, bytes })
            }
            ETP_DT => {
                let protocol = "ETP";
                write!(f, "{}", Packet { protocol, bytes })
            }
            group => {
                let message = MessageSentence {
                    group,
                    source: id.source(),
                    destination: id.destination(),
                    bytes,
                    terminal: self.terminal,
                    names: self.names,
                };
                write!(f, "{message}")
            }
        }
    }
}

/// A sentence behind the addresses of its frame, such as `80 to 26: End of Object Pool`.
#[derive(Clone, Copy, Drop)]
pub struct AddressedSentence<'a>(pub Sentence<'a>);

impl fmt::Display for AddressedSentence<'_> {
    fn fmt<W: fmt::Write>(&self, f: &mut fmt::Formatter<W>) -> fmt::Result {
        let id = self.0.frame.id;
        let source = HexByte(id.source());
        let destination = Destination(id.destination());
        write!(f, "{source} to {destination}: {}", self.0)
    }
}

/// What a message says, whether it was sent in a frame or put together from packets.
#[derive(Clone, Copy, Drop)]
pub struct MessageSentence<'a> {
    /// The parameter group.
    pub group: u32,
    /// The address that sent it.
    pub source: u8,
    /// The address that it is sent to. `None` if it is sent to all.
    pub destination: Option<u8>,
    /// The bytes.
    pub bytes: &'a [u8],
    /// The terminal, which has the objects.
    pub terminal: &'a Terminal,
    /// The names of objects.
    pub names: &'a Names,
}

impl fmt::Display for MessageSentence<'_> {
    fn fmt<W: fmt::Write>(&self, f: &mut fmt::Formatter<W>) -> fmt::Result {
        let source = self.source;
        let bytes = self.bytes;
        match self.group {
            ECU_TO_VT => {
                let objects = self.objects_at(Some(source));
                write!(f, "{}", RequestSentence { bytes, objects })
            }
            VT_TO_ECU => {
                let objects = self.objects_at(self.destination);
                let terminal = self.terminal;
                let reply = ReplySentence {
                    bytes,
                    objects,
                    terminal,
                };
                write!(f, "{reply}")
            }
            ADDRESS_CLAIMED => write!(f, "{}", ClaimSentence { source, bytes }),
            REQUEST => write!(f, "{}", GroupRequest(bytes)),
            WORKING_SET_MASTER => write!(f, "{}", MasterSentence(bytes)),
            WORKING_SET_MEMBER => write!(f, "{}", MemberSentence(bytes)),
            LANGUAGE => write!(f, "{}", LanguageSentence(bytes)),
            ACKNOWLEDGEMENT => write!(f, "{}", AcknowledgementSentence(bytes)),
            group => write!(f, "{}: {}", ParameterGroup(group), HexBytes(bytes)),
        }
    }
}

impl<'a> MessageSentence<'a> {
    /// The objects of the working set at an address.
    fn objects_at(&self, address: Option<u8>) -> Objects<'a> {
        let terminal = self.terminal;
        let pool = match address {
            Some(address) => terminal.set(address),
            None => None,
        };
        Objects {
            pool,
            names: self.names,
        }
    }
}
