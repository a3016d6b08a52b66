//! Address claims, requests, working sets and parameter groups in words.

use crate::groups::{ACKNOWLEDGEMENT, LANGUAGE};
use crate::shown::{Count, HexBytes};
use byteorder::{ByteOrder, LittleEndian};
use std::fmt;
use vt_can::assigned::{
    ADDRESS_CLAIMED, ECU_TO_VT, ETP_CM, ETP_DT, NULL_ADDRESS, REQUEST, TP_CM, TP_DT, VT_TO_ECU,
    WORKING_SET_MASTER, WORKING_SET_MEMBER,
};
use vt_names::Name;

/// The function of a virtual terminal in a NAME.
const VIRTUAL_TERMINAL: u8 = 29;

/// A message that a NAME claims an address, or that it cannot claim one.
#[derive(Clone, Copy, Drop)]
pub struct ClaimSentence<'a> {
    /// The address that sends it.
    pub source: u8,
    /// The bytes of the NAME.
    pub bytes: &'a [u8],
}

impl fmt::Display for ClaimSentence<'_> {
    fn fmt<W: fmt::Write>(&self, f: &mut fmt::Formatter<W>) -> fmt::Result {
        let claim = match self.source {
            NULL_ADDRESS => "Cannot Claim",
            _ => "Address Claimed",
        };
        write!(f, "{claim}: {}", NameText(self.bytes))
    }
}

/// A request for a parameter group.
#[derive(Clone, Copy, Drop)]
pub struct GroupRequest<'a>(pub &'a [u8]);

impl fmt::Display for GroupRequest<'_> {
    fn fmt<W: fmt::Write>(&self, f: &mut fmt::Formatter<W>) -> fmt::Result {
        if self.0.len() < 3 {
            return write!(f, "Request: {}", HexBytes(self.0));
        }
        let group = ParameterGroup::in_bytes(self.0);
        match group.name() {
            Some(name) => write!(f, "Request: {name}"),
            None => write!(f, "Request: {group}"),
        }
    }
}

/// A Working Set Master message.
#[derive(Clone, Copy, Drop)]
pub struct MasterSentence<'a>(pub &'a [u8]);

impl fmt::Display for MasterSentence<'_> {
    fn fmt<W: fmt::Write>(&self, f: &mut fmt::Formatter<W>) -> fmt::Result {
        match self.0.first() {
            Some(members) => {
                let members = u64::from(*members).max(1);
                write!(f, "Working Set Master: {}", Count(members, "member"))
            }
            None => f.write_str("Working Set Master: no bytes"),
        }
    }
}

/// A Working Set Member message.
#[derive(Clone, Copy, Drop)]
pub struct MemberSentence<'a>(pub &'a [u8]);

impl fmt::Display for MemberSentence<'_> {
    fn fmt<W: fmt::Write>(&self, f: &mut fmt::Formatter<W>) -> fmt::Result {
        write!(f, "Working Set Member: {}", NameText(self.0))
    }
}

/// The NAME in eight bytes, as a number in hex and by its fields; the bytes themselves if there are fewer.
#[derive(Clone, Copy, Drop)]
struct NameText<'a>(&'a [u8]);

impl fmt::Display for NameText<'_> {
    fn fmt<W: fmt::Write>(&self, f: &mut fmt::Formatter<W>) -> fmt::Result {
        if self.0.len() < 8 {
            return write!(f, "{}", HexBytes(self.0));
        }
        let name = Name::from_raw(LittleEndian::read_u64(self.0));
        write!(f, "NAME {:016X} ({})", name.raw(), NameFields(name))
    }
}

/// The fields of a NAME, such as `agriculture, virtual terminal, manufacturer 95, identity 1`.
#[derive(Clone, Copy, Drop)]
struct NameFields(Name);

impl fmt::Display for NameFields {
    fn fmt<W: fmt::Write>(&self, f: &mut fmt::Formatter<W>) -> fmt::Result {
        let name = self.0;
        let group = name.industry_group();
        match industry(group) {
            Some(industry) => write!(f, "{industry}, ")?,
            None => write!(f, "industry group {group}, ")?,
        }
        match name.function() {
            VIRTUAL_TERMINAL => f.write_str("virtual terminal, ")?,
            function => write!(
                f,
                "device class {}, function {function}, ",
                name.device_class()
            )?,
        }
        write_instance(f, "function instance", name.function_instance())?;
        write_instance(f, "ECU instance", name.ecu_instance())?;
        write_instance(f, "class instance", name.device_class_instance())?;
        let manufacturer = name.manufacturer();
        let identity = name.identity();
        write!(f, "manufacturer {manufacturer}, identity {identity}")
    }
}

/// Writes an instance behind its name, unless it is the first one, which has the number 0.
fn write_instance<W: fmt::Write>(f: &mut fmt::Formatter<W>, what: &str, number: u8) -> fmt::Result {
    if number > 0 {
        write!(f, "{what} {number}, ")?;
    }
    Ok(())
}

/// The industry of an industry group (ISO 11783-5). `None` if it is not assigned.
fn industry(group: u8) -> Option<&'static str> {
    match group {
        0 => Some("all industries"),
        1 => Some("on-highway"),
        2 => Some("agriculture"),
        3 => Some("construction"),
        4 => Some("marine"),
        5 => Some("industrial"),
        _ => None,
    }
}

/// A parameter group by its number in hex, such as `parameter group FEF1`.
#[derive(Clone, Copy, Drop)]
pub struct ParameterGroup(pub u32);

impl ParameterGroup {
    /// The parameter group in the first three bytes of a slice; 0 if there are fewer.
    pub fn in_bytes(bytes: &[u8]) -> ParameterGroup {
        match bytes {
            [low, middle, high, ..] => {
                ParameterGroup(u32::from_le_bytes([*low, *middle, *high, 0]))
            }
            _ => ParameterGroup(0),
        }
    }

    /// The name of the parameter group, such as `ECU to VT`. `None` if it is not known.
    pub fn name(self) -> Option<&'static str> {
        match self.0 {
            ADDRESS_CLAIMED => Some("Address Claimed"),
            WORKING_SET_MASTER => Some("Working Set Master"),
            WORKING_SET_MEMBER => Some("Working Set Member"),
            ECU_TO_VT => Some("ECU to VT"),
            VT_TO_ECU => Some("VT to ECU"),
            REQUEST => Some("Request"),
            TP_CM => Some("TP control"),
            TP_DT => Some("TP packet"),
            ETP_CM => Some("ETP control"),
            ETP_DT => Some("ETP packet"),
            LANGUAGE => Some("Language"),
            ACKNOWLEDGEMENT => Some("Acknowledgement"),
            _ => None,
        }
    }
}

impl fmt::Display for ParameterGroup {
    fn fmt<W: fmt::Write>(&self, f: &mut fmt::Formatter<W>) -> fmt::Result {
        write!(f, "parameter group {:04X}", self.0)
    }
}
