//! The messages of the transport protocols in words.

use crate::addresses::ParameterGroup;
use crate::shown::{Count, HexBytes};
use byteorder::{ByteOrder, LittleEndian};
use std::fmt;
use vt_can::assigned::{ABORT, ETP_CTS, ETP_DPO, ETP_END, ETP_RTS, TP_CTS, TP_END, TP_RTS};

/// The broadcast announce message, which opens a transfer to all.
const TP_BAM: u8 = 0x20;

/// A control message of the transport protocol (TP).
#[derive(Clone, Copy, Drop)]
pub struct TpControl<'a>(pub &'a [u8]);

impl fmt::Display for TpControl<'_> {
    fn fmt<W: fmt::Write>(&self, f: &mut fmt::Formatter<W>) -> fmt::Result {
        match self.0 {
            [TP_RTS, s0, s1, packets, most, group @ ..] if group.len() >= 3 => write!(
                f,
                "TP RTS: {} in {}, at most {most} at a time, {}",
                size(*s0, *s1),
                Count(u64::from(*packets), "packet"),
                group_in(group)
            ),
            [TP_CTS, 0, _, _, _, group @ ..] if group.len() >= 3 => {
                write!(f, "TP CTS: wait, {}", group_in(group))
            }
            [TP_CTS, count, next, _, _, group @ ..] if group.len() >= 3 => write!(
                f,
                "TP CTS: {} from packet {next}, {}",
                Count(u64::from(*count), "packet"),
                group_in(group)
            ),
            [TP_END, s0, s1, packets, _, group @ ..] if group.len() >= 3 => write!(
                f,
                "TP end: {} in {}, {}",
                size(*s0, *s1),
                Count(u64::from(*packets), "packet"),
                group_in(group)
            ),
            [TP_BAM, s0, s1, packets, _, group @ ..] if group.len() >= 3 => write!(
                f,
                "TP BAM: {} in {}, {}",
                size(*s0, *s1),
                Count(u64::from(*packets), "packet"),
                group_in(group)
            ),
            [ABORT, reason, _, _, _, group @ ..] if group.len() >= 3 => {
                write!(f, "TP abort: {}, {}", AbortReason(*reason), group_in(group))
            }
            bytes => write!(f, "TP control: {}", HexBytes(bytes)),
        }
    }
}

/// A control message of the extended transport protocol (ETP).
#[derive(Clone, Copy, Drop)]
pub struct EtpControl<'a>(pub &'a [u8]);

impl fmt::Display for EtpControl<'_> {
    fn fmt<W: fmt::Write>(&self, f: &mut fmt::Formatter<W>) -> fmt::Result {
        match self.0 {
            [ETP_RTS, s0, s1, s2, s3, group @ ..] if group.len() >= 3 => {
                let size = u32::from_le_bytes([*s0, *s1, *s2, *s3]);
                write!(
                    f,
                    "ETP RTS: {}, {}",
                    Count(u64::from(size), "byte"),
                    group_in(group)
                )
            }
            [ETP_CTS, count, next @ ..] if next.len() >= 6 => write!(
                f,
                "ETP CTS: {} from packet {}, {}",
                Count(u64::from(*count), "packet"),
                LittleEndian::read_u24(next),
                group_in(&next[3..])
            ),
            [ETP_DPO, count, offset @ ..] if offset.len() >= 6 => write!(
                f,
                "ETP DPO: {} after packet {}, {}",
                Count(u64::from(*count), "packet"),
                LittleEndian::read_u24(offset),
                group_in(&offset[3..])
            ),
            [ETP_END, s0, s1, s2, s3, group @ ..] if group.len() >= 3 => {
                let size = u32::from_le_bytes([*s0, *s1, *s2, *s3]);
                write!(
                    f,
                    "ETP end: {}, {}",
                    Count(u64::from(size), "byte"),
                    group_in(group)
                )
            }
            [ABORT, reason, _, _, _, group @ ..] if group.len() >= 3 => {
                write!(
                    f,
                    "ETP abort: {}, {}",
                    AbortReason(*reason),
                    group_in(group)
                )
            }
            bytes => write!(f, "ETP control: {}", HexBytes(bytes)),
        }
    }
}

/// A packet of a transport protocol, by the protocol's short name and the packet's number.
#[derive(Clone, Copy, Drop)]
pub struct Packet<'a> {
    /// The short name of the protocol.
    pub protocol: &'a str,
    /// The bytes of the frame.
    pub bytes: &'a [u8],
}

impl fmt::Display for Packet<'_> {
    fn fmt<W: fmt::Write>(&self, f: &mut fmt::Formatter<W>) -> fmt::Result {
        let protocol = self.protocol;
        match self.bytes.first() {
            Some(number) => write!(f, "{protocol} packet {number}"),
            None => write!(f, "{protocol} packet without a number"),
        }
    }
}

/// Why a transfer is ended, by the reason of its abort.
#[derive(Clone, Copy, Drop)]
struct AbortReason(u8);

impl fmt::Display for AbortReason {
    fn fmt<W: fmt::Write>(&self, f: &mut fmt::Formatter<W>) -> fmt::Result {
        match self.0 {
            1 => f.write_str("already in a session"),
            2 => f.write_str("resources needed"),
            3 => f.write_str("timeout"),
            7 => f.write_str("a fault of order or shape"),
            reason => write!(f, "reason {reason}"),
        }
    }
}

/// The size of a message in two bytes.
fn size(low: u8, high: u8) -> Count<'static> {
    Count(u64::from(u16::from_le_bytes([low, high])), "byte")
}

/// The parameter group of the message that a control message is about.
fn group_in(bytes: &[u8]) -> ParameterGroup {
    ParameterGroup::in_bytes(bytes)
}
