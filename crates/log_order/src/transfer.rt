//! A message in packets to the terminal, and the turns of its packets.

use crate::turn::Turn;
use std::alloc::{AllocError, Global};
use std::collections::{BTreeMap, VecDeque};
use vt_can::assigned::{ETP_CM, ETP_DPO, ETP_DT, TP_DT};
use vt_can::{Frame, frame_of, three_bytes};

/// A frame that the terminal receives after its line.
#[derive(Drop)]
pub struct LateFrame {
    /// The number of its line.
    pub line: u64,
    /// The frame.
    pub frame: Frame,
}

/// The two ends of a message, and its protocol.
#[derive(Clone, Copy)]
pub(crate) struct Ends {
    pub(crate) is_extended: bool,
    pub(crate) source: u8,
    pub(crate) destination: u8,
}

/// A packet before whose turn others are missing.
#[derive(Clone, Copy)]
struct Held {
    line: u64,
    bytes: [u8; 7],
}

/// A message in packets to the terminal.
#[derive(Drop)]
pub(crate) struct Transfer {
    /// The line of its request.
    pub(crate) request: u64,
    /// Whether its packets are put in order.
    pub(crate) is_sorted: bool,
    ends: Ends,
    /// The number of packets of the whole message.
    packets: u32,
    /// The number of packets that the terminal has received, from the first on.
    received: u32,
    /// The number of packets before those that the sender sends next.
    offset: u32,
    /// The number of packets before the group that the terminal expects, and before the group after it. The packets of a group are
    /// numbered from 1.
    group: (u32, u32),
    /// The number of packets that were received at the end of the last group that was full.
    full: u32,
    /// The line of the recorded terminal's end message, if it came before the last packet.
    pub(crate) end: Option<u64>,
    /// The line and the time of its last frame that the terminal has received.
    pub(crate) last: (u64, u64),
    held: BTreeMap<u32, Held>,
    /// Its frames that the terminal does not receive at their lines.
    pub(crate) moved: Moved,
}

/// Frames that the terminal does not receive at their lines.
#[derive(Clone, Copy, Default)]
pub struct Moved {
    /// How many they are.
    pub count: u64,
    /// The line of the first. 0 if there is none.
    pub first: u64,
}

impl Moved {
    /// One more, in a later line.
    pub(crate) fn add(&mut self, line: u64) {
        if self.count == 0 {
            self.first = line;
        }
        self.count = self.count.saturating_add(1);
    }

    /// These and others.
    pub(crate) fn and(self, other: Moved) -> Moved {
        match (self.count, other.count) {
            (0, _) => other,
            (_, 0) => self,
            (here, there) => Moved {
                count: here.saturating_add(there),
                first: self.first.min(other.first),
            },
        }
    }
}

impl Transfer {
    /// A message of so many bytes, before its first packet, with the line and the time of its request. Does not allocate.
    pub(crate) fn new(alloc: Global, request: (u64, u64), ends: Ends, size: u32) -> Transfer {
        let packets = size.div_ceil(7);
        Transfer {
            request: request.0,
            is_sorted: false,
            ends,
            packets,
            received: 0,
            offset: 0,
            group: if ends.is_extended {
                (0, 0)
            } else {
                (0, packets)
            },
            full: 0,
            end: None,
            last: request,
            held: BTreeMap::new(alloc),
            moved: Moved::default(),
        }
    }

    /// Whether the terminal has received all packets.
    pub(crate) fn is_whole(&self) -> bool {
        self.received >= self.packets
    }

    /// The number of the first packet that the terminal has not received, from 1.
    pub(crate) fn missing(&self) -> u32 {
        self.received.saturating_add(1)
    }

    /// Takes an offset with its count of packets if the terminal does (docs/PROFILE.md, "The ETP receiver"). Returns whether it does.
    pub(crate) fn is_offset(&mut self, offset: u32, count: u8) -> bool {
        let end = offset.saturating_add(u32::from(count));
        let last = self.full.saturating_add(255).min(self.packets);
        let is_next = offset == self.received && count > 0 && end <= last && self.held.is_empty();
        if is_next {
            self.offset = offset;
            self.group = (offset, end);
        }
        is_next
    }

    /// Takes a packet with its number after the offset if it is the next one for the terminal. Returns whether it is.
    pub(crate) fn is_packet(&mut self, sequence: u8) -> bool {
        let (before, end) = self.group;
        let number = self.offset.saturating_add(u32::from(sequence));
        let is_next = before == self.offset && number == self.missing() && number <= end;
        if is_next {
            self.receive(number);
        }
        is_next
    }

    /// Notes that the terminal has received the packets up to a number.
    fn receive(&mut self, number: u32) {
        self.received = number;
        if number == self.group.1 {
            self.full = number;
        }
    }

    /// Takes an offset that the terminal does not, for the packets that come next.
    pub(crate) fn move_to(&mut self, line: u64, offset: u32) -> Turn {
        self.moved.add(line);
        self.offset = offset;
        Turn::Never
    }

    /// Keeps a packet that is not the next one for the terminal, unless it has received it or it is of no place in the message.
    pub(crate) fn keep(
        &mut self,
        line: u64,
        sequence: u8,
        bytes: [u8; 7],
    ) -> Result<Turn, AllocError> {
        self.moved.add(line);
        let number = self.offset.saturating_add(u32::from(sequence));
        if number <= self.received || number > self.packets || sequence == 0 {
            return Ok(Turn::Never);
        }
        if self.held.contains_key(&number) {
            return Ok(Turn::Never);
        }
        self.held.insert(number, Held { line, bytes })?;
        Ok(Turn::Later)
    }

    /// Appends the kept packets whose turn has come, each with its line.
    pub(crate) fn put_late(&mut self, late: &mut VecDeque<LateFrame>) -> Result<(), AllocError> {
        for number in self.missing()..=self.packets {
            let Some(held) = self.held.remove(&number) else {
                break;
            };
            if number > self.group.1 {
                late.push_back(self.offset_frame(held.line))?;
            }
            late.push_back(self.packet_frame(number, held))?;
            self.receive(number);
        }
        Ok(())
    }

    /// The offset before the next packets, as many as a group may have, which the terminal takes then.
    fn offset_frame(&mut self, line: u64) -> LateFrame {
        let count = self.packets.saturating_sub(self.received).min(255);
        self.group = (self.received, self.received.saturating_add(count));
        let [low, middle, high] = three_bytes(self.received);
        let bytes = [ETP_DPO, count as u8, low, middle, high, 0x00, 0xE7, 0x00];
        LateFrame {
            line,
            frame: frame_of(ETP_CM, self.ends.source, self.ends.destination, bytes),
        }
    }

    /// The packet with a number of the group.
    fn packet_frame(&self, number: u32, held: Held) -> LateFrame {
        let pgn = if self.ends.is_extended { ETP_DT } else { TP_DT };
        let sequence = number.saturating_sub(self.group.0).min(255) as u8;
        let [a, b, c, d, e, f, g] = held.bytes;
        let bytes = [sequence, a, b, c, d, e, f, g];
        LateFrame {
            line: held.line,
            frame: frame_of(pgn, self.ends.source, self.ends.destination, bytes),
        }
    }
}
