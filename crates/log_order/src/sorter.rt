//! Puts the packets of messages to a recorded terminal into the order in which this terminal receives them.

use crate::endings::{Ending, Endings};
use crate::marks::{Mark, Sender};
use crate::transfer::{Ends, LateFrame, Moved, Transfer};
use crate::turn::Turn;
use std::alloc::{AllocError, Global};
use std::collections::{BTreeMap, BTreeSet, VecDeque};
use vt_can::Frame;
use vt_can::assigned::{ADDRESS_CLAIMED, ETP_TIMEOUT, TP_TIMEOUT};

/// Why this terminal does not receive a message in packets.
#[derive(Clone, Copy, PartialEq, Eq)]
pub enum SpoiledBy {
    /// The recorded terminal has received it, so packets of it are not in the log.
    LostPacket,
    /// The recorded terminal has received it, so its request is not in the log.
    LostRequest,
    /// A packet came out of order, and the log does not show what the recorded terminal did.
    Order,
    /// Its next packet did not come in time, and the log does not show what the recorded terminal did.
    Silence,
}

/// A message in packets that this terminal does not receive.
#[derive(Clone, Copy)]
pub struct Spoiled {
    /// Why it does not.
    pub by: SpoiledBy,
    /// The line at which this is known; if it is by silence, the line of the last frame before it.
    pub line: u64,
    /// The line of the request. 0 if it is not in the log.
    pub request: u64,
    /// The address of the sender.
    pub source: u8,
    /// The number of the first packet that this terminal has not received, from 1.
    pub missing: u32,
}

/// The messages in packets that are on their way to the terminal.
///
/// While the packets of a message are in order, each frame has its turn at once. At the first that is not, it counts how the message ended
/// with the recorded terminal: if that has received it, its packets are put in order from there on; otherwise nothing is changed.
#[derive(Drop)]
pub struct Sorter<'a> {
    alloc: Global,
    own: u8,
    /// The NAME of the terminal.
    name: u64,
    /// The latest time, in microseconds.
    now: u64,
    transfers: BTreeMap<Sender, Transfer>,
    /// The senders whose last request has no end message so far.
    requested: BTreeSet<Sender>,
    /// The others of which a packet has come since.
    strays: BTreeSet<Sender>,
    /// How the messages ended with the recorded terminal.
    endings: &'a Endings,
    /// The packets whose turn has come with the last frame.
    pub late: VecDeque<LateFrame>,
    /// Frames that the terminal did not receive at their lines, of the messages that it received.
    pub moved: Moved,
    /// The messages that this terminal is known not to receive.
    pub spoiled: Vec<Spoiled>,
}

impl<'a> Sorter<'a> {
    /// A sorter for the terminal at an address, with its NAME, before the first line. Does not allocate.
    pub fn new(alloc: Global, own: u8, name: u64, endings: &'a Endings) -> Sorter<'a> {
        Sorter {
            alloc,
            own,
            name,
            now: 0,
            transfers: BTreeMap::new(alloc),
            requested: BTreeSet::new(alloc),
            strays: BTreeSet::new(alloc),
            endings,
            late: VecDeque::new(alloc),
            moved: Moved::default(),
            spoiled: Vec::new(alloc),
        }
    }

    /// The turn of the frame of a line, with its time in microseconds. The frames whose turn comes after it are in `late`. After
    /// `OutOfMemory` the sorter is of no more use.
    #[inline]
    pub fn turn(&mut self, line: u64, time: u64, frame: &Frame) -> Result<Turn, AllocError> {
        self.now = self.now.max(time);
        let Some(mark) = Mark::in_frame(frame, self.own) else {
            return Ok(self.turn_of_other(frame));
        };
        match mark {
            Mark::Request(sender, size) => self.open(line, sender, size),
            Mark::Offset(sender, offset, count) => self.offset(line, sender, offset, count),
            Mark::Packet(sender, sequence, packet) => {
                self.packet(line, sender, sequence, packet)
            }
            Mark::End(sender) => self.end(line, sender),
            Mark::Refused(sender) => {
                self.request(sender)?;
                Ok(self.turn_of_other(frame))
            }
            Mark::Abort(sender) => {
                self.close(sender)?;
                Ok(self.turn_of_other(frame))
            }
        }
    }

    /// The turn of a frame that is no part of a message in packets to the terminal.
    fn turn_of_other(&self, frame: &Frame) -> Turn {
        if frame.id.source() == self.own && !self.is_claim_of_other(frame) {
            Turn::Own
        } else {
            Turn::Now
        }
    }

    /// Whether a frame from the terminal's address claims it under another NAME.
    fn is_claim_of_other(&self, frame: &Frame) -> bool {
        let is_claim = frame.id.pgn() == ADDRESS_CLAIMED;
        is_claim && frame.bytes.as_slice() != self.name.to_le_bytes().as_slice()
    }

    /// A node requests to send a message.
    fn open(&mut self, line: u64, sender: Sender, size: u32) -> Result<Turn, AllocError> {
        let ends = Ends {
            is_extended: sender.is_extended,
            source: sender.address,
            destination: self.own,
        };
        self.request(sender)?;
        let transfer = Transfer::new(self.alloc, (line, self.now), ends, size);
        self.transfers.insert(sender, transfer)?;
        Ok(Turn::Now)
    }

    /// Ends the message of a sender, which requests to send another one.
    fn request(&mut self, sender: Sender) -> Result<(), AllocError> {
        self.close(sender)?;
        self.strays.remove(&sender);
        self.requested.insert(sender)?;
        Ok(())
    }

    /// The sender says which packets come next.
    fn offset(
        &mut self,
        line: u64,
        sender: Sender,
        offset: u32,
        count: u8,
    ) -> Result<Turn, AllocError> {
        let Some(mut transfer) = self.transfers.remove(&sender) else {
            return Ok(Turn::Now);
        };
        if transfer.is_offset(offset, count) {
            transfer.last = (line, self.now);
            self.transfers.insert(sender, transfer)?;
            return Ok(Turn::Now);
        }
        if !self.is_sorted(line, sender, &mut transfer)? {
            return Ok(Turn::Now);
        }
        let turn = transfer.move_to(line, offset);
        self.transfers.insert(sender, transfer)?;
        Ok(turn)
    }

    /// A packet comes.
    fn packet(
        &mut self,
        line: u64,
        sender: Sender,
        sequence: u8,
        packet: [u8; 7],
    ) -> Result<Turn, AllocError> {
        let now = self.now;
        let Some(transfer) = self.transfers.get_mut(&sender) else {
            return self.stray(sender);
        };
        let is_next = transfer.is_packet(sequence);
        if is_next {
            transfer.last = (line, now);
        }
        if is_next && !transfer.is_sorted && !transfer.is_whole() {
            return Ok(Turn::Now);
        }
        let Some(mut transfer) = self.transfers.remove(&sender) else {
            return Ok(Turn::Now);
        };
        let mut turn = Turn::Now;
        if !is_next {
            if !self.is_sorted(line, sender, &mut transfer)? {
                return Ok(Turn::Now);
            }
            turn = transfer.keep(line, sequence, packet)?;
        }
        if transfer.is_sorted {
            transfer.put_late(&mut self.late)?;
        }
        if transfer.is_whole() {
            self.moved = self.moved.and(transfer.moved);
        } else {
            self.transfers.insert(sender, transfer)?;
        }
        Ok(turn)
    }

    /// A packet comes that belongs to no message on its way.
    fn stray(&mut self, sender: Sender) -> Result<Turn, AllocError> {
        if !self.requested.contains(&sender) {
            self.strays.insert(sender)?;
        }
        Ok(Turn::Now)
    }

    /// The recorded terminal says that it has received a message.
    fn end(&mut self, line: u64, sender: Sender) -> Result<Turn, AllocError> {
        self.requested.remove(&sender);
        let is_stray = self.strays.remove(&sender);
        if let Some(mut transfer) = self.transfers.remove(&sender) {
            transfer.end = Some(line);
            self.transfers.insert(sender, transfer)?;
        } else if is_stray {
            self.spoiled.push(Spoiled {
                by: SpoiledBy::LostRequest,
                line,
                request: 0,
                source: sender.address,
                missing: 1,
            })?;
        }
        Ok(Turn::Own)
    }

    /// Ends the message of a sender, and notes if it is spoiled.
    fn close(&mut self, sender: Sender) -> Result<(), AllocError> {
        let Some(transfer) = self.transfers.remove(&sender) else {
            return Ok(());
        };
        if let Some(spoiled) = self.spoiled_by(sender, &transfer) {
            self.spoiled.push(spoiled)?;
        }
        Ok(())
    }

    /// Ends the messages of all senders, at the end of the log.
    pub fn close_all(&mut self) -> Result<(), AllocError> {
        let mut open = Vec::new(self.alloc);
        for sender in self.transfers.keys() {
            open.push(*sender)?;
        }
        for sender in open.iter() {
            self.close(*sender)?;
        }
        self.spoiled.sort_by_key(|spoiled| spoiled.line)?;
        Ok(())
    }

    /// Whether the packets of a message are put in order, of which one has come out of order.
    fn is_sorted(
        &mut self,
        line: u64,
        sender: Sender,
        transfer: &mut Transfer,
    ) -> Result<bool, AllocError> {
        if transfer.is_sorted {
            return Ok(true);
        }
        match self.endings.of(transfer.request) {
            Ending::Received => transfer.is_sorted = true,
            Ending::Aborted => {}
            Ending::Unknown => self.spoiled.push(Spoiled {
                by: SpoiledBy::Order,
                line,
                request: transfer.request,
                source: sender.address,
                missing: transfer.missing(),
            })?,
        }
        Ok(transfer.is_sorted)
    }

    /// What is spoiled by a message whose packets have not all come: if the recorded terminal has received it, or if its next packet is
    /// overdue and the log does not show how it ended.
    fn spoiled_by(&self, sender: Sender, transfer: &Transfer) -> Option<Spoiled> {
        let (by, line) = match transfer.end {
            Some(line) => (SpoiledBy::LostPacket, line),
            None => (SpoiledBy::Silence, self.overdue_since(sender, transfer)?),
        };
        Some(Spoiled {
            by,
            line,
            request: transfer.request,
            source: sender.address,
            missing: transfer.missing(),
        })
    }

    /// The line of the last frame of a message whose next packet is overdue, if the log does not show how the message ended.
    fn overdue_since(&self, sender: Sender, transfer: &Transfer) -> Option<u64> {
        let (line, time) = transfer.last;
        let timeout = if sender.is_extended {
            ETP_TIMEOUT
        } else {
            TP_TIMEOUT
        };
        let is_overdue = self.now.saturating_sub(time) > timeout;
        let is_unknown = self.endings.of(transfer.request) == Ending::Unknown;
        (is_overdue && is_unknown).then_some(line)
    }
}
