//! Receives frames and puts messages together.

ghost use Rattle.std.specs.Prelude.{◌≡◌, ◌≢◌, ℕ, Some, List, [], ◌∷◌, ◌++◌, length, map, OnOk, IfOk};
ghost use Rattle.std.specs.Ordering.{nat_cmp};
ghost use Rattle.std.specs.BTreeMap.{get};
ghost use Rattle.vt_can.specs.declared.frames.frame.Frame.{Frame as CanFrame};
ghost use Rattle.log_listen.specs.declared.broken.Broken.{Broken as BrokenTransfer};
ghost use Rattle.log_listen.specs.declared.part.Part.{Part as SaidPart};
ghost use Rattle.log_listen.specs.declared.part.Part.TheVariants as said;
ghost use Rattle.log_listen.specs.Listeners.{HasHeard, IsAnswer, AreBrokenBy, IsEntryOf};
ghost use Rattle.log_listen.specs.Steps.{channel_between, swapped, said_between, said_only, TakesIn, broken_of, unended_of, told_by, told_in_both, IsMadeWhole};

use crate::broken::Broken;
use crate::channel::channel_of;
use crate::part::{Part, is_extended, part_in};
use crate::sent_message::SentMessage;
use crate::transfer::Transfer;
use std::alloc::{AllocError, Global};
use std::collections::BTreeMap;
use vt_can::Frame;
use vt_can::assigned::VT_TO_ECU;

/// The open transfers between all nodes, by the frames received so far.
///
/// The memory grows with the packets that were received, and not with the size that a request announces. On average a frame takes time
/// that grows with the logarithm of the number of open transfers and of packets that came out of order.
#[derive(Drop)]
pub struct Listener {
    alloc: Global,
    transfers: BTreeMap<u32, Transfer>,
}

impl Listener {
    /// A listener that has received no frame. Does not allocate.
    pub fn new(alloc: Global) -> Listener
        ensures { HasHeard [] result }
    {
        Listener {
            alloc,
            transfers: BTreeMap::new(alloc),
        }
    }

    /// Receives a frame, and returns the message that it completes, if it completes one. Appends to `broken` the transfers that it
    /// ends before they are whole. After `OutOfMemory` the listener is of no more use.
    pub fn hear(
        &mut self,
        frame: &Frame,
        broken: &mut Vec<Broken>,
    ) -> Result<Option<SentMessage>, AllocError>
        ensures heard { OnOk result ((frames : List CanFrame) → HasHeard frames self.old → HasHeard (frame.now ∷ frames) self.new) }
        // The answer is the message that the frame makes whole, in the channel of its sender and its destination.
        ensures answer { IfOk result (λ sent. (frames : List CanFrame) → HasHeard frames self.old → IsAnswer frames frame.now sent) }
        // Exactly the transfers that the frame ends before they are whole are told, each with the first packet that is missing.
        ensures told { OnOk result ((frames : List CanFrame) → HasHeard frames self.old
            → (list : List BrokenTransfer) × (broken.new.items ≡ broken.old.items ++ list) × AreBrokenBy frames frame.now list) }
    {
        let Some(destination) = frame.id.destination() else {
            return Ok(None);
        };
        let Some(part) = part_in(frame) else {
            return Ok(None);
        };
        let ends = Ends {
            source: frame.id.source(),
            destination,
            is_extended: is_extended(frame.id.pgn()),
        };
        match part {
            Part::Request { size, pgn } => self.open(ends, size, pgn, broken)?,
            Part::Packet { number, bytes } => return self.put(ends, number, bytes),
            Part::Offset(packets) => self.move_to(ends, packets),
            Part::Abort { pgn } => self.abort(ends, pgn, broken)?,
        }
        Ok(None)
    }

    /// The number of transfers that are still open.
    pub fn open_count(&self) -> usize
        ensures { result ≡ length self.now.transfers.entries }
    {
        self.transfers.len()
    }

    /// Appends to `broken` the transfers that are still open, by rising identifiers of their packets. After `OutOfMemory` only the
    /// first of them are appended.
    pub fn unended(&self, broken: &mut Vec<Broken>) -> Result<(), AllocError>
        ensures { OnOk result (broken.new.items ≡ broken.old.items ++ map (λ entry. unended_of entry.0 entry.1) self.now.transfers.entries) }
    {
        for (channel, transfer) in self.transfers.iter() {
            broken.push(unended_of(*channel, transfer))?;
        }
        Ok(())
    }

    /// Opens the transfer of a message. An empty message has none.
    fn open(
        &mut self,
        ends: Ends,
        size: u32,
        pgn: u32,
        broken: &mut Vec<Broken>,
    ) -> Result<(), AllocError>
        ensures heard { OnOk result (TakesIn (said_between ends (said.Request size pgn)) self.old self.new) }
        ensures told { OnOk result (broken.new.items
            ≡ broken.old.items ++ told_by ends (Some (said.Request size pgn)) (get nat_cmp self.old.transfers (channel_between ends))) }
    {
        if let Some(transfer) = self.transfers.remove(&ends.channel()) {
            broken.push(ends.broken(&transfer))?;
        }
        if size > 0 {
            let transfer = Transfer::new(self.alloc, size, pgn);
            self.transfers.insert(ends.channel(), transfer)?;
        }
        Ok(())
    }

    /// Puts a packet into the transfer of its channel, and returns the message if it is whole now.
    fn put(
        &mut self,
        ends: Ends,
        number: u8,
        packet: [u8; 7],
    ) -> Result<Option<SentMessage>, AllocError>
        ensures heard { OnOk result (TakesIn (said_between ends (said.Packet number packet)) self.old self.new) }
        ensures answer { IfOk result (λ answer. (parts : List SaidPart) → IsEntryOf parts (get nat_cmp self.old.transfers (channel_between ends))
            → IsMadeWhole ends parts (said.Packet number packet) answer) }
    {
        let channel = ends.channel();
        let Some(transfer) = self.transfers.get_mut(&channel) else {
            return Ok(None);
        };
        transfer.put(number, packet)?;
        if !transfer.is_whole() {
            return Ok(None);
        }
        let whole = self.transfers.remove(&channel).unwrap();
        Ok(Some(SentMessage {
            source: ends.source,
            destination: ends.destination,
            pgn: whole.pgn,
            bytes: whole.into_bytes(),
        }))
    }

    /// Sets the number of packets before those that come next.
    fn move_to(&mut self, ends: Ends, packets: u32)
        ensures { TakesIn (said_between ends (said.Offset packets)) self.old self.new }
    {
        if let Some(transfer) = self.transfers.get_mut(&ends.channel()) {
            transfer.offset = packets;
        }
    }

    /// Ends the transfers of a parameter group between two nodes. A sender's abort of `VT_TO_ECU` is about a message to it.
    fn abort(&mut self, ends: Ends, pgn: u32, broken: &mut Vec<Broken>) -> Result<(), AllocError>
        ensures heard { OnOk result (TakesIn (said_between ends (said.Abort pgn)) self.old self.new) }
        ensures told { OnOk result (broken.new.items ≡ broken.old.items ++ told_in_both ends (said.Abort pgn) self.old) }
    {
        if pgn != VT_TO_ECU {
            self.end(ends, pgn, broken)?;
        }
        if ends.source != ends.destination {
            self.end(ends.swapped(), pgn, broken)?;
        }
        Ok(())
    }

    /// Ends the transfer of a channel if it is of a parameter group.
    fn end(&mut self, ends: Ends, pgn: u32, broken: &mut Vec<Broken>) -> Result<(), AllocError>
        ensures heard { OnOk result (TakesIn (said_only (channel_between ends) (said.Abort pgn)) self.old self.new) }
        ensures others { OnOk result ((other : ℕ) → other ≢ channel_between ends
            → get nat_cmp self.new.transfers other ≡ get nat_cmp self.old.transfers other) }
        ensures told { OnOk result (broken.new.items
            ≡ broken.old.items ++ told_by ends (Some (said.Abort pgn)) (get nat_cmp self.old.transfers (channel_between ends))) }
    {
        if let Some(transfer) = self.transfers.remove(&ends.channel()) {
            if transfer.pgn == pgn {
                broken.push(ends.broken(&transfer))?;
            } else {
                self.transfers.insert(ends.channel(), transfer)?;
            }
        }
        Ok(())
    }
}

/// The open transfer of a channel.
fn unended_of(channel: u32, transfer: &Transfer) -> Broken
    ensures { result ≡ unended_of channel transfer.now }
{
    Broken {
        source: (channel & 0xFF) as u8,
        destination: (channel >> 8 & 0xFF) as u8,
        pgn: transfer.pgn,
        size: transfer.size,
        missing: transfer.missing,
    }
}

/// The two ends of a transfer, and its protocol.
#[derive(Clone, Copy)]
struct Ends {
    source: u8,
    destination: u8,
    is_extended: bool,
}

impl Ends {
    /// The channel from the source to the destination.
    fn channel(self) -> u32
        ensures { result ≡ channel_between self }
    {
        channel_of(self.is_extended, self.source, self.destination)
    }

    /// The ends of the other direction.
    fn swapped(self) -> Ends
        ensures { result ≡ swapped self }
    {
        Ends {
            source: self.destination,
            destination: self.source,
            is_extended: self.is_extended,
        }
    }

    /// A transfer that ended early.
    fn broken(self, transfer: &Transfer) -> Broken
        ensures { result ≡ broken_of self transfer.now }
    {
        Broken {
            source: self.source,
            destination: self.destination,
            pgn: transfer.pgn,
            size: transfer.size,
            missing: transfer.missing,
        }
    }
}
