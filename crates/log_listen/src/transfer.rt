//! The transfer of a message in packets.

ghost use Rattle.std.specs.Prelude.{◌≡◌, ◌<◌, ◌≤◌, ◌+◌, ℕ, [], ◌∷◌, ◌↔◌, IsTrue, OnOk, List, take};
ghost use Rattle.vt_can.specs.transport.Messages.{joined};
ghost use Rattle.log_listen.specs.declared.part.Part.{Part as SaidPart};
ghost use Rattle.log_listen.specs.declared.part.Part.TheVariants as said;
ghost use Rattle.log_listen.specs.Transfers.{packet_count, offset_after, HasAll};
ghost use Rattle.log_listen.specs.Steps.{HasPackets, IsAppended};

use std::alloc::{AllocError, Global};
use std::collections::BTreeMap;

/// The transfer of a message in packets, some of which are missing.
#[derive(Drop)]
pub(crate) struct Transfer {
    /// The size of the whole message, in bytes.
    pub(crate) size: u64,
    /// The parameter group of the message.
    pub(crate) pgn: u32,
    /// The number of packets before those that come next.
    pub(crate) offset: u32,
    /// The first place whose packet is missing, from 1.
    pub(crate) missing: u64,
    /// The bytes of the packets before the first missing one.
    pub(crate) front: Vec<u8>,
    /// The packets beyond the first missing one, by their places.
    pub(crate) beyond: BTreeMap<u64, [u8; 7]>,
}

impl Transfer {
    /// The transfer of a message without its packets. Does not allocate.
    pub(crate) fn new(alloc: Global, size: u32, pgn: u32) -> Transfer
        ensures size { result.size ≡ size }
        ensures pgn { result.pgn ≡ pgn }
        ensures packets { HasPackets [] result }
        ensures missing { result.missing ≡ 1 }
    {
        Transfer {
            size: u64::from(size),
            pgn,
            offset: 0,
            missing: 1,
            front: Vec::new(alloc),
            beyond: BTreeMap::new(alloc),
        }
    }

    /// The number of packets of the whole message.
    fn packet_count(&self) -> u64
        ensures { result ≡ packet_count self.now.size }
    {
        self.size.div_ceil(7)
    }

    /// Whether all packets were received.
    pub(crate) fn is_whole(&self) -> bool
        ensures { IsTrue result ↔ (packet_count self.now.size < self.now.missing) }
    {
        self.missing > self.packet_count()
    }

    /// Puts a packet at its place, over the one that was there. A packet without a place in the message is left out.
    pub(crate) fn put(&mut self, number: u8, packet: [u8; 7]) -> Result<(), AllocError>
        ensures size { self.new.size ≡ self.old.size }
        ensures pgn { self.new.pgn ≡ self.old.pgn }
        ensures packets { OnOk result ((since : List SaidPart) → HasPackets since self.old → HasPackets (said.Packet number packet ∷ since) self.new) }
    {
        let place = u64::from(self.offset) + u64::from(number);
        if place == 0 || place > self.packet_count() {
            return Ok(());
        }
        if place == self.missing {
            return self.put_next(&packet);
        }
        let end = place as usize * 7;
        if end <= self.front.len() {
            self.front[end - 7..end].copy_from_slice(&packet);
        } else {
            self.beyond.insert(place, packet)?;
        }
        Ok(())
    }

    /// Puts the packet of the first missing place, and goes on to the next one whose packet is missing.
    fn put_next(&mut self, packet: &[u8; 7]) -> Result<(), AllocError>
        requires { self.old.missing ≤ packet_count self.old.size }
        ensures size { self.new.size ≡ self.old.size }
        ensures pgn { self.new.pgn ≡ self.old.pgn }
        ensures packets { OnOk result ((number : ℕ) (since : List SaidPart) → HasPackets since self.old → offset_after since + number ≡ self.old.missing
            → HasPackets (said.Packet number packet.now ∷ since) self.new) }
    {
        let count = self.packet_count();
        self.append(packet)?;
        while !self.beyond.is_empty() && self.missing <= count {
            let Some(next) = self.beyond.remove(&self.missing) else {
                break;
            };
            self.append(&next)?;
        }
        Ok(())
    }

    /// Appends the packet of the first missing place to those before it.
    fn append(&mut self, packet: &[u8; 7]) -> Result<(), AllocError>
        requires { self.old.missing ≤ packet_count self.old.size }
        ensures size { self.new.size ≡ self.old.size }
        ensures pgn { self.new.pgn ≡ self.old.pgn }
        ensures appended { OnOk result (IsAppended packet.now self.old self.new) }
    {
        self.front.extend_from_slice(packet)?;
        self.missing += 1;
        Ok(())
    }

    /// The bytes of the message, from the packets of a whole transfer.
    pub(crate) fn into_bytes(self) -> Vec<u8>
        ensures { (since : List SaidPart) (packets : List (List ℕ)) → HasPackets since self
            → HasAll since self.size packets → result.items ≡ take self.size (joined packets) }
    {
        let mut bytes = self.front;
        bytes.truncate(self.size as usize);
        bytes
    }
}
