//! A message being sent.

ghost use Rattle.std.specs.Prelude.{◌≡◌, ◌≤◌, ◌<◌, ◌+◌, ◌-◌, true, map, min};
ghost use Rattle.vt_transport.specs.Wire.{packet_bytes, packet_frame};
ghost use Rattle.vt_transport.specs.Senders.{packet_count_of, has_size, numbers_from};

use crate::wire;
use arrayvec::ArrayVec;
use std::marker::Model;
use vt_can::Frame;
use vt_can::assigned::FILL;

/// A message of 9 to 1785 bytes being sent.
#[derive(Drop)]
pub(crate) struct Outgoing {
    pgn: u32,
    bytes: Vec<u8>,
}

impl Model for Outgoing {
    ghost use Rattle.std.specs.Prelude.{◌≡◌, true};
    ghost use Rattle.vt_can.specs.transport.Messages.{Message};
    ghost use Rattle.vt_transport.specs.Senders.{message_code, has_size};

    ghost Value = { Message };

    ghost coded = { message_code };

    ghost view = { λ m. record { pgn = m.pgn; bytes = m.bytes.items } };

    ghost invariant = { λ m. has_size m.bytes.items ≡ true };
}

impl Outgoing {
    pub(crate) fn new(pgn: u32, bytes: Vec<u8>) -> Outgoing
        requires { has_size bytes.items ≡ true }
        ensures { result ≡ record { pgn = pgn; bytes = bytes.items } }
    {
        Outgoing { pgn, bytes }
    }

    pub(crate) fn pgn(&self) -> u32
        ensures { result ≡ self.now.pgn }
    {
        self.pgn
    }

    /// The number of packets.
    pub(crate) fn packets(&self) -> u8
        ensures { result ≡ packet_count_of self.now }
    {
        ((self.bytes.len() + 6) / 7) as u8
    }

    /// The frames of up to `count` packets, from packet `next` on.
    pub(crate) fn frames(
        &self,
        own_address: u8,
        to: u8,
        next: u8,
        count: u8,
    ) -> ArrayVec<Frame, 255>
        requires first { 1 ≤ next }
        requires last { next ≤ packet_count_of self.now }
        ensures { result.items ≡ map (packet_frame own_address to self.now.bytes)
            (numbers_from next (min count (packet_count_of self.now + 1 - next))) }
    {
        let mut frames = ArrayVec::new();
        let remaining = self.packets() - (next - 1);
        for sent in 0..count.min(remaining) {
            let number = next + sent;
            frames.push(wire::data_frame(own_address, to, number, self.packet(number)));
        }
        frames
    }

    // A packet of the message. The last one is filled with FF.
    fn packet(&self, number: u8) -> [u8; 7]
        requires first { 1 ≤ number }
        requires last { number ≤ packet_count_of self.now }
        ensures { result ≡ packet_bytes self.now.bytes number }
    {
        let rest = &self.bytes[7 * (usize::from(number) - 1)..];
        let filled = rest.len().min(7);
        let mut packet = [FILL; 7];
        packet[..filled].copy_from_slice(&rest[..filled]);
        packet
    }
}
