//! An ETP session: a message being received.

ghost use Rattle.std.specs.Prelude.{◌≡◌, ◌≤◌, ℕ, max, true, Some, length, List, vec_len, vec_capacity};
ghost use Rattle.vt_can.specs.declared.transport.wire.Reason.TheVariants.{Disorder};
ghost use Rattle.vt_can.specs.transport.Messages.{size_and_first_byte};
ghost use Rattle.vt_can.specs.transport.Protocols.{outcome_of};
ghost use Rattle.vt_extended.specs.Arrivals.{arrived_of};
ghost use Rattle.vt_extended.specs.Messages.{opens};
ghost use Rattle.vt_extended.specs.Steps.{fresh, is_open, is_next, after_part, after_offset, after_packet};
ghost use Rattle.vt_extended.specs.declared.messages.Reply.TheVariants as replies;

use crate::messages::{Opening, Part, Reply};
use std::marker::Model;
use vt_can::{Bytes, Reason, Received, append_packet};

/// A message with packets still to come.
#[derive(Drop)]
pub(crate) struct Session {
    opening: Opening,
    received: u32,
    // The number of packets announced by the last DPO, and of those received since. Both are 0 before the first DPO.
    announced: u8,
    arrived: u8,
    // The last packet opened by a CTS.
    edge: u32,
    bytes: Vec<u8>,
}

impl Model for Session {
    ghost use Rattle.std.specs.Prelude.{vec_len, vec_capacity};
    ghost use Rattle.vt_can.specs.transport.Histories.{IsReceiving};
    ghost use Rattle.vt_extended.specs.Messages.{spelling};
    ghost use Rattle.vt_extended.specs.SessionState.{SessionState, session_state_code};

    ghost Value = { SessionState };

    ghost coded = { session_state_code };

    ghost view = { λ s. record { opening = s.opening; bytes = s.bytes.items; received = s.received; announced = s.announced; arrived = s.arrived; edge = s.edge } };

    ghost invariant = { λ s. IsReceiving spelling s.opening s.received (vec_len s.bytes) (vec_capacity s.bytes) };
}

impl Session {
    /// Opens a session. `bytes` is empty and has the capacity for its message.
    pub(crate) fn new(opening: Opening, bytes: Vec<u8>) -> Session
        requires opened { opens opening ≡ true }
        requires empty { vec_len bytes ≡ 0 }
        requires capacity { opening.size ≤ vec_capacity bytes }
        ensures { result ≡ fresh opening }
    {
        Session {
            opening,
            received: 0,
            announced: 0,
            arrived: 0,
            edge: opening.edge_after(0),
            bytes,
        }
    }

    /// The number of bytes so far and the size of the message. Both are 0 if it is of another parameter group or begins with another
    /// byte.
    pub(crate) fn arrived(&self, pgn: u32, first: u8) -> (usize, u32)
        ensures { result ≡ arrived_of pgn first self.now }
    {
        if self.opening.pgn == pgn && self.bytes.first() == Some(&first) {
            (self.bytes.len(), self.opening.size)
        } else {
            (0, 0)
        }
    }

    pub(crate) fn pgn(&self) -> u32
        ensures { result ≡ self.now.opening.pgn }
    {
        self.opening.pgn
    }

    /// Handles a DPO or DT. Any other than the next one in sequence is refused.
    pub(crate) fn receive(self, part: Part) -> Received<Session, Reply>
        ensures { (now last : ℕ) → outcome_of (max now last) result ≡ after_part now (Some (record { last = last; session = self })) part }
    {
        match part {
            Part::Offset { count, offset } => self.announce(count, offset),
            Part::Packet { number, bytes } => self.append(number, bytes),
        }
    }

    fn announce(mut self, count: u8, offset: u32) -> Received<Session, Reply>
        ensures { (now last : ℕ) → outcome_of (max now last) result ≡ after_offset now (record { last = last; session = self }) count offset }
    {
        if !self.is_open(count, offset) {
            return Received::Refused(self.disorder());
        }
        self.announced = count;
        self.arrived = 0;
        Received::More(self, None)
    }

    fn append(mut self, number: u8, packet: [u8; 7]) -> Received<Session, Reply>
        ensures { (now last : ℕ) → outcome_of (max now last) result ≡ after_packet now (record { last = last; session = self }) number packet }
    {
        if !self.is_next(number) {
            return Received::Refused(self.disorder());
        }
        let Opening { size, pgn } = self.opening;
        append_packet(&mut self.bytes, size as usize, packet);
        let received = self.received + 1;
        if received == self.opening.packets() {
            return Received::Whole {
                pgn,
                bytes: Bytes::new(self.bytes),
                reply: Reply::End { size, pgn },
            };
        }
        self.received = received;
        self.arrived = number;
        if number < self.announced {
            return Received::More(self, None);
        }
        self.edge = self.opening.edge_after(received);
        let reply = self.opening.clear_to_send(received);
        Received::More(self, Some(reply))
    }

    /// The size and first byte of the message completed by a packet, if it completes one.
    pub(crate) fn completed_by(&self, number: u8) -> Option<(usize, u8)>
        ensures { (now last : ℕ) (packet : List ℕ) → length packet ≡ 7
            → result ≡ size_and_first_byte (after_packet now (record { last = last; session = self.now }) number packet).message }
    {
        if self.is_next(number) && self.received + 1 == self.opening.packets() {
            Some((self.opening.size as usize, self.bytes[0]))
        } else {
            None
        }
    }

    // Whether a DPO announces open packets, from the next one on.
    fn is_open(&self, count: u8, offset: u32) -> bool
        ensures { result ≡ is_open self.now count offset }
    {
        1 <= count && self.received + u32::from(count) <= self.edge && offset == self.received
    }

    // Whether a packet is the next announced one.
    fn is_next(&self, number: u8) -> bool
        ensures { result ≡ is_next self.now number }
    {
        self.arrived < self.announced && number == self.arrived + 1
    }

    fn disorder(&self) -> Reply
        ensures { result ≡ replies.Abort Disorder self.now.opening.pgn }
    {
        Reply::Abort {
            reason: Reason::Disorder,
            pgn: self.opening.pgn,
        }
    }
}
