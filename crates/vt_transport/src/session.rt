//! A TP session: a message being received.

ghost use Rattle.std.specs.Prelude.{◌≡◌, ◌≤◌, ℕ, max, true, Some, [], length, List, vec_len, vec_capacity};
ghost use Rattle.vt_can.specs.transport.Messages.{size_and_first_byte};
ghost use Rattle.vt_can.specs.transport.Protocols.{outcome_of};
ghost use Rattle.vt_transport.specs.Arrivals.{arrived_of};
ghost use Rattle.vt_transport.specs.Messages.{opens};
ghost use Rattle.vt_transport.specs.Steps.{after_packet};

use crate::messages::{Opening, Reply};
use std::marker::Model;
use vt_can::{Bytes, Reason, Received, append_packet};

/// A message with packets still to come.
#[derive(Drop)]
pub(crate) struct Session {
    opening: Opening,
    received: u8,
    bytes: Vec<u8>,
}

impl Model for Session {
    ghost use Rattle.std.specs.Prelude.{vec_len, vec_capacity};
    ghost use Rattle.vt_can.specs.transport.Histories.{IsReceiving};
    ghost use Rattle.vt_transport.specs.Messages.{spelling};
    ghost use Rattle.vt_transport.specs.SessionState.{SessionState, session_state_code};

    ghost Value = { SessionState };

    ghost coded = { session_state_code };

    ghost view = { λ s. record { opening = s.opening; bytes = s.bytes.items; received = s.received } };

    ghost invariant = { λ s. IsReceiving spelling s.opening s.received (vec_len s.bytes) (vec_capacity s.bytes) };
}

impl Session {
    /// Opens a session. `bytes` is empty and has the capacity for its message.
    pub(crate) fn new(opening: Opening, bytes: Vec<u8>) -> Session
        requires opened { opens opening ≡ true }
        requires empty { vec_len bytes ≡ 0 }
        requires capacity { opening.size ≤ vec_capacity bytes }
        ensures { result ≡ record { opening = opening; bytes = []; received = 0 } }
    {
        Session {
            opening,
            received: 0,
            bytes,
        }
    }

    /// The number of bytes so far and the size of the message. Both are 0 if it is of another parameter group or begins with another
    /// byte.
    pub(crate) fn arrived(&self, pgn: u32, first: u8) -> (usize, u32)
        ensures { result ≡ arrived_of pgn first self.now }
    {
        if self.opening.pgn == pgn && self.bytes.first() == Some(&first) {
            (self.bytes.len(), u32::from(self.opening.size))
        } else {
            (0, 0)
        }
    }

    pub(crate) fn pgn(&self) -> u32
        ensures { result ≡ self.now.opening.pgn }
    {
        self.opening.pgn
    }

    /// Appends a packet. Any packet other than the next one is refused.
    pub(crate) fn receive(mut self, number: u8, packet: [u8; 7]) -> Received<Session, Reply>
        ensures { (now last : ℕ) → outcome_of (max now last) result
            ≡ after_packet now (Some (record { last = last; session = self })) number packet }
    {
        let Opening {
            size,
            packets,
            pgn,
            ..
        } = self.opening;
        if number != self.received + 1 {
            return Received::Refused(Reply::Abort {
                reason: Reason::Disorder,
                pgn,
            });
        }
        append_packet(&mut self.bytes, usize::from(size), packet);
        if number == packets {
            return Received::Whole {
                pgn,
                bytes: Bytes::new(self.bytes),
                reply: Reply::End { size, packets, pgn },
            };
        }
        self.received = number;
        let reply = self.opening.reply_to(number);
        Received::More(self, reply)
    }

    /// The size and first byte of the message completed by a packet, if it completes one.
    pub(crate) fn completed_by(&self, number: u8) -> Option<(usize, u8)>
        ensures { (now last : ℕ) (packet : List ℕ) → length packet ≡ 7
            → result ≡ size_and_first_byte (after_packet now (Some (record { last = last; session = self.now })) number packet).message }
    {
        if number == self.opening.packets && number == self.received + 1 {
            Some((usize::from(self.opening.size), self.bytes[0]))
        } else {
            None
        }
    }
}
