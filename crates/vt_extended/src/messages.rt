//! The decoded frames and the replies of the extended transport protocol (ISO 11783-3).

ghost use Rattle.std.specs.Prelude.{◌≡◌, ◌<◌, true};
ghost use Rattle.vt_extended.specs.Messages.{opens, packet_count_of, edge_after, clear_to_send, refusal, first_reply};

use vt_can::Reason;

/// The fewest bytes of a message.
const LEAST_SIZE: u32 = 9;

/// The most bytes of a message.
const GREATEST_SIZE: u32 = 1_048_576;

/// The greatest number of packets of one CTS.
const MOST_PACKETS: u32 = 255;

/// The fields of a request to send (RTS).
#[derive(Clone, Copy)]
pub(crate) struct Opening {
    pub(crate) size: u32,
    pub(crate) pgn: u32,
}

/// A frame within a session.
#[derive(Clone, Copy)]
pub(crate) enum Part {
    // A data packet offset (DPO), which announces `count` packets after the first `offset` packets.
    Offset { count: u8, offset: u32 },
    Packet { number: u8, bytes: [u8; 7] },
}

/// A frame of the extended transport protocol, decoded for a receiver.
#[derive(Clone, Copy)]
pub(crate) enum EtpFrame {
    Rts(Opening),
    Part(Part),
    Aborted,
    Other,
}

/// A reply of this node in a session.
#[derive(Clone, Copy)]
pub(crate) enum Reply {
    ClearToSend { count: u8, next: u32, pgn: u32 },
    End { size: u32, pgn: u32 },
    Abort { reason: Reason, pgn: u32 },
}

impl Opening {
    /// Whether the size is that of a message.
    pub(crate) fn opens(&self) -> bool
        ensures { result ≡ opens self.now }
    {
        LEAST_SIZE <= self.size && self.size <= GREATEST_SIZE
    }

    /// The number of packets of the message.
    pub(crate) fn packets(&self) -> u32
        requires { opens self.now ≡ true }
        ensures { result ≡ packet_count_of self.now }
    {
        (self.size + 6) / 7
    }

    /// The last packet opened by the CTS after `count` packets.
    pub(crate) fn edge_after(&self, count: u32) -> u32
        requires opened { opens self.now ≡ true }
        requires more { count < packet_count_of self.now }
        ensures { result ≡ edge_after self.now count }
    {
        self.packets().min(count + MOST_PACKETS)
    }

    /// The CTS after `count` packets, with packets still to come.
    pub(crate) fn clear_to_send(&self, count: u32) -> Reply
        requires opened { opens self.now ≡ true }
        requires more { count < packet_count_of self.now }
        ensures { result ≡ clear_to_send self.now count }
    {
        let remaining = self.packets() - count;
        Reply::ClearToSend {
            count: MOST_PACKETS.min(remaining) as u8,
            next: count + 1,
            pgn: self.pgn,
        }
    }

    /// The reply to the RTS.
    pub(crate) fn first_reply(&self) -> Reply
        ensures { result ≡ first_reply self.now }
    {
        if self.opens() {
            self.clear_to_send(0)
        } else {
            Reply::Abort {
                reason: self.refusal(),
                pgn: self.pgn,
            }
        }
    }

    fn refusal(&self) -> Reason
        ensures { result ≡ refusal self.now }
    {
        if self.size < LEAST_SIZE {
            Reason::Disorder
        } else {
            Reason::TooLarge
        }
    }
}
