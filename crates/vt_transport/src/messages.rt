//! The decoded frames and the replies of the transport protocol (ISO 11783-3).

ghost use Rattle.std.specs.Prelude.{◌≡◌, ◌<◌};
ghost use Rattle.vt_transport.specs.Messages.{opens, allowed, first_reply, reply_to};

use vt_can::Reason;

/// The fewest bytes of a message.
pub(crate) const LEAST_SIZE: u16 = 9;

/// The most bytes of a message.
pub(crate) const GREATEST_SIZE: u16 = 1785;

/// The fields of a request to send (RTS).
#[derive(Clone, Copy)]
pub(crate) struct Opening {
    pub(crate) size: u16,
    pub(crate) packets: u8,
    // The greatest number of packets of one CTS, 0 for no limit.
    pub(crate) most: u8,
    pub(crate) pgn: u32,
}

/// A decoded frame of the transport protocol.
#[derive(Clone, Copy)]
pub(crate) enum TpFrame {
    Rts(Opening),
    Cts { count: u8, next: u8, pgn: u32 },
    EndOfMessage { pgn: u32 },
    Aborted { pgn: u32 },
    Data { number: u8, bytes: [u8; 7] },
    Other,
}

/// A reply of this node in a session.
#[derive(Clone, Copy)]
pub(crate) enum Reply {
    ClearToSend { count: u8, next: u8, pgn: u32 },
    End { size: u16, packets: u8, pgn: u32 },
    Abort { reason: Reason, pgn: u32 },
}

impl Opening {
    /// Whether the size is that of a message, and the number of packets fits it.
    pub(crate) fn opens(&self) -> bool
        ensures { result ≡ opens self.now }
    {
        LEAST_SIZE <= self.size
            && self.size <= GREATEST_SIZE
            && u16::from(self.packets) == (self.size + 6) / 7
    }

    /// The greatest number of packets of one CTS.
    pub(crate) fn allowed(&self) -> u8
        ensures { result ≡ allowed self.now }
    {
        if self.most == 0 { 255 } else { self.most }
    }

    /// The reply to the RTS.
    pub(crate) fn first_reply(&self) -> Reply
        ensures { result ≡ first_reply self.now }
    {
        if self.opens() {
            Reply::ClearToSend {
                count: self.allowed().min(self.packets),
                next: 1,
                pgn: self.pgn,
            }
        } else {
            Reply::Abort {
                reason: Reason::Disorder,
                pgn: self.pgn,
            }
        }
    }

    /// The reply to a packet in sequence, other than the last one.
    pub(crate) fn reply_to(&self, number: u8) -> Option<Reply>
        requires { number < self.now.packets }
        ensures { result ≡ reply_to self.now number }
    {
        let allowed = self.allowed();
        (number % allowed == 0).then(|| Reply::ClearToSend {
            count: allowed.min(self.packets - number),
            next: number + 1,
            pgn: self.pgn,
        })
    }
}
