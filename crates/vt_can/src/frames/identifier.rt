//! The 29-bit identifier of a frame (ISO 11783-3).

ghost use Rattle.std.specs.Prelude.{◌≡◌, ◌<◌, ◌^◌};
ghost use Rattle.std.specs.Option.{SomeIff};
ghost use Rattle.vt_can.specs.frames.Identifier.{raw_of, parts_of, pgn_of, destination_of, HasDestination, addressed};

use std::marker::Model;

/// The 29-bit identifier of a frame.
#[derive(Clone, Copy, Default, PartialEq, Eq)]
pub struct CanId {
    raw: u32,
}

impl Model for CanId {
    ghost use Rattle.std.specs.Prelude.{ℕ, ◌<◌, ◌^◌};

    ghost Value = { ℕ };

    ghost view = { λ id. id.raw };

    ghost invariant = { λ id. id.raw < 2 ^ 29 };

    ghost inverse = { λ raw. record { raw = raw } };
}

impl CanId {
    /// Returns the identifier with a number, or `None` for a number above 1FFFFFFF (hex).
    pub fn from_raw(raw: u32) -> Option<CanId>
        ensures { SomeIff result (raw < 2 ^ 29) raw }
    {
        if raw < 1 << 29 {
            Some(CanId { raw })
        } else {
            None
        }
    }

    /// Returns the identifier of a frame from `source` to `destination`. The PDU format of its
    /// parameter group must be below 240, and the priority below 8.
    pub fn new(priority: u8, pgn: u32, destination: u8, source: u8) -> CanId
        requires priority { priority < 2 ^ 3 }
        requires group { HasDestination pgn }
        ensures raw { result ≡ raw_of (addressed priority pgn destination source) }
        ensures parts { parts_of result ≡ addressed priority pgn destination source }
    {
        let raw = u32::from(priority) << 26
            | pgn << 8
            | u32::from(destination) << 8
            | u32::from(source);
        CanId { raw }
    }

    /// The priority, from 0 (the most urgent) to 7.
    pub fn priority(self) -> u8
        ensures { result ≡ (parts_of self).priority }
    {
        (self.raw >> 26 & 7) as u8
    }

    /// The parameter group number. Its low byte is 0 in a frame with a destination.
    pub fn pgn(self) -> u32
        ensures { result ≡ pgn_of (parts_of self) }
    {
        let group = self.raw >> 8 & 0x3FFFF;
        if self.pdu_format() < 240 {
            group & 0x3FF00
        } else {
            group
        }
    }

    /// The source address.
    pub fn source(self) -> u8
        ensures { result ≡ (parts_of self).source }
    {
        (self.raw & 0xFF) as u8
    }

    /// The destination address, or `None` for a PDU format of 240 or more. `GLOBAL_ADDRESS` means
    /// all nodes.
    pub fn destination(self) -> Option<u8>
        ensures { result ≡ destination_of (parts_of self) }
    {
        (self.pdu_format() < 240).then_some((self.raw >> 8 & 0xFF) as u8)
    }

    /// The identifier as a number, at most 1FFFFFFF.
    pub fn raw(self) -> u32
        ensures value { result ≡ self }
        ensures fits { result < 2 ^ 29 }
    {
        self.raw
    }

    fn pdu_format(self) -> u8
        ensures { result ≡ (parts_of self).pdu_format }
    {
        (self.raw >> 16 & 0xFF) as u8
    }
}
