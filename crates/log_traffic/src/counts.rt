//! The counts of what a source has sent.

ghost use Rattle.std.specs.Prelude.{◌≡◌};
ghost use Rattle.log_traffic.specs.Counted.{with_frame};

/// The bits of a frame without data, with an identifier of 29 bits and without stuff bits: start 1, identifier 29, SRR, IDE, RTR, r1 and
/// r0 5, length 4, checksum 15 and its delimiter 1, acknowledgement 2, end 7, gap 3.
const EMPTY_FRAME_BITS: u64 = 67;

/// The frames, bytes and bits that were sent. A count that would not fit stays at `u64::MAX`.
#[derive(Clone, Copy, Default, PartialEq, Eq)]
pub struct Counts {
    /// The number of frames.
    pub frames: u64,
    /// The number of bytes of data in the frames.
    pub bytes: u64,
    /// The least number of bits that the frames take on the bus: stuff bits are not counted.
    pub bits: u64,
}

impl Counts {
    /// Counts a frame with so many bytes of data.
    pub fn add_frame(&mut self, length: usize)
        ensures { self.new ≡ with_frame self.old length }
    {
        let bytes = length as u64;
        let bits = bytes.saturating_mul(8).saturating_add(EMPTY_FRAME_BITS);
        self.frames = self.frames.saturating_add(1);
        self.bytes = self.bytes.saturating_add(bytes);
        self.bits = self.bits.saturating_add(bits);
    }
}
