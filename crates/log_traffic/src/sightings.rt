//! Frames that were seen twice.

ghost use Rattle.std.specs.Prelude.{◌≡◌, ◌<◌, ◌≤◌, ◌-◌, ℕ, List, [], ◌∷◌, ◌++◌, length, slice_index_or, cond, OnOk};
ghost use Rattle.std.specs.List.{list_any};
ghost use Rattle.log_traffic.specs.Counted.{more};

use std::alloc::{AllocError, Global};
use std::collections::VecDeque;
use vt_can::{CanId, Frame};

/// The most microseconds between a frame and the same frame before it.
const MOST_APART: u64 = 1000;

/// The most frames before a frame among which it is looked for. A bus of 250 kbit/s carries at most four frames in a millisecond.
const MOST_BEFORE: usize = 63;

/// A frame and its time, in microseconds.
#[derive(Clone, Copy)]
struct Sighting {
    time: u64,
    id: CanId,
    /// The number of bytes of data.
    length: usize,
    /// The data, and zeros behind it.
    padded: [u8; 8],
}

impl Sighting {
    ghost use Rattle.log_traffic.specs.Sightings.{sighting_of, is_same};

    fn of_frame(time: u64, frame: &Frame) -> Sighting
        ensures { result ≡ sighting_of time frame.now }
    {
        let bytes = frame.bytes.as_slice();
        let mut padded = [0; 8];
        padded[..bytes.len()].copy_from_slice(bytes);
        Sighting {
            time,
            id: frame.id,
            length: bytes.len(),
            padded,
        }
    }

    /// Whether two frames have the same identifier and the same data.
    fn is_same(&self, other: &Sighting) -> bool
        ensures { result ≡ is_same self.now other.now }
    {
        // (the first bytes are looked at first: those of packets are their numbers)
        self.padded[0] == other.padded[0]
            && self.id == other.id
            && self.length == other.length
            && self.padded == other.padded
    }

    /// Whether one of some frames is the same as this one.
    fn is_among(&self, frames: &[Sighting]) -> bool
        ensures { result ≡ list_any (λ other. is_same other self.now) frames.now }
    {
        frames.iter().any(|other| other.is_same(self))
    }
}

/// The last frames, of a millisecond at most, and how many frames were seen twice.
#[derive(Drop)]
pub(crate) struct Sightings {
    recent: VecDeque<Sighting>,
    seen_twice: u64,
}

impl Sightings {
    ghost use Rattle.log_traffic.specs.Sightings.{sighting_of, is_same, is_seen_twice, HasSeen, AreLeft};

    /// No frames. Does not allocate.
    pub(crate) fn new(alloc: Global) -> Sightings
        ensures seen { HasSeen [] 0 result }
        ensures count { result.seen_twice ≡ 0 }
    {
        Sightings {
            recent: VecDeque::new(alloc),
            seen_twice: 0,
        }
    }

    /// How many frames were the same as one of the last frames before them.
    pub(crate) fn seen_twice(&self) -> u64
        ensures { result ≡ self.now.seen_twice }
    {
        self.seen_twice
    }

    /// Takes a frame, whose time is no earlier than that of the frame before.
    pub(crate) fn take(&mut self, time: u64, frame: &Frame) -> Result<(), AllocError>
        ensures seen { OnOk result ((taken : List Sighting) (latest : ℕ) → latest ≤ time → HasSeen taken latest self.old
            → HasSeen (taken ++ sighting_of time frame.now ∷ []) time self.new) }
        ensures counted { OnOk result ((taken : List Sighting) (latest : ℕ) → latest ≤ time → HasSeen taken latest self.old
            → self.new.seen_twice ≡ cond (is_seen_twice taken (sighting_of time frame.now)) (more self.old.seen_twice 1) self.old.seen_twice) }
    {
        self.forget_before(time);
        let sighting = Sighting::of_frame(time, frame);
        if self.has(&sighting) {
            self.seen_twice = self.seen_twice.saturating_add(1);
        }
        self.recent.push_back(sighting)?;
        Ok(())
    }

    /// Whether one of the last frames is the same as a frame.
    fn has(&self, sighting: &Sighting) -> bool
        ensures { result ≡ list_any (λ other. is_same other sighting.now) self.now.recent.items }
    {
        let (earlier, later) = self.recent.as_slices();
        sighting.is_among(earlier) || sighting.is_among(later)
    }

    /// Removes the frames that are too old for a frame at a time, and makes room for it.
    fn forget_before(&mut self, time: u64)
        ensures left { AreLeft time self.old.recent.items self.new.recent.items }
        ensures few { length self.new.recent.items ≤ 63 }
        ensures first { (d : Sighting) → 0 < length self.new.recent.items → time - (slice_index_or self.new.recent.items 0 d).time ≤ 1000 }
        ensures count { self.new.seen_twice ≡ self.old.seen_twice }
    {
        while let Some(oldest) = self.recent.front() {
            let is_recent = time.saturating_sub(oldest.time) <= MOST_APART;
            if is_recent && self.recent.len() <= MOST_BEFORE {
                break;
            }
            let _forgotten = self.recent.pop_front();
        }
    }
}
