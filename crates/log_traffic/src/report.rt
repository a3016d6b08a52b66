//! The traffic of a log, in words.

use crate::counts::Counts;
use crate::load::Percent;
use crate::moment::Seconds;
use crate::transfers::Transfers;
use std::fmt;
use vt_frames_text::Count;

/// What a source has sent, and its part of the load.
#[derive(Clone, Copy)]
pub struct Share {
    /// The address.
    pub source: u8,
    /// The counts of what the source has sent.
    pub counts: Counts,
    /// The load of a bus of 250 kbit/s by the source, without stuff bits, in tenths of a percent. `None` if the first and the last frame of
    /// the log have the same time.
    pub load: Option<u64>,
}

/// The traffic of a log in numbers. Its `Display` writes a line for the log, one for its load, one for each source, and those of transfers
/// and of frames that were seen twice.
#[derive(Drop)]
pub struct TrafficReport {
    /// The number of the line of the first frame. 0 if there is no frame.
    pub first_line: u64,
    /// The number of the line of the last frame. 0 if there is no frame.
    pub last_line: u64,
    /// The time of the first frame, in microseconds.
    pub first_time: u64,
    /// The latest time, in microseconds.
    pub last_time: u64,
    /// The counts of what all sources have sent.
    pub total: Counts,
    /// The load of a bus of 250 kbit/s by all sources, without stuff bits, in tenths of a percent. `None` if the first and the last frame
    /// have the same time.
    pub load: Option<u64>,
    /// The share of each source, by rising addresses.
    pub shares: Vec<Share>,
    /// The counts of the transfers.
    pub transfers: Transfers,
    /// The number of frames that equal one of the 63 frames before them, by identifier and data, and are at most a millisecond later, such
    /// as when two interfaces record one bus.
    pub seen_twice: u64,
}

impl fmt::Display for Share {
    fn fmt<W: fmt::Write>(&self, f: &mut fmt::Formatter<W>) -> fmt::Result {
        let source = self.source;
        let Counts { frames, bytes, .. } = self.counts;
        let frames = Count(frames, "frame");
        write!(f, "{source:02X}: {frames}, {}", Count(bytes, "byte"))?;
        match self.load {
            Some(load) => write!(f, ", at least {}", Percent(load)),
            None => Ok(()),
        }
    }
}

impl fmt::Display for Transfers {
    fn fmt<W: fmt::Write>(&self, f: &mut fmt::Formatter<W>) -> fmt::Result {
        let Transfers {
            whole,
            broken,
            unended,
            repeated_packets,
            longest,
        } = *self;
        write!(
            f,
            "transfers: {whole} whole, {broken} broken off, {unended} not ended, {} again",
            Count(repeated_packets, "packet")
        )?;
        if let Some(longest) = longest {
            let time = Seconds(longest.time);
            let source = longest.source;
            let destination = longest.destination;
            let bytes = Count(longest.bytes, "byte");
            let line = longest.line;
            write!(
                f,
                "\nlongest transfer: {time} s for {bytes} of {source:02X} to {destination:02X}, from line {line} on"
            )?;
        }
        Ok(())
    }
}

impl fmt::Display for TrafficReport {
    fn fmt<W: fmt::Write>(&self, f: &mut fmt::Formatter<W>) -> fmt::Result {
        let Counts { frames, bytes, .. } = self.total;
        if frames == 0 {
            return writeln!(f, "no frames");
        }
        let first_time = Seconds(self.first_time);
        let last_time = Seconds(self.last_time);
        let span = Seconds(self.last_time.saturating_sub(self.first_time));
        writeln!(
            f,
            "{}, {}, from {first_time} to {last_time}: {span} s",
            Count(frames, "frame"),
            Count(bytes, "byte")
        )?;
        if let Some(load) = self.load {
            writeln!(f, "bus load at 250 kbit/s: at least {}", Percent(load))?;
        }
        for share in self.shares.iter() {
            writeln!(f, "  {share}")?;
        }
        writeln!(f, "{}", self.transfers)?;
        writeln!(f, "seen twice: {}", Count(self.seen_twice, "frame"))
    }
}
