//! The seconds of a log.

ghost use Rattle.std.specs.Prelude.{◌≡◌, ◌≤◌, ℕ, List, [], ◌∷◌, OnOk, MatchOption};
ghost use Rattle.log_stats.specs.Seconds.{Sent, start_of, begin_of, busier, HasCounted, IsBusiest, IsFirstMost};

use log_traffic::{Counts, Percent, Seconds, load_of};
use std::alloc::{AllocError, Global};
use std::fmt;
use std::io::{self, Write};
use vt_cli::{Cell, put_line};
use vt_frames_text::Count;

/// The microseconds of a second.
const SECOND: u64 = 1_000_000;

/// A second in which a frame was sent. Seconds are counted from the time of the first frame.
#[derive(Clone, Copy)]
pub struct BusySecond {
    /// Where it begins, in microseconds.
    pub start: u64,
    /// The counts of its frames.
    pub counts: Counts,
}

impl BusySecond {
    /// The load of a bus of 250 kbit/s in the whole second, without stuff bits, in tenths of a percent.
    pub fn load(&self) -> u64 {
        load_of(self.counts.bits, SECOND).unwrap_or_default()
    }

    /// Writes it as a line of JSON of this `"kind"`.
    fn put_json<W: Write>(&self, alloc: Global, kind: &str, out: &mut W) -> io::Result<()> {
        let members = [
            ("bits", Cell::Number(self.counts.bits)),
            ("frames", Cell::Number(self.counts.frames)),
            ("kind", Cell::Text(kind)),
            ("load", Cell::Number(self.load())),
            ("start", Cell::Number(self.start)),
        ];
        put_line(alloc, &members, out)
    }
}

impl fmt::Display for BusySecond {
    fn fmt<W: fmt::Write>(&self, f: &mut fmt::Formatter<W>) -> fmt::Result {
        let start = Seconds(self.start);
        let frames = Count(self.counts.frames, "frame");
        let load = Percent(self.load());
        writeln!(
            f,
            "busiest second: from {start} on, {frames}, at least {load}"
        )
    }
}

/// The seconds of a log in which a frame was sent, the earliest first. The memory grows with their number.
#[derive(Drop)]
pub struct BusySeconds {
    /// The seconds.
    pub seconds: Vec<BusySecond>,
}

impl BusySeconds {
    /// No seconds. Does not allocate.
    pub(crate) fn new(alloc: Global) -> BusySeconds
        ensures { HasCounted [] 0 result.seconds.items }
    {
        BusySeconds {
            seconds: Vec::new(alloc),
        }
    }

    /// Counts a frame with so many bytes of data, whose time is no earlier than that of the frame before.
    pub(crate) fn take(&mut self, time: u64, length: usize) -> Result<(), AllocError>
        ensures { OnOk result ((frames : List Sent) (latest : ℕ) → latest ≤ time → HasCounted frames latest self.old.seconds.items
            → HasCounted (record { time = time; length = length } ∷ frames) time self.new.seconds.items) }
    {
        let start = self.start_at(time);
        if let Some(last) = self.seconds.last_mut() {
            if last.start == start {
                last.counts.add_frame(length);
                return Ok(());
            }
        }
        let mut counts = Counts::default();
        counts.add_frame(length);
        self.seconds.push(BusySecond { start, counts })?;
        Ok(())
    }

    /// Writes a line of JSON for the busiest second, and one for each second.
    pub(crate) fn put_json<W: Write>(&self, alloc: Global, out: &mut W) -> io::Result<()> {
        if let Some(busiest) = self.busiest() {
            busiest.put_json(alloc, "busiest_second", out)?;
        }
        for second in self.seconds.iter() {
            second.put_json(alloc, "second", out)?;
        }
        Ok(())
    }

    /// Where the second of a time begins.
    fn start_at(&self, time: u64) -> u64
        ensures { result ≡ start_of (begin_of self.now.seconds.items time) time }
    {
        let first = self.seconds.first().map_or(time, |first| first.start);
        let since = time.saturating_sub(first);
        time.saturating_sub(since % SECOND)
    }

    /// The second with the most bits, the first of them if several have as many. `None` if there is no frame.
    pub(crate) fn busiest(&self) -> Option<BusySecond>
        ensures first { MatchOption result (self.now.seconds.items ≡ []) (IsFirstMost self.now.seconds.items) }
        ensures busiest { (frames : List Sent) (latest : ℕ) → HasCounted frames latest self.now.seconds.items
            → MatchOption result (frames ≡ []) (IsBusiest frames) }
    {
        let mut busiest = None;
        for second in self.seconds.iter() {
            busiest = Some(busier(busiest, *second));
        }
        busiest
    }
}

/// The one with more bits of two seconds, or the first if they have as many.
fn busier(first: Option<BusySecond>, second: BusySecond) -> BusySecond
    ensures { result ≡ busier first second }
{
    match first {
        Some(first) if first.counts.bits >= second.counts.bits => first,
        _ => second,
    }
}
