//! Counts the frames of a log.

ghost use Rattle.std.specs.Prelude.{◌≡◌, ℕ, List, OnOk, IfOk, None, []};
ghost use Rattle.vt_can.specs.declared.frames.frame.Frame.{Frame as CanFrame};
ghost use Rattle.log_listen.specs.Listeners.{IsAnswer};
ghost use Rattle.log_traffic.specs.Counted.{nothing};
ghost use Rattle.log_traffic.specs.Reports.{IsReportOn};
ghost use Rattle.log_traffic.specs.Traffics.{counts_from, total_of, twice_of, CountsFrame, HasTaken, HasSighted};

use crate::counts::Counts;
use crate::load::load_of;
use crate::report::TrafficReport;
use crate::sightings::Sightings;
use crate::sources::Sources;
use crate::span::FrameSpan;
use crate::transfers::TransferCounter;
use log_listen::SentMessage;
use std::alloc::{AllocError, Global};
use vt_can::Frame;

/// Counts the frames of a log and its transfers.
///
/// The memory grows with the number of channels whose last request has not led to a whole message, and with the packets of the open
/// transfers.
#[derive(Drop)]
pub struct Traffic {
    sources: Sources,
    span: Option<FrameSpan>,
    transfers: TransferCounter,
    sightings: Sightings,
}

impl Traffic {
    /// No frames. Does not allocate.
    pub fn new(alloc: Global) -> Traffic
        ensures sources { (source : ℕ) → counts_from result source ≡ nothing }
        ensures total { total_of result ≡ nothing }
        ensures span { result.span ≡ None }
        ensures taken { HasTaken [] result }
        ensures sighted { HasSighted [] result }
        ensures whole { result.transfers.counted.whole ≡ 0 }
        ensures broken { result.transfers.counted.broken ≡ 0 }
        ensures twice { twice_of result ≡ 0 }
    {
        Traffic {
            sources: Sources::new(alloc),
            span: None,
            transfers: TransferCounter::new(alloc),
            sightings: Sightings::new(alloc),
        }
    }

    /// Counts the frame of a line of the log, at a time in microseconds. A time before that of an earlier frame counts as the latest so
    /// far. Returns the message in packets that the frame completes, if it completes one. After `OutOfMemory` the counts are of no more use.
    pub fn take(
        &mut self,
        line: u64,
        time: u64,
        frame: &Frame,
    ) -> Result<Option<SentMessage>, AllocError>
        ensures counted { OnOk result (CountsFrame line time self.old self.new frame.now) }
        ensures answer { IfOk result (λ sent. (frames : List CanFrame) → HasTaken frames self.old → IsAnswer frames frame.now sent) }
    {
        self.sources.add_frame(frame.id.source(), frame.bytes.len());
        let span = FrameSpan::with_frame_at(line, time, self.span);
        self.span = Some(span);
        self.sightings.take(span.last_time, frame)?;
        let sent = self.transfers.take(line, span.last_time, frame)?;
        Ok(sent)
    }

    /// The counts of what a source has sent.
    pub fn counts_from(&self, source: u8) -> Counts
        ensures { result ≡ counts_from self.now source }
    {
        self.sources.counts_from(source)
    }

    /// The counts of what all sources have sent.
    pub fn total(&self) -> Counts
        ensures { result ≡ total_of self.now }
    {
        self.sources.total
    }

    /// The report on the frames that were counted so far. `OutOfMemory` if an allocation is refused.
    pub fn report(&self) -> Result<TrafficReport, AllocError>
        ensures { IfOk result (IsReportOn self.now) }
    {
        let span = self.span.unwrap_or_default();
        let microseconds = span.last_time.saturating_sub(span.first_time);
        Ok(TrafficReport {
            first_line: span.first_line,
            last_line: span.last_line,
            first_time: span.first_time,
            last_time: span.last_time,
            total: self.sources.total,
            load: load_of(self.sources.total.bits, microseconds),
            shares: self.sources.shares(microseconds)?,
            transfers: self.transfers.report(),
            seen_twice: self.sightings.seen_twice(),
        })
    }
}
