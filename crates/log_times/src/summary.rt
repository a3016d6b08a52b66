//! The least, the middle and the greatest of some times.

ghost use Rattle.std.specs.Prelude.{◌≡◌, [], IfOk, MatchOption};
ghost use Rattle.log_times.specs.Summaries.{IsSummaryOf, IsSummaryOfRising};

use std::alloc::{AllocError, Global};

/// The least, the middle and the greatest of some times, in microseconds.
#[derive(Clone, Copy, PartialEq, Eq)]
pub struct TimeSummary {
    /// How many times there are.
    pub count: u64,
    /// The least.
    pub least: u32,
    /// The one in the middle. If there are two, half of their sum, rounded down.
    pub median: u32,
    /// The greatest.
    pub greatest: u32,
}

/// The summary of some times. `None` if there are none.
pub(crate) fn summary_of(alloc: Global, times: &[u32]) -> Result<Option<TimeSummary>, AllocError>
    ensures { IfOk result (λ summary. MatchOption summary (times.now ≡ []) (IsSummaryOf times.now)) }
{
    let mut sorted = Vec::from_slice(alloc, times)?;
    sorted.sort_unstable();
    Ok(summary_of_sorted(sorted.as_slice()))
}

/// The summary of times in rising order. `None` if there are none.
fn summary_of_sorted(times: &[u32]) -> Option<TimeSummary>
    ensures { MatchOption result (times.now ≡ []) (IsSummaryOfRising times.now) }
{
    let low = *times.get(times.len().checked_sub(1)? / 2)?;
    let high = *times.get(times.len() / 2)?;
    Some(TimeSummary {
        count: times.len() as u64,
        least: *times.first()?,
        median: ((u64::from(low) + u64::from(high)) / 2) as u32,
        greatest: *times.last()?,
    })
}
