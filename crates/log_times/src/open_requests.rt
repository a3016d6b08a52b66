//! Requests without an answer so far.

use std::alloc::{AllocError, Global};
use std::collections::VecDeque;

/// The most microseconds from a request to its answer.
const LONGEST_WAIT: u64 = 1_500_000;

/// The times of the requests about one subject that have no answer so far, in microseconds, the oldest first.
#[derive(Drop)]
pub(crate) struct OpenRequests {
    times: VecDeque<u64>,
}

impl OpenRequests {
    /// No requests. Does not allocate.
    pub(crate) fn new(alloc: Global) -> OpenRequests {
        OpenRequests {
            times: VecDeque::new(alloc),
        }
    }

    /// Opens a request.
    pub(crate) fn ask(&mut self, time: u64) -> Result<(), AllocError> {
        self.times.push_back(time)?;
        Ok(())
    }

    /// Removes the requests for which an answer at a time would be too late, and returns their number.
    pub(crate) fn expire(&mut self, time: u64) -> u64 {
        let mut overdue = 0_u64;
        while let Some(asked) = self.times.front() {
            if time.saturating_sub(*asked) <= LONGEST_WAIT {
                break;
            }
            let _removed = self.times.pop_front();
            overdue = overdue.saturating_add(1);
        }
        overdue
    }

    /// Removes the oldest request, and returns the microseconds from it to its answer at a time. `None` if no request is open.
    pub(crate) fn answer(&mut self, time: u64) -> Option<u32> {
        let asked = self.times.pop_front()?;
        Some(u32::try_from(time.saturating_sub(asked)).unwrap_or(u32::MAX))
    }

    /// The number of requests for which an answer at a time would be too late.
    pub(crate) fn overdue(&self, time: u64) -> u64 {
        let overdue = self
            .times
            .iter()
            .filter(|asked| time.saturating_sub(**asked) > LONGEST_WAIT);
        overdue.count() as u64
    }
}
