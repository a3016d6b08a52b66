//! The counts of a comparison.

use log_answers::Difference;
use std::alloc::{AllocError, Global};
use std::collections::BTreeMap;

/// How many differences there were, by what became of them.
#[derive(Drop)]
pub(crate) struct DifferenceCounts {
    /// Answers with other bytes than their questions.
    pub(crate) differ: u64,
    /// Questions without an answer in time.
    pub(crate) ours_alone: u64,
    /// Answers without a question.
    pub(crate) theirs_alone: u64,
    /// Differences that the options do not select.
    pub(crate) ignored: u64,
    /// What is left out, by function.
    pub(crate) left_out: BTreeMap<u8, u64>,
}

impl DifferenceCounts {
    /// No differences. Allocates nothing.
    pub(crate) fn new(alloc: Global) -> DifferenceCounts {
        DifferenceCounts {
            differ: 0,
            ours_alone: 0,
            theirs_alone: 0,
            ignored: 0,
            left_out: BTreeMap::new(alloc),
        }
    }

    /// Counts a difference that is reported.
    pub(crate) fn count(&mut self, difference: &Difference) {
        let number = match difference {
            Difference::Differ { .. } => &mut self.differ,
            Difference::OursAlone(_) => &mut self.ours_alone,
            Difference::TheirsAlone(_) => &mut self.theirs_alone,
        };
        *number = number.saturating_add(1);
    }

    /// Counts a difference that the options do not select.
    pub(crate) fn count_ignored(&mut self) {
        self.ignored = self.ignored.saturating_add(1);
    }

    /// Counts a difference on a function that is left out. After an error it is not counted.
    pub(crate) fn count_left_out(&mut self, function: u8) -> Result<(), AllocError> {
        let number = self.left_out.get(&function).copied().unwrap_or(0);
        self.left_out.insert(function, number.saturating_add(1))?;
        Ok(())
    }
}
