//! The numbers of answers, by sort.

/// How many messages were compared, by the result, and how many were not.
#[derive(Clone, Copy, Default, PartialEq, Eq)]
pub struct Tally {
    /// Answers that equal their questions.
    pub same: u64,
    /// Answers with other bytes than their questions.
    pub differ: u64,
    /// Questions without an answer in time.
    pub ours_alone: u64,
    /// Answers without a question.
    pub theirs_alone: u64,
    /// Frames of both terminals that were not compared: transport control and packets, claims, other parameter groups.
    pub not_compared: u64,
}

/// Counts one more, up to the highest number.
pub(crate) fn count(number: &mut u64) {
    *number = number.saturating_add(1);
}
