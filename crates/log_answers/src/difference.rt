//! Differences between what a recorded terminal sends and what this one sends.

use crate::said::Said;

/// A difference between what a recorded terminal sends and what this one sends.
#[derive(Drop)]
pub enum Difference {
    /// An answer with other bytes than its question.
    Differ {
        /// What this terminal sends.
        ours: Said,
        /// What the recorded terminal sent.
        theirs: Said,
    },
    /// This terminal sends a message that the recorded one did not send in time.
    OursAlone(Said),
    /// The recorded terminal sent a message that this one does not send.
    TheirsAlone(Said),
}
