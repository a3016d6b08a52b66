//! Compares the answers of a recorded terminal with those of this terminal to the same log.
//!
//! - A `Comparison` processes the lines of a log in order. The messages that this terminal sends at a line are questions: the recorded
//!   terminal is expected to send them too. The messages that the recorded terminal sent are answers. An answer belongs to the oldest
//!   open question on its `Topic`, if it follows within the wait.
//! - `Comparison::take_line` and `Comparison::end` list the `Difference`s: answers with other bytes than their questions, questions
//!   without an answer, and answers without a question.
//! - `laws` has the theorem that a log has no differences exactly if each question has an equal answer in time, and each answer a question.
//!
//! How a difference is printed is in log_compare. Come here to ask when an answer of the recorded terminal counts as the same.
//!
//! docs/PROFILE.md, "Answers", has the rules.
#![tactic(auto)]

mod comparison;
mod difference;
pub mod laws;
mod open;
mod recorded;
mod said;
mod tally;
mod topic;

pub use comparison::Comparison;
pub use difference::Difference;
pub use said::Said;
pub use tally::Tally;
pub use topic::Topic;
