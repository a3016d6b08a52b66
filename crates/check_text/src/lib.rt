//! Findings and warnings about a pool as lines for people and for GitHub.
//!
//! - `Names` are the names of objects, from files of lines `ID,NAME` or from headers in C.
//! - A `CheckedPool` is an inspected pool with its path and its names. `CheckedPool::message` returns the `ItemLine` of an `Item`: the
//!   offset in the file, the severity, the code, and a sentence with the cause.
//! - An `ItemLine` writes its line for people by `Display`, in a `MessageStyle` by `put_message`, and for GitHub by `GithubLine`.
//! - `is_read` says whether all bytes of a pool were read, and tells from where on they were not.
//! - `circle_in` is the part of a chain of inclusions that its sentence shows.
//! - `items_of` returns the errors and warnings of a pool in the order of their lines, without warnings that cannot be judged, and
//!   `summary_of` their counts. `Totals` are those of several pools.
//!
//! It finds nothing itself: findings are those of check_inspect, and warnings those of check_needs and check_values. Lines of JSON are in
//! check_json.
//!
//! Come here to ask what a line of `segyolant check` says, and which lines there are. docs/POOLS.md has the codes.
#![tactic(auto)]

mod checked_pool;
mod circles;
mod codes;
mod colour;
mod command_text;
mod events;
mod fault_sentences;
mod github;
mod item;
mod items;
mod kinds_text;
mod label;
mod message;
mod name_line;
mod names;
mod sentences;
mod spot;
mod style;
mod summary;
mod totals;
mod types;
mod unread;
mod value_sentences;
mod variables;
mod warning_sentences;

pub use checked_pool::{CheckedPool, warning_object};
pub use circles::circle_in;
pub use codes::{Code, code_of, is_code};
pub use command_text::CommandText;
pub use events::event_name;
pub use github::GithubLine;
pub use item::Item;
pub use items::items_of;
pub use label::Label;
pub use message::{ItemLine, Severity, severity_of};
pub use names::{LinesWithoutId, Names, NamesRead};
pub use spot::SpotText;
pub use style::{MessageStyle, put_message};
pub use summary::{Summary, summary_of};
pub use totals::Totals;
pub use unread::{is_read, is_whole};
