//! Serves a terminal by lines: requests and answers in JSON. docs/LIVE.md has the requests and the answers.
//!
//! - `serve` serves a line for a `Session` and appends the lines of its answer: the outputs and events, and then the answer itself.
//! - `Request` is what a line asks for: a `Command` for the terminal, or a `Question` about it. `Malformed` is why a line is no request.
//!
//! What each request does is in vt_session, and the streams are opened in vt_live. Come here to ask which requests `vt_live` reads, and how
//! it answers.
#![tactic(auto)]

mod answers;
mod asking;
mod cells;
mod commands;
mod events;
mod members;
mod outputs;
mod profile;
mod reading;
mod request;
mod service;

pub use members::{Malformed, Member};
pub use request::{ActKind, Command, CommandKind, Question, QuestionKind, Request, RequestKind};
pub use service::{new_session, serve};
