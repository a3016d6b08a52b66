//! A terminal for hosts in other languages: calls with numbers and bytes, and the outputs and events that wait to be taken. A session has a
//! terminal, the outputs and events of its last input, and the text written last.
//!
//! - `session`: a session begins, receives frames, ticks, actions and texts of the operator, and ends.
//! - `preload`: a working set whose pool is there from the start.
//! - `outputs`: the outputs and then the events are taken one by one; the address claim and the status that a host sends.
//! - `screen`: the screen's text, and what a host asks of the terminal.
//! - `reading`: what a display reads: the working sets, their objects and their pictures.
//! - `dialog`: what a dialog for an input reads: its limits, its text, and the raw value of a typed number.
//! - `words`: the meaning of a frame in words.
//! - `status`: the statuses that the calls return.
//!
//! After a call that returns a status other than `DONE` the terminal is unchanged. There is one exception: if memory is refused for an
//! action at a time, the time may have advanced, with the outputs and events of the advance.
//!
//! The exported functions of C are in vt_terminal, and the lines of JSON in vt_service. Come here to ask what a call of a host does.
#![tactic(auto)]

pub mod dialog;
mod events;
pub mod outputs;
pub mod preload;
pub mod reading;
pub mod screen;
pub mod session;
pub mod status;
pub mod words;

pub use session::Session;
