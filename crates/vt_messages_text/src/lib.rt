//! Messages between implements and terminals in words, with the names of objects.
//!
//! A `Sentence` is what a frame says: a command with its fields, a reply with the meaning of its error bits, each object by its kind,
//! its ID and its name. An `AddressedSentence` begins with the addresses of its frame. A `MessageSentence` is what a message says,
//! whether it was sent in a frame or in packets. Each is written by its `Display`, which fails only if the writer fails.
//!
//! The words that name no object, such as those of the transport protocols and of claims, are in vt_frames_text.
//!
//! Come here to ask how a command, a reply or a message about the operator is told. docs/PROFILE.md, "Commands" and "Other messages", has
//! the messages.
#![tactic(auto)]

mod commands;
mod error_bits;
mod objects;
mod replies;
mod requests;
mod sentence;
mod told;

pub use sentence::{AddressedSentence, MessageSentence, Sentence};
