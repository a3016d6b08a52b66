//! Terminals and their inputs, for the other modules.

use std::alloc::{AllocError, Global};
use std::process::Abort;
use std::test::Fail;
use vt_can::{Frame, Line, parse_line, write_frame};
use vt_names::Name;
use vt_node::Profile;
use vt_pool::{Pool, read_pool};
use vt_server::*;
use vt_verify::{Accepted, verify};

pub(super) const OWN: u8 = 0x26;

pub(super) const NAME: u64 = 0x2000_1D00_0000_0001;

/// The Working Set 0, its Data Mask 1000, and in it the Container 100.
pub(super) const POOL: &[u8] = &[
    0, 0, 0, 0, 1, 0xE8, 3, 0, 0, 0, // the Working Set
    0xE8, 3, 1, 0, 0xFF, 0xFF, 1, 0, 100, 0, 10, 0, 5, 0, // the Data Mask
    100, 0, 3, 50, 0, 20, 0, 0, 0, 0, // the Container
];

/// Reads and verifies a pool. An error is refused memory or a refused pool.
pub(super) fn accepted_pool(alloc: Global, bytes: &[u8]) -> Result<Accepted, AllocError> {
    match read_pool(alloc, bytes) {
        Ok(pool) => verified(alloc, &pool),
        Err(_) => Err(AllocError),
    }
}

fn verified(alloc: Global, pool: &Pool<'_>) -> Result<Accepted, AllocError> {
    match verify(alloc, pool) {
        Ok(accepted) => Ok(accepted),
        Err(_) => Err(AllocError),
    }
}

/// A terminal without a set.
pub(super) fn terminal(rt: &impl AllocGlobal, profile: Profile) -> Terminal {
    Terminal::new_with(rt.alloc(), OWN, Name::from_raw(NAME), profile)
}

/// A terminal with a set at 80 that has the pool of these bytes.
pub(super) fn preloaded(rt: &impl AllocGlobal, bytes: &[u8]) -> Result<Terminal, Fail> {
    let accepted = accepted_pool(rt.alloc(), bytes)?;
    let mut terminal = Terminal::new(rt.alloc(), OWN, Name::from_raw(NAME));
    terminal.preload(0x80, &accepted)?;
    Ok(terminal)
}

/// The input of a line of a log.
pub(super) fn input_of(line: &[u8]) -> Result<Input<'_>, Fail> {
    match parse_line(line) {
        Ok(Line::Frame { time, frame }) => Ok(Input::Frame { time, frame }),
        Ok(Line::Operator(action)) => Ok(Input::Operator(action)),
        _ => Err(Fail::new("no input")),
    }
}

/// Expects these frames.
pub(super) fn expect_sent(rt: &(impl Abort + AllocGlobal), outputs: &[Output], sent: &[&str]) {
    assert_eq!(rt; outputs.len(), sent.len(), "{sent:?}");
    for (output, wanted) in outputs.iter().zip(sent) {
        match output {
            Output::Frame(frame) => expect_frame(rt, frame, wanted),
            Output::Refused(_) => assert!(rt; false, "a refusal"),
        }
    }
}

pub(super) fn expect_frame(rt: &(impl Abort + AllocGlobal), frame: &Frame, text: &str) {
    assert_eq!(rt; write_frame(frame).as_slice(), text.as_bytes(), "{text}");
}
