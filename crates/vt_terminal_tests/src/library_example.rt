//! A whole caller of the terminal: a working set with a pool, a frame of its implement, a key pressed by the operator, the frames sent,
//! and the screen. docs/LIBRARY.md explains the code.

use super::terminal::{POOL, accepted_pool};
use arrayvec::ArrayVec;
use std::alloc::Global;
use std::test::Fail;
use vt_can::{Action, CanId, Frame, write_frame};
use vt_names::Name;
use vt_server::{Input, Output, Terminal};
use vt_verify::Accepted;

/// The address of the terminal.
const TERMINAL: u8 = 0x26;

const IMPLEMENT: u8 = 0x80;

/// The parameter group of messages from an implement to the terminal.
const ECU_TO_VT: u32 = 0xE700;

/// Hide/Show of object 100, with the state hidden.
const HIDE_CONTAINER: [u8; 8] = [0xA0, 100, 0, 0, 0xFF, 0xFF, 0xFF, 0xFF];

/// What is sent, a refusal of the operator, and the screen.
const TEXT: &[u8] = b"14E68026#A064000000FFFFFF\nthe object is not shown\nscreen 80 mask 1000\n";

/// Lets a terminal with a pool take a frame and an action, and appends what it sends and its screen to a text.
fn take(alloc: Global, pool: &Accepted, text: &mut Vec<u8>) -> Result<(), Fail> {
    // The set at the implement's address has the pool from the start. Without this an implement uploads its own.
    let mut terminal = Terminal::new(alloc, TERMINAL, Name::from_raw(0x2000_1D00_0000_0001));
    terminal.preload(IMPLEMENT, pool)?;

    let inputs = [
        // At 1.5 seconds; the operator's actions have no time.
        Input::Frame {
            time: 1_500_000,
            frame: command(&HIDE_CONTAINER),
        },
        Input::Operator(Action::Press(400)),
    ];
    let mut outputs = Vec::new(alloc);
    terminal.run(&inputs, &mut outputs)?;
    for output in &outputs {
        write_output(output, text)?;
    }
    if terminal.redraws() {
        terminal.screen(text)?;
    }
    Ok(())
}

/// A frame from the implement to the terminal.
fn command(bytes: &[u8; 8]) -> Frame {
    Frame {
        id: CanId::new(5, ECU_TO_VT, TERMINAL, IMPLEMENT),
        bytes: ArrayVec::from(*bytes),
    }
}

/// Writes an output: a frame for the bus, or a refusal for the operator.
fn write_output(output: &Output, text: &mut Vec<u8>) -> Result<(), Fail> {
    match output {
        Output::Frame(frame) => {
            text.extend_from_slice(write_frame(frame).as_slice())?;
            text.push(b'\n')?;
        }
        Output::Refused(fault) => {
            let sentence = format!(in *text.allocator(); "{fault}\n")?;
            text.extend_from_slice(sentence.as_bytes())?;
        }
    }
    Ok(())
}

#[test]
fn library_example(rt: HostRuntime) -> Result<(), Fail> {
    let pool = accepted_pool(rt.alloc(), POOL)?;
    let mut text = Vec::new(rt.alloc());
    take(rt.alloc(), &pool, &mut text)?;
    assert_eq!(rt; text.as_slice(), TEXT);
    Ok(())
}
