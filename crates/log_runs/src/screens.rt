//! The screens of a replay: what the terminal shows after each line.

use crate::picture::picture_shown;
use check_needs::TERMINAL_SIZES;
use log_replay::{Turn, take};
use std::alloc::{AllocError, Global};
use std::{io, mem};
use vt_can::{Line, LineFault};
use vt_cli::JsonLine;
use vt_server::{Output, Terminal};

/// What a terminal shows in a replay.
#[derive(Drop)]
pub(crate) struct Screens {
    alloc: Global,
    terminal: Terminal,
    /// The text of the screen that was noted last.
    screen: Vec<u8>,
    /// The buffer for the next text.
    drawn: Vec<u8>,
    /// What the terminal sent at the last line.
    outputs: Vec<Output>,
}

impl Screens {
    /// Before the first line, with no screen noted. Does not allocate.
    pub(crate) fn new(alloc: Global, terminal: Terminal) -> Screens {
        Screens {
            alloc,
            terminal,
            screen: Vec::new(alloc),
            drawn: Vec::new(alloc),
            outputs: Vec::new(alloc),
        }
    }

    /// The terminal.
    pub(crate) fn terminal(&self) -> &Terminal {
        &self.terminal
    }

    /// What the terminal sent at the last line.
    pub(crate) fn outputs(&self) -> &[Output] {
        &self.outputs
    }

    /// Gives the input of a line to the terminal if it is its turn. Returns whether it had an input.
    pub(crate) fn take(
        &mut self,
        turn: Turn,
        reading: Result<Line<'_>, LineFault>,
    ) -> Result<bool, AllocError> {
        self.outputs.clear();
        take(turn, reading, &mut self.terminal, &mut self.outputs)
    }

    /// Notes the text of the screen, whatever it is.
    pub(crate) fn note(&mut self) -> io::Result<()> {
        let _ = self.note_new()?;
        Ok(())
    }

    /// Notes the text of the screen if the last step may have changed it. Returns whether it has changed.
    pub(crate) fn note_change(&mut self) -> io::Result<bool> {
        if !self.terminal.redraws() {
            return Ok(false);
        }
        self.note_new()
    }

    /// Notes the text of the screen. Returns whether it has changed.
    fn note_new(&mut self) -> io::Result<bool> {
        self.drawn.clear();
        self.terminal.screen(&mut self.drawn)?;
        if self.drawn == self.screen {
            return Ok(false);
        }
        mem::swap(&mut self.screen, &mut self.drawn);
        Ok(true)
    }

    /// The first line of the text that was noted last.
    pub(crate) fn head(&self) -> &[u8] {
        let end = self.screen.iter().position(|byte| *byte == b'\n');
        self.screen.get(..end.unwrap_or(0)).unwrap_or(&[])
    }

    /// The picture of what the terminal shows, as SVG. `None` if it shows no mask.
    pub(crate) fn picture(&self) -> Result<Option<Vec<u8>>, AllocError> {
        picture_shown(self.alloc, &self.terminal, TERMINAL_SIZES)
    }

    /// Adds what the terminal shows to a line of JSON: the first line of the text, the address of the set and the ID of its mask.
    pub(crate) fn put_shown(&self, line: &mut JsonLine) -> Result<(), AllocError> {
        let shown = self.terminal.shown();
        let live = shown.and_then(|address| self.terminal.set(address));
        line.put_number_if("mask", live.map(|live| u64::from(live.active_mask().raw())))?;
        line.put_bytes_if("screen", Some(self.head()))?;
        match shown {
            Some(address) => line.put_address("set", address),
            None => line.put_text_if("set", None::<&str>),
        }
    }
}
