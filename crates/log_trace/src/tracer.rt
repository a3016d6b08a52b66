//! The trace of a log.

ghost use Rattle.std.specs.Prelude.{◌≡◌, ◌++◌, List, ℕ, false, IfOk, OnOk};
ghost use Rattle.vt_can.specs.lines.Readings.{FrameAt, parsed, reading_of};
ghost use Rattle.vt_logs.specs.LineEffects.{input_line};
ghost use Rattle.vt_server.specs.States.{state_of};
ghost use Rattle.vt_server.specs.Terminals.{State};
ghost use Rattle.vt_server.specs.shown.Screens.{IsScreenOf, KeepsScreen, redraws};
ghost use Rattle.log_trace.specs.Changes.{AreScreenChanges};
ghost use Rattle.log_trace.specs.Lines.{Gains};
ghost use Rattle.log_trace.specs.Traces.{IsHead, TracesInput, TracesLine, screen_in};

use crate::changes::put_changes;
use crate::heads::{ActionHead, FrameHead, put_head, skipped_words};
use crate::outputs::put_outputs;
use check_text::Names;
use log_listen::{Broken, Listener};
use std::alloc::{AllocError, Global};
use std::mem;
use vt_can::{Frame, Line, LineFault};
use vt_messages_text::Sentence;
use vt_server::{Input, Output, Terminal};

/// Writes the trace of a log, line by line.
#[derive(Drop)]
pub struct Tracer<'a> {
    alloc: Global,
    names: &'a Names,
    // The screen after the last line.
    screen: Vec<u8>,
    // The buffer for the next screen.
    drawn: Vec<u8>,
    // The buffer for the words of a line.
    words: String,
    // The terminal's outputs at the last line.
    outputs: Vec<Output>,
    // The messages in packets whose last packets are still to come.
    listener: Listener,
    // The transfers that the last line has ended before they were whole.
    broken: Vec<Broken>,
}

impl<'a> Tracer<'a> {
    /// A tracer before the first line, with the screen that the terminal has. `OutOfMemory` if an allocation is refused.
    pub fn new(
        alloc: Global,
        names: &'a Names,
        terminal: &Terminal,
    ) -> Result<Tracer<'a>, AllocError>
        ensures { IfOk result (λ tracer. IsScreenOf (state_of terminal.now) (screen_in tracer)) }
    {
        let mut screen = Vec::new(alloc);
        terminal.screen(&mut screen)?;
        Ok(Tracer {
            alloc,
            names,
            screen,
            drawn: Vec::new(alloc),
            words: String::new(alloc),
            outputs: Vec::new(alloc),
            listener: Listener::new(alloc),
            broken: Vec::new(alloc),
        })
    }

    /// The terminal's outputs at the last line with an input: a frame, or an action of the operator.
    pub fn outputs(&self) -> &[Output] {
        &self.outputs
    }

    /// Gives a line, as it was read, to the terminal, and appends its trace to a text. After an error the terminal may have taken the
    /// line or not, and the text is incomplete.
    pub fn trace_line(
        &mut self,
        number: u64,
        reading: &Result<Line<'_>, LineFault>,
        terminal: &mut Terminal,
        text: &mut Vec<u8>,
    ) -> Result<(), AllocError>
        ensures { OnOk result ((added : List ℕ) × (text.new.items ≡ text.old.items ++ added)
            × TracesLine number (state_of terminal.old) (reading_of reading.now) (state_of terminal.new) (screen_in self.old) (screen_in self.new) added) }
    {
        match reading {
            Ok(line) => self.trace_read(number, line, terminal, text),
            Err(fault) => put_head(
                number,
                format_args!("faulty: {fault}"),
                &mut self.words,
                text,
            ),
        }
    }

    /// Gives a line without a fault to the terminal, and appends its trace.
    fn trace_read(
        &mut self,
        number: u64,
        line: &Line<'_>,
        terminal: &mut Terminal,
        text: &mut Vec<u8>,
    ) -> Result<(), AllocError>
        ensures { OnOk result (Gains (TracesLine number (state_of terminal.old) (Ok (parsed line.now)) (state_of terminal.new) (screen_in self.old) (screen_in self.new))
            text.old.items text.new.items) }
    {
        match line {
            Line::Frame { time, frame } => self.trace_frame(number, *time, frame, terminal, text),
            Line::Operator(action) => {
                let action = *action;
                let names = self.names;
                put_head(number, ActionHead { action, names }, &mut self.words, text)?;
                self.trace_input(&Input::Operator(action), terminal, text)
            }
            Line::Skipped(skipped) => {
                let words = skipped_words(*skipped);
                put_head(
                    number,
                    format_args!("skipped: {words}"),
                    &mut self.words,
                    text,
                )
            }
            Line::Comment => Ok(()),
        }
    }

    /// Gives a frame to the terminal, and appends the trace of its line.
    fn trace_frame(
        &mut self,
        number: u64,
        time: u64,
        frame: &Frame,
        terminal: &mut Terminal,
        text: &mut Vec<u8>,
    ) -> Result<(), AllocError>
        ensures { OnOk result (Gains (TracesLine number (state_of terminal.old) (Ok (FrameAt time frame.now)) (state_of terminal.new) (screen_in self.old) (screen_in self.new))
            text.old.items text.new.items) }
    {
        self.broken.clear();
        let whole = self.listener.hear(frame, &mut self.broken)?;
        let sentence = Sentence {
            frame,
            terminal: &*terminal,
            names: self.names,
        };
        let head = FrameHead {
            time,
            sentence,
            whole: whole.as_ref(),
        };
        put_head(number, head, &mut self.words, text)?;
        let frame = copy_of(frame)?;
        self.trace_input(&Input::Frame { time, frame }, terminal, text)
    }

    /// Appends the trace of a frame of the recorded terminal that is not given to this one: its first line alone.
    pub fn trace_own_frame(
        &mut self,
        number: u64,
        time: u64,
        frame: &Frame,
        terminal: &Terminal,
        text: &mut Vec<u8>,
    ) -> Result<(), AllocError>
        ensures { OnOk result (Gains (IsHead number) text.old.items text.new.items) }
    {
        self.outputs.clear();
        self.broken.clear();
        let whole = self.listener.hear(frame, &mut self.broken)?;
        let sentence = Sentence {
            frame,
            terminal,
            names: self.names,
        };
        let head = FrameHead {
            time,
            sentence,
            whole: whole.as_ref(),
        };
        put_head(number, head, &mut self.words, text)
    }

    /// Appends the trace of a packet that is not given to the terminal at its line: its first line alone, and why it is not given.
    pub fn trace_unreceived(
        &mut self,
        number: u64,
        time: u64,
        frame: &Frame,
        why: &str,
        terminal: &Terminal,
        text: &mut Vec<u8>,
    ) -> Result<(), AllocError>
        ensures { OnOk result (Gains (IsHead number) text.old.items text.new.items) }
    {
        self.outputs.clear();
        let sentence = Sentence {
            frame,
            terminal,
            names: self.names,
        };
        let head = FrameHead {
            time,
            sentence,
            whole: None,
        };
        put_head(number, format_args!("{head}: {why}"), &mut self.words, text)
    }

    /// Gives an input to the terminal, and appends the lines of its outputs, and the changes of the screen.
    fn trace_input(
        &mut self,
        input: &Input<'_>,
        terminal: &mut Terminal,
        text: &mut Vec<u8>,
    ) -> Result<(), AllocError>
        ensures { OnOk result (Gains (TracesInput (state_of terminal.old) (input_line input.now) (state_of terminal.new) (screen_in self.old) (screen_in self.new))
            text.old.items text.new.items) }
    {
        self.outputs.clear();
        terminal.step(input, &mut self.outputs)?;
        let names = self.names;
        put_outputs(&self.outputs, terminal, names, &mut self.words, text)?;
        self.put_new_screen(terminal, text)
    }

    /// Appends the changes of the screen since the last line.
    fn put_new_screen(&mut self, terminal: &Terminal, text: &mut Vec<u8>) -> Result<(), AllocError>
        ensures changes { OnOk result (Gains (AreScreenChanges (screen_in self.old) (screen_in self.new)) text.old.items text.new.items) }
        ensures screen { OnOk result ((before : State) → (redraws terminal.now ≡ false → KeepsScreen before (state_of terminal.now))
            → IsScreenOf before (screen_in self.old) → IsScreenOf (state_of terminal.now) (screen_in self.new)) }
    {
        if !terminal.redraws() {
            return Ok(());
        }
        self.drawn.clear();
        terminal.screen(&mut self.drawn)?;
        if self.drawn == self.screen {
            return Ok(());
        }
        put_changes(self.alloc, &self.screen, &self.drawn, text)?;
        mem::swap(&mut self.screen, &mut self.drawn);
        Ok(())
    }
}

/// A copy of a frame.
fn copy_of(frame: &Frame) -> Result<Frame, AllocError>
    ensures { IfOk result (λ copy. copy ≡ frame.now) }
{
    frame.clone()
}
