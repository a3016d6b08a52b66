//! The progress of a replay through the lines of a log.

ghost use Rattle.std.specs.Prelude.{◌≡◌, ◌^◌, ◌+◌, ◌++◌, [], ◌∷◌, ◌≤◌, ◌<◌, length, false, List, ℕ, OnOk, OnErr, IfOk, IfErr, IsErrOf, MatchOption, if◌then◌else◌};
ghost use Rattle.std.specs.Io.KnownBytes.{Appends};
ghost use Rattle.vt_can.specs.lines.Readings.{reading_of};
ghost use Rattle.vt_logs.specs.Lines.{lines_of};
ghost use Rattle.vt_logs.specs.EarlyEnds.{BreaksOff, MayBegin, Stops, StopsAtLong};
ghost use Rattle.vt_logs.specs.LineEffects.{Follows, FollowsInput, TakesInputLine, TakesReading, input_line};
ghost use Rattle.vt_logs.specs.Texts.{with_line_counted, no_counts, new_screen};
ghost use Rattle.vt_logs.specs.Progress.{AtMost, HasNoNewline, IsLineFault, IsStepFault, Takes, TakesBytes, TakesOne, Writes, scene, replay_point};
ghost use Rattle.vt_server.specs.shown.Screens.{IsScreenOf, redraws};
ghost use Rattle.vt_server.specs.States.{state_of};

use crate::counts::Counts;
use crate::fault::ReplayFault;
use crate::notes::Notes;
use crate::output::{put, put_fault, put_outputs};
use crate::streams::Sink;
use arrayvec::ArrayVec;
use memchr::memchr;
use std::alloc::Global;
use std::mem;
use vt_can::{Line, LineFault};
use vt_recorded::Reader;
use vt_server::{Input, Output, Terminal};

/// The longest line, without its newline.
const LONGEST: usize = 4096;

/// The progress of a replay.
#[derive(Drop)]
pub struct Progress {
    alloc: Global,
    /// The counts of the lines taken.
    pub counts: Counts,
    /// The bytes read of a line whose newline is still to come.
    pub pending: ArrayVec<u8, 4096>,
    /// The terminal's outputs at the last input.
    pub outputs: Vec<Output>,
    /// The screen that was printed last.
    pub screen: Vec<u8>,
    /// The buffer for the next screen.
    pub drawn: Vec<u8>,
    /// The notes for messages to people.
    pub notes: Notes,
}

impl Progress {
    /// The progress before the first line. It allocates nothing.
    pub fn new(alloc: Global) -> Progress
        ensures counts { result.counts ≡ no_counts }
        ensures pending { result.pending.items ≡ [] }
        ensures screen { result.screen.items ≡ [] }
    {
        Progress {
            alloc,
            counts: Counts::new(),
            pending: ArrayVec::new(),
            outputs: Vec::new(alloc),
            screen: Vec::new(alloc),
            drawn: Vec::new(alloc),
            notes: Notes::new(),
        }
    }

    /// Returns the notes of the lines taken.
    pub fn into_notes(self) -> Notes
        ensures { result ≡ record self.notes { lines = self.counts.lines; faults = self.counts.faults } }
    {
        let mut notes = self.notes;
        notes.lines = self.counts.lines;
        notes.faults = self.counts.faults;
        notes
    }

    /// Prints the first screen.
    pub fn begin<W: Sink>(&mut self, terminal: &Terminal, writer: &mut W) -> Result<(), ReplayFault>
        requires first { self.old.screen.items ≡ [] }
        ensures drawn { OnOk result (IsScreenOf (state_of terminal.now) self.new.screen.items) }
        ensures text { OnOk result (Appends (W.contents writer.old) (W.contents writer.new) self.new.screen.items) }
        ensures counts { self.new.counts ≡ self.old.counts }
        ensures pending { self.new.pending ≡ self.old.pending }
        ensures front { OnErr result (MayBegin (IsScreenOf (state_of terminal.now)) (W.contents writer.old) (W.contents writer.new)) }
        ensures fault { IfErr result (IsStepFault W.steady) }
    {
        terminal.screen(&mut self.screen)?;
        put(&self.screen, writer)
    }

    /// Takes the lines that end in a chunk, and keeps the bytes of the next line as pending.
    pub fn take_chunk<W: Sink>(
        &mut self,
        chunk: &[u8],
        terminal: &mut Terminal,
        writer: &mut W,
    ) -> Result<(), ReplayFault>
        requires drawn { IsScreenOf (state_of terminal.old) self.old.screen.items }
        requires few { AtMost (2 ^ 61) self.old.counts }
        requires short { length chunk.now ≤ 65536 }
        requires whole { HasNoNewline self.old.pending.items }
        ensures taken { OnOk result (TakesBytes (replay_point terminal.old self.old.screen.items self.old.counts (W.contents writer.old))
            self.old.pending.items chunk.now
            (replay_point terminal.new self.new.screen.items self.new.counts (W.contents writer.new)) self.new.pending.items) }
        ensures whole { OnOk result (HasNoNewline self.new.pending.items) }
        ensures stopped { OnErr result ((rest : List ℕ) → Stops (replay_point terminal.old self.old.screen.items self.old.counts (W.contents writer.old))
            (lines_of (self.old.pending.items ++ chunk.now ++ rest)) (state_of terminal.new) (W.contents writer.new)) }
        ensures too_long { IsErrOf result ReplayFault.TooLong → (rest : List ℕ) → StopsAtLong (replay_point terminal.old self.old.screen.items self.old.counts (W.contents writer.old))
            (lines_of (self.old.pending.items ++ chunk.now ++ rest)) (state_of terminal.new) (W.contents writer.new) }
        ensures fault { IfErr result (IsLineFault W.steady) }
    {
        let mut rest = chunk;
        while let Some((line, after)) = cut_line(rest) {
            self.end_line(line, terminal, writer)?;
            rest = after;
        }
        self.keep(rest)
    }

    /// Takes the last line, if it lacks its newline.
    pub fn end_log<W: Sink>(
        &mut self,
        terminal: &mut Terminal,
        writer: &mut W,
    ) -> Result<(), ReplayFault>
        requires drawn { IsScreenOf (state_of terminal.old) self.old.screen.items }
        requires few { AtMost (2 ^ 62) self.old.counts }
        requires whole { HasNoNewline self.old.pending.items }
        ensures takes { OnOk result (Takes (replay_point terminal.old self.old.screen.items self.old.counts (W.contents writer.old))
            (lines_of self.old.pending.items)
            (replay_point terminal.new self.new.screen.items self.new.counts (W.contents writer.new))) }
        ensures stopped { OnErr result (Stops (replay_point terminal.old self.old.screen.items self.old.counts (W.contents writer.old))
            (lines_of self.old.pending.items) (state_of terminal.new) (W.contents writer.new)) }
        ensures too_long { IsErrOf result ReplayFault.TooLong → 4096 < length self.old.pending.items }
        ensures stay { IsErrOf result ReplayFault.TooLong → (state_of terminal.new ≡ state_of terminal.old) × (W.contents writer.new ≡ W.contents writer.old) }
        ensures fault { IfErr result (IsLineFault W.steady) }
    {
        if self.pending.is_empty() {
            return Ok(());
        }
        self.end_line(&[], terminal, writer)
    }

    /// Appends bytes to the pending ones, which are at most 4,096.
    fn keep(&mut self, part: &[u8]) -> Result<(), ReplayFault>
        ensures kept { OnOk result (self.new.pending.items ≡ self.old.pending.items ++ part.now) }
        ensures short { OnOk result (length self.new.pending.items ≤ 4096) }
        ensures counts { self.new.counts ≡ self.old.counts }
        ensures screen { self.new.screen ≡ self.old.screen }
        ensures too_long { OnErr result (4096 < length (self.old.pending.items ++ part.now)) }
        ensures fault { IfErr result (λ fault. fault ≡ ReplayFault.TooLong) }
    {
        self.pending
            .try_extend_from_slice(part)
            .map_err(|_| ReplayFault::TooLong)
    }

    /// Takes the line of the pending bytes and `part`. No bytes are pending then.
    pub fn end_line<W: Sink>(
        &mut self,
        part: &[u8],
        terminal: &mut Terminal,
        writer: &mut W,
    ) -> Result<(), ReplayFault>
        requires drawn { IsScreenOf (state_of terminal.old) self.old.screen.items }
        requires few { AtMost (2 ^ 62) self.old.counts }
        ensures takes { OnOk result (Takes (replay_point terminal.old self.old.screen.items self.old.counts (W.contents writer.old))
            ((self.old.pending.items ++ part.now) ∷ [])
            (replay_point terminal.new self.new.screen.items self.new.counts (W.contents writer.new))) }
        ensures empty { OnOk result (self.new.pending.items ≡ []) }
        ensures stopped { OnErr result (Stops (replay_point terminal.old self.old.screen.items self.old.counts (W.contents writer.old))
            ((self.old.pending.items ++ part.now) ∷ []) (state_of terminal.new) (W.contents writer.new)) }
        ensures too_long { IsErrOf result ReplayFault.TooLong → 4096 < length (self.old.pending.items ++ part.now) }
        ensures stay { IsErrOf result ReplayFault.TooLong → (state_of terminal.new ≡ state_of terminal.old) × (W.contents writer.new ≡ W.contents writer.old) }
        ensures fault { IfErr result (IsLineFault W.steady) }
    {
        if !self.pending.is_empty() {
            self.keep(part)?;
            let line = mem::replace(&mut self.pending, ArrayVec::new());
            return self.take_line(&line, terminal, writer);
        }
        if part.len() > LONGEST {
            return Err(ReplayFault::TooLong);
        }
        self.take_line(part, terminal, writer)
    }

    fn take_line<W: Sink>(
        &mut self,
        line: &[u8],
        terminal: &mut Terminal,
        writer: &mut W,
    ) -> Result<(), ReplayFault>
        requires drawn { IsScreenOf (state_of terminal.old) self.old.screen.items }
        requires few { AtMost (2 ^ 62) self.old.counts }
        requires short { length line.now ≤ 4096 }
        ensures takes { OnOk result (Takes (replay_point terminal.old self.old.screen.items self.old.counts (W.contents writer.old))
            (line.now ∷ [])
            (replay_point terminal.new self.new.screen.items self.new.counts (W.contents writer.new))) }
        ensures pending { self.new.pending ≡ self.old.pending }
        ensures stopped { OnErr result (Stops (replay_point terminal.old self.old.screen.items self.old.counts (W.contents writer.old))
            (line.now ∷ []) (state_of terminal.new) (W.contents writer.new)) }
        ensures fault { IfErr result (IsStepFault W.steady) }
    {
        let mut reader = Reader::new(self.alloc);
        let reading = reader.read(line)?;
        if let Err(fault) = &reading {
            self.notes.add_fault(self.counts.lines + 1, *fault, line);
        }
        self.take_reading(reading, terminal, writer)
    }

    /// Takes a line as it was read: counts it, and gives its frame or its operator's action to the terminal, or writes its fault.
    fn take_reading<W: Sink>(
        &mut self,
        reading: Result<Line<'_>, LineFault>,
        terminal: &mut Terminal,
        writer: &mut W,
    ) -> Result<(), ReplayFault>
        requires drawn { IsScreenOf (state_of terminal.old) self.old.screen.items }
        requires few { AtMost (2 ^ 62) self.old.counts }
        ensures takes { OnOk result (TakesOne (replay_point terminal.old self.old.screen.items self.old.counts (W.contents writer.old))
            (reading_of reading.entry)
            (replay_point terminal.new self.new.screen.items self.new.counts (W.contents writer.new))) }
        ensures stopped { OnErr result (Writes (BreaksOff (state_of terminal.old) (Follows (state_of terminal.old) (reading_of reading.entry))
            (TakesReading (scene terminal.old self.old.screen.items) (self.old.counts.lines + 1) (reading_of reading.entry)) (state_of terminal.new))
            (W.contents writer.old) (W.contents writer.new)) }
        ensures counts { self.new.counts ≡ with_line_counted self.old.counts (reading_of reading.entry) }
        ensures pending { self.new.pending ≡ self.old.pending }
        ensures fault { IfErr result (IsStepFault W.steady) }
    {
        self.counts.lines += 1;
        match reading {
            Ok(Line::Frame { time, frame }) => {
                self.counts.frames += 1;
                self.take_input(&Input::Frame { time, frame }, terminal, writer)
            }
            Ok(Line::Operator(action)) => {
                self.counts.operator += 1;
                self.take_input(&Input::Operator(action), terminal, writer)
            }
            Ok(Line::Skipped(_)) => {
                self.counts.skipped += 1;
                Ok(())
            }
            Ok(Line::Comment) => {
                self.counts.comments += 1;
                Ok(())
            }
            Err(fault) => {
                self.counts.faults += 1;
                put_fault(self.counts.lines, fault, writer)
            }
        }
    }

    /// Gives an input to the terminal, and writes its outputs and then its screen, if that is new.
    fn take_input<W: Sink>(
        &mut self,
        input: &Input<'_>,
        terminal: &mut Terminal,
        writer: &mut W,
    ) -> Result<(), ReplayFault>
        requires drawn { IsScreenOf (state_of terminal.old) self.old.screen.items }
        ensures takes { OnOk result (Writes (TakesInputLine (scene terminal.old self.old.screen.items) (input_line input.now) (scene terminal.new self.new.screen.items))
            (W.contents writer.old) (W.contents writer.new)) }
        ensures stopped { OnErr result (Writes (BreaksOff (state_of terminal.old) (FollowsInput (state_of terminal.old) (input_line input.now))
            (TakesInputLine (scene terminal.old self.old.screen.items) (input_line input.now)) (state_of terminal.new))
            (W.contents writer.old) (W.contents writer.new)) }
        ensures counts { self.new.counts ≡ self.old.counts }
        ensures pending { self.new.pending ≡ self.old.pending }
        ensures fault { IfErr result (IsStepFault W.steady) }
    {
        self.outputs.clear();
        terminal.step(input, &mut self.outputs)?;
        self.notes.add_refusals(self.counts.lines, &self.outputs);
        let is_new = self.draw(terminal)?;
        put_outputs(&self.outputs, writer)?;
        if is_new {
            put(&self.screen, writer)?;
        }
        Ok(())
    }

    /// Draws the terminal's screen, and returns whether it differs from the one before. A screen that cannot have changed is not
    /// drawn again.
    fn draw(&mut self, terminal: &Terminal) -> Result<bool, ReplayFault>
        requires kept { redraws terminal.now ≡ false → IsScreenOf (state_of terminal.now) self.old.screen.items }
        ensures drawn { OnOk result (IsScreenOf (state_of terminal.now) self.new.screen.items) }
        ensures printed { IfOk result (λ is_new. new_screen self.old.screen.items self.new.screen.items ≡ (if is_new then self.new.screen.items else [])) }
        ensures outputs { self.new.outputs ≡ self.old.outputs }
        ensures counts { self.new.counts ≡ self.old.counts }
        ensures pending { self.new.pending ≡ self.old.pending }
        ensures fault { IfErr result (λ fault. fault ≡ ReplayFault.Memory) }
    {
        if !terminal.redraws() {
            return Ok(false);
        }
        self.drawn.clear();
        terminal.screen(&mut self.drawn)?;
        if self.drawn == self.screen {
            return Ok(false);
        }
        mem::swap(&mut self.screen, &mut self.drawn);
        Ok(true)
    }
}

/// Returns the text before the first newline and the text after it.
fn cut_line(text: &[u8]) -> Option<(&[u8], &[u8])>
    ensures { MatchOption result (HasNoNewline text.now) (λ p. HasNoNewline p.0.now × (text.now ≡ p.0.now ++ 10 ∷ p.1.now)) }
{
    let index = memchr(b'\n', text)?;
    Some((&text[..index], &text[index + 1..]))
}
