//! The comparison of a recorded terminal with this one.

ghost use Rattle.std.specs.Prelude.{◌≡◌, ◌<◌, true, false, [], ℕ, List, OnOk};
ghost use Rattle.log_answers.specs.Comparisons.{HasCompared, HasComparedMore, HasToldAll, start_at};
ghost use Rattle.log_answers.specs.Conversations.{LogLine, Point, Takes};
ghost use Rattle.log_answers.specs.declared.difference.Difference.{Difference as Told};
ghost use Rattle.vt_can.specs.lines.Actions.{action_value};
ghost use Rattle.vt_can.specs.lines.Readings.{FrameAt, OperatorAction, reading_of};
ghost use Rattle.vt_server.specs.States.{state_of};
ghost use Rattle.vt_server.specs.Terminals.{State};

use crate::difference::Difference;
use crate::open::OpenQuestions;
use crate::recorded::{FramePlace, recorded_in};
use crate::tally::Tally;
use arrayvec::ArrayVec;
use std::alloc::{AllocError, Global};
use vt_can::{Action, Frame, Line, LineFault};
use vt_server::{Input, Output, Terminal};

/// Compares a recorded terminal with this one, line by line.
///
/// The memory grows with the questions that are open, and not with the log. An answer takes time that grows with the open questions: those
/// that have no answer yet, and are of the last `wait` microseconds. While the times of a log do not rise, no question becomes too old.
#[derive(Drop)]
pub struct Comparison {
    /// The number of the last line that was taken, 0 before the first.
    pub line: u64,
    /// The counts of the messages that were compared so far.
    pub tally: Tally,
    /// The address of the recorded terminal.
    own: u8,
    /// How long an answer may take, in microseconds.
    wait: u64,
    /// The latest time so far, in microseconds.
    now: u64,
    /// The bytes of the recorded terminal's last status message.
    status: ArrayVec<u8, 8>,
    open: OpenQuestions,
    outputs: Vec<Output>,
}

impl Comparison {
    /// A comparison before the first line of a log, for the terminal that is to replay it. The recorded terminal is the one at the same
    /// address, and an answer may take `wait` microseconds. Allocates nothing.
    pub fn new(alloc: Global, wait: u64, terminal: &Terminal) -> Comparison
        ensures compared { HasCompared (state_of terminal.now).claims.own wait (start_at (state_of terminal.now)) [] [] (state_of terminal.now) result }
        ensures line { result.line ≡ 0 }
    {
        Comparison {
            line: 0,
            tally: Tally::default(),
            own: terminal.own(),
            wait,
            now: 0,
            status: terminal.status().bytes,
            open: OpenQuestions::new(alloc),
            outputs: Vec::new(alloc),
        }
    }

    /// Processes the next line of the log, as it was read: gives it to the terminal, and appends the differences that are certain then.
    /// After an error the comparison is of no more use.
    pub fn take_line(
        &mut self,
        line: u64,
        reading: Result<Line<'_>, LineFault>,
        terminal: &mut Terminal,
        differences: &mut Vec<Difference>,
    ) -> Result<(), AllocError>
        requires { self.old.line < line }
        ensures compared { OnOk result ((own wait : ℕ) (start : Point) (lines : List LogLine) (told : List Told)
            → HasCompared own wait start lines told (state_of terminal.old) self.old
            → HasComparedMore own wait start lines told (record { number = line; reading = reading_of reading.entry; is_received = true }) differences.old.items differences.new.items
            (state_of terminal.new) self.new) }
        ensures line { OnOk result (self.new.line ≡ line) }
    {
        match reading {
            Ok(Line::Frame { time, frame }) => {
                self.take_frame(line, time, frame, true, terminal, differences)
            }
            Ok(Line::Operator(action)) => self.take_action(line, action, terminal),
            Ok(Line::Skipped(_)) => {
                self.line = line;
                Ok(())
            }
            Ok(Line::Comment) => {
                self.line = line;
                Ok(())
            }
            Err(_) => {
                self.line = line;
                Ok(())
            }
        }
    }

    /// Processes the next line of the log, whose frame this terminal does not receive: appends the differences that are certain then. After
    /// an error the comparison is of no more use.
    pub fn take_unreceived(
        &mut self,
        line: u64,
        time: u64,
        frame: Frame,
        terminal: &mut Terminal,
        differences: &mut Vec<Difference>,
    ) -> Result<(), AllocError>
        requires { self.old.line < line }
        ensures compared { OnOk result ((own wait : ℕ) (start : Point) (lines : List LogLine) (told : List Told)
            → HasCompared own wait start lines told (state_of terminal.old) self.old
            → HasComparedMore own wait start lines told (record { number = line; reading = Ok (FrameAt time frame); is_received = false }) differences.old.items differences.new.items
            (state_of terminal.new) self.new) }
        ensures line { OnOk result (self.new.line ≡ line) }
    {
        self.take_frame(line, time, frame, false, terminal, differences)
    }

    /// Processes a frame: lists the questions that are too old by its time, adds those that this terminal sends if it receives the frame,
    /// and then compares the answer of the recorded terminal.
    fn take_frame(
        &mut self,
        line: u64,
        time: u64,
        frame: Frame,
        is_received: bool,
        terminal: &mut Terminal,
        differences: &mut Vec<Difference>,
    ) -> Result<(), AllocError>
        requires { self.old.line < line }
        ensures compared { OnOk result ((own wait : ℕ) (start : Point) (lines : List LogLine) (told : List Told)
            → HasCompared own wait start lines told (state_of terminal.old) self.old
            → HasComparedMore own wait start lines told (record { number = line; reading = Ok (FrameAt time frame); is_received = is_received }) differences.old.items differences.new.items
            (state_of terminal.new) self.new) }
        ensures line { OnOk result (self.new.line ≡ line) }
    {
        self.now = self.now.max(time);
        self.open
            .expire(self.wait, self.now, &mut self.tally, differences)?;
        let place = FramePlace {
            own: self.own,
            line,
            now: self.now,
        };
        let answer = recorded_in(place, &frame, &mut self.status, &mut self.tally)?;
        receive(is_received, time, frame, terminal, &mut self.outputs)?;
        self.open
            .ask(line, self.now, &self.outputs, &mut self.tally)?;
        self.open.hear(answer, &mut self.tally, differences)?;
        self.line = line;
        Ok(())
    }

    /// Processes an action of the operator, at which only this terminal can send.
    fn take_action(
        &mut self,
        line: u64,
        action: Action<'_>,
        terminal: &mut Terminal,
    ) -> Result<(), AllocError>
        requires { self.old.line < line }
        ensures compared { OnOk result ((own wait : ℕ) (start : Point) (lines : List LogLine) (told differences : List Told)
            → HasCompared own wait start lines told (state_of terminal.old) self.old
            → HasComparedMore own wait start lines told (record { number = line; reading = Ok (OperatorAction (action_value action.entry)); is_received = true }) differences differences
            (state_of terminal.new) self.new) }
        ensures line { OnOk result (self.new.line ≡ line) }
    {
        self.outputs.clear();
        terminal.step(&Input::Operator(action), &mut self.outputs)?;
        self.open
            .ask(line, self.now, &self.outputs, &mut self.tally)?;
        self.line = line;
        Ok(())
    }

    /// Ends the comparison: appends the questions that are still open, which have no answer in the log. After `OutOfMemory` some of them are
    /// appended.
    pub fn end(&mut self, differences: &mut Vec<Difference>) -> Result<(), AllocError>
        ensures { OnOk result ((own wait : ℕ) (start : Point) (lines : List LogLine) (told : List Told) (state : State)
            → HasCompared own wait start lines told state self.old → HasToldAll own wait start lines told differences.old.items differences.new.items) }
    {
        self.open.end(&mut self.tally, differences)
    }
}

/// Gives a frame to a terminal, if the terminal receives it. `outputs` are then what the terminal sends.
fn receive(
    is_received: bool,
    time: u64,
    frame: Frame,
    terminal: &mut Terminal,
    outputs: &mut Vec<Output>,
) -> Result<(), AllocError>
    ensures { OnOk result (Takes is_received (state_of terminal.old) (Ok (FrameAt time frame)) (state_of terminal.new) outputs.new.items) }
{
    outputs.clear();
    if is_received {
        terminal.step(&Input::Frame { time, frame }, outputs)?;
    }
    Ok(())
}
