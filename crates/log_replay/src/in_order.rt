//! Passes over the lines of a log, for a terminal that replays it.

use crate::log::Pass;
use log_order::{Moved, Sorter, Spoiled, SpoiledBy, Turn};
use std::alloc::AllocError;
use std::io::{self, Write};
use vt_can::{Line, LineFault};
use vt_cli::Program;

/// What a subcommand that replays a log does with each line.
pub trait ReplayPass<F, W, E> {
    /// Processes a line, as it was read. Its number counts from 1, and its turn says when the terminal receives its frame. A packet whose
    /// turn is `Later` comes a second time, `Late` and with the number of its line, behind the line with the packet before it.
    fn line(
        &mut self,
        number: u64,
        turn: Turn,
        reading: Result<Line<'_>, LineFault>,
        files: &mut F,
        out: &mut W,
        errors: &mut E,
    ) -> io::Result<()>;
}

/// Gives the lines of a log to a pass, and puts the packets of messages to the terminal in order.
#[derive(Drop)]
pub(crate) struct InOrder<'a, P> {
    pass: &'a mut P,
    sorter: Sorter<'a>,
}

impl<'a, P> InOrder<'a, P> {
    /// Before the first line of a log.
    pub(crate) fn new(pass: &'a mut P, sorter: Sorter<'a>) -> InOrder<'a, P> {
        InOrder { pass, sorter }
    }

    /// Writes to `errors` how many packets were put in order, and which messages were not received. If the log has no message of the
    /// recorded terminal, it is not said that it doesn't show what that terminal did. `OutOfMemory` if an allocation is refused.
    pub(crate) fn tell<F: Program, E: Write>(
        &mut self,
        path: &str,
        has_messages: bool,
        files: &F,
        errors: &mut E,
    ) -> Result<(), AllocError> {
        self.sorter.close_all()?;
        let program = files.name();
        let Moved { count, first } = self.sorter.moved;
        if count > 0 {
            let plural = if count == 1 { "" } else { "s" };
            let _ = writeln!(
                errors,
                "{program}: {path}: line {first}: {count} packet{plural} from there on came again or out of order; this terminal receives them in order"
            );
        }
        for spoiled in self.sorter.spoiled.iter() {
            tell_spoiled(*spoiled, path, has_messages, program, errors);
        }
        Ok(())
    }
}

impl<F, W, E, P: ReplayPass<F, W, E>> Pass<F, W, E> for InOrder<'_, P> {
    /// Gives a line to the pass, and the packets whose turn has come with it.
    fn line(
        &mut self,
        number: u64,
        reading: Result<Line<'_>, LineFault>,
        files: &mut F,
        out: &mut W,
        errors: &mut E,
    ) -> io::Result<()> {
        let Ok(Line::Frame { time, frame }) = &reading else {
            return self
                .pass
                .line(number, Turn::Now, reading, files, out, errors);
        };
        let time = *time;
        let turn = self.sorter.turn(number, time, frame)?;
        self.pass.line(number, turn, reading, files, out, errors)?;
        for _ in 0..self.sorter.late.len() {
            let Some(late) = self.sorter.late.pop_front() else {
                break;
            };
            let frame = late.frame;
            let reading = Ok(Line::Frame { time, frame });
            self.pass
                .line(late.line, Turn::Late, reading, files, out, errors)?;
        }
        Ok(())
    }
}

/// Writes to `errors` which message this terminal does not receive, and why. What the log does not show of the recorded terminal is only
/// told if the log has messages of it.
fn tell_spoiled<E: Write>(
    spoiled: Spoiled,
    path: &str,
    has_messages: bool,
    program: &str,
    errors: &mut E,
) {
    let Spoiled {
        by,
        line,
        request,
        source,
        missing,
    } = spoiled;
    let _ = match by {
        SpoiledBy::LostPacket => writeln!(
            errors,
            "{program}: {path}: line {line}: the recorded terminal received a message of {source:02X} (request in line {request}) whose packet {missing} is not in the log; this terminal did not, and may differ from there on"
        ),
        SpoiledBy::LostRequest => writeln!(
            errors,
            "{program}: {path}: line {line}: the recorded terminal received a message of {source:02X} whose request is not in the log; this terminal did not, and may differ from there on"
        ),
        SpoiledBy::Order if has_messages => writeln!(
            errors,
            "{program}: {path}: line {line}: packet {missing} of a message of {source:02X} (request in line {request}) is expected here; this terminal aborts the message, and the log does not show whether the recorded one did"
        ),
        SpoiledBy::Silence if has_messages => writeln!(
            errors,
            "{program}: {path}: line {line}: packet {missing} of a message of {source:02X} (request in line {request}) does not follow in time; this terminal aborts the message, and the log does not show whether the recorded one did"
        ),
        SpoiledBy::Order | SpoiledBy::Silence => Ok(()),
    };
}
