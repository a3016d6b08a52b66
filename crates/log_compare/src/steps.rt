//! The steps of a comparison, and the lines of the log that they are of.

use log_answers::{Difference, Said};
use std::alloc::{AllocError, Global};

/// The lines of the steps of a comparison.
///
/// A comparison counts the lines that it is given. They are the lines of the log, but for packets of messages that this terminal does not
/// receive, or receives after their lines. The memory grows with the number of these.
#[derive(Drop)]
pub(crate) struct Steps {
    /// The steps whose line is not the one after the line of the step before, with their lines, in order.
    jumps: Vec<Jump>,
    /// The line of the last step.
    line: u64,
}

/// A step, and the line that it is of.
#[derive(Clone, Copy)]
struct Jump {
    step: u64,
    line: u64,
}

impl Steps {
    /// No step. Does not allocate.
    pub(crate) fn new(alloc: Global) -> Steps {
        Steps {
            jumps: Vec::new(alloc),
            line: 0,
        }
    }

    /// Notes the line of the next step.
    pub(crate) fn note(&mut self, step: u64, line: u64) -> Result<(), AllocError> {
        if line != self.line.saturating_add(1) {
            self.jumps.push(Jump { step, line })?;
        }
        self.line = line;
        Ok(())
    }

    /// Puts the lines of a difference in the place of its steps.
    pub(crate) fn put_lines(&self, difference: &mut Difference) {
        match difference {
            Difference::Differ { ours, theirs } => {
                self.put_line(ours);
                self.put_line(theirs);
            }
            Difference::OursAlone(said) | Difference::TheirsAlone(said) => self.put_line(said),
        }
    }

    /// Puts the line of a message in the place of its step.
    fn put_line(&self, said: &mut Said) {
        if !self.jumps.is_empty() {
            said.line = self.line_of(said.line);
        }
    }

    /// The line of a step.
    fn line_of(&self, step: u64) -> u64 {
        let count = self.jumps.partition_point(|jump| jump.step <= step);
        match count.checked_sub(1).and_then(|last| self.jumps.get(last)) {
            Some(jump) => jump.line.saturating_add(step.saturating_sub(jump.step)),
            None => step,
        }
    }
}
