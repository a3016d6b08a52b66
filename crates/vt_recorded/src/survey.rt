//! What the lines of a whole log are.

use crate::hints::LineHint;
use crate::reader::Reader;
use std::alloc::{AllocError, Global};
use vt_can::{Line, LineFault};

/// What the lines of a log are, counted up to one of them.
#[derive(Clone, Copy, PartialEq, Eq)]
pub struct Survey {
    /// Whether a line is a frame or an action of the operator.
    pub has_input: bool,
    /// The number of faulty lines.
    pub faults: u64,
    /// The likely cause of the first fault. `None` if there is no fault, or its line does not show the cause.
    pub hint: Option<LineHint>,
}

impl Survey {
    /// Reads all lines of a log. `OutOfMemory` if an allocation is refused.
    pub fn of(alloc: Global, log: &[u8]) -> Result<Survey, AllocError> {
        Survey::up_to(alloc, log, false)
    }

    /// Reads the lines of a log up to the first that is a frame or an action of the operator. `OutOfMemory` if an allocation is refused.
    pub fn up_to_input(alloc: Global, log: &[u8]) -> Result<Survey, AllocError> {
        Survey::up_to(alloc, log, true)
    }

    /// Whether there are faulty lines, and no line that is a frame or an action of the operator.
    pub fn is_unreadable(self) -> bool {
        self.faults > 0 && !self.has_input
    }

    /// Reads the lines of a log, and stops at the first input if `stops` is set.
    fn up_to(alloc: Global, log: &[u8], stops: bool) -> Result<Survey, AllocError> {
        let mut reader = Reader::new(alloc);
        let mut survey = Survey {
            has_input: false,
            faults: 0,
            hint: None,
        };
        let mut number = 0_u64;
        for line in log.split(|byte| *byte == b'\n') {
            number = number.saturating_add(1);
            match reader.read(line)? {
                Ok(Line::Frame { .. } | Line::Operator(_)) => {
                    survey.has_input = true;
                    if stops {
                        break;
                    }
                }
                Ok(Line::Skipped(_) | Line::Comment) => {}
                Err(fault) => survey.note_fault(number, fault, line),
            }
        }
        Ok(survey)
    }

    /// Counts a faulty line.
    fn note_fault(&mut self, number: u64, fault: LineFault, line: &[u8]) {
        if self.faults == 0 {
            self.hint = LineHint::of(number, fault, line);
        }
        self.faults = self.faults.saturating_add(1);
    }
}
