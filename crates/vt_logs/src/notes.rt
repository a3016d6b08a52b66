//! Notes of a replay for messages to people: its first faulty line, and the refusals to the operator.

ghost use Rattle.std.specs.Prelude.{◌≡◌, None, replicate};

use vt_can::LineFault;
use vt_recorded::{Hint, hint_of};
use vt_server::{OperatorFault, Output};

/// The first faulty line of a log.
#[derive(Clone, Copy, PartialEq, Eq)]
pub struct FaultyLine {
    /// The line's number, from 1.
    pub line: u64,
    /// The line's fault.
    pub fault: LineFault,
    /// A likely cause of the fault.
    pub hint: Option<Hint>,
}

/// The operator's actions of a replay that were refused for one reason.
#[derive(Clone, Copy, PartialEq, Eq)]
pub struct RefusedActions {
    /// The line of the first of these actions, from 1.
    pub line: u64,
    /// The reason of the refusals.
    pub fault: OperatorFault,
    /// The number of these actions.
    pub count: u64,
}

/// Notes of a replay, for messages to people.
#[derive(Clone, Copy, PartialEq, Eq)]
pub struct Notes {
    /// The number of lines taken.
    pub lines: u64,
    /// The number of faulty lines.
    pub faults: u64,
    /// The first faulty line.
    pub first_fault: Option<FaultyLine>,
    /// The operator's refused actions, one entry for each reason, in the order of their first lines.
    pub refused: [Option<RefusedActions>; 9],
}

impl Notes {
    /// The notes before the first line.
    pub fn new() -> Notes
        ensures lines { result.lines ≡ 0 }
        ensures faults { result.faults ≡ 0 }
        ensures first_fault { result.first_fault ≡ None }
        ensures refused { result.refused ≡ replicate 9 None }
    {
        Notes {
            lines: 0,
            faults: 0,
            first_fault: None,
            refused: [None; 9],
        }
    }

    /// Notes a faulty line, if it is the first.
    pub(crate) fn add_fault(&mut self, line: u64, fault: LineFault, text: &[u8]) {
        if self.first_fault.is_none() {
            let hint = hint_of(line, fault, text);
            self.first_fault = Some(FaultyLine { line, fault, hint });
        }
    }

    /// Adds the refusals among the terminal's outputs at a line.
    pub(crate) fn add_refusals(&mut self, line: u64, outputs: &[Output]) {
        for output in outputs {
            if let Output::Refused(fault) = output {
                self.add_refusal(line, *fault);
            }
        }
    }

    fn add_refusal(&mut self, line: u64, fault: OperatorFault) {
        for slot in &mut self.refused {
            match slot {
                Some(refused) if refused.fault == fault => {
                    refused.count = refused.count.saturating_add(1);
                    return;
                }
                Some(_) => {}
                None => {
                    let count = 1;
                    *slot = Some(RefusedActions { line, fault, count });
                    return;
                }
            }
        }
    }
}
