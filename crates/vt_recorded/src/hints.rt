//! Likely causes of faulty lines.

use crate::forms::form_by;
use std::fmt;
use vt_can::LineFault;

/// A likely cause of a faulty line.
#[derive(Clone, Copy, PartialEq, Eq)]
pub enum Hint {
    /// The line has bytes that are not text.
    Binary,
    /// The line has the form that `candump` prints without times.
    Candump,
    /// The log is a file of another recorder, or begins with a byte order mark.
    Form(&'static str),
    /// No blank follows the exclamation mark of an operator line.
    Unspaced,
}

impl fmt::Display for Hint {
    fn fmt<W: fmt::Write>(&self, f: &mut fmt::Formatter<W>) -> fmt::Result {
        match self {
            Hint::Binary => write!(
                f,
                "the line has bytes that are no text; for an object pool, run segyolant check"
            ),
            Hint::Candump => {
                write!(
                    f,
                    "the line looks as candump prints it without times; candump -L and candump -ta print a log"
                )
            }
            Hint::Form(what) => write!(f, "{what}"),
            Hint::Unspaced => {
                write!(
                    f,
                    "an operator line has a blank after its exclamation mark, as ! press 400"
                )
            }
        }
    }
}

/// The likely cause of the fault of a line, by its number in the log, from 1. `None` if the line does not show it.
pub fn hint_of(number: u64, fault: LineFault, line: &[u8]) -> Option<Hint> {
    if let Some(what) = form_by(number, line) {
        return Some(Hint::Form(what));
    }
    if line.iter().any(|byte| !is_text(*byte)) {
        return Some(Hint::Binary);
    }
    match fault {
        LineFault::Time if line.starts_with(b"!") => Some(Hint::Unspaced),
        LineFault::Time if line.contains(&b'[') && line.contains(&b']') => Some(Hint::Candump),
        _ => None,
    }
}

/// Whether a byte is text: 20 hex or above, a tab, a carriage return or an escape.
fn is_text(byte: u8) -> bool {
    byte >= b' ' || matches!(byte, b'\t' | b'\r' | 0x1B)
}

/// A likely cause of a faulty line, with the line.
#[derive(Clone, Copy, PartialEq, Eq)]
pub struct LineHint {
    /// The line's number, from 1.
    pub line: u64,
    /// The likely cause of its fault.
    pub hint: Hint,
}

impl LineHint {
    /// The likely cause of the fault of a line. `None` if the line does not show it.
    pub fn of(number: u64, fault: LineFault, line: &[u8]) -> Option<LineHint> {
        let hint = hint_of(number, fault, line)?;
        Some(LineHint { line: number, hint })
    }

    /// What the log is, if it is a file of another recorder, or begins with a byte order mark.
    pub fn form(self) -> Option<&'static str> {
        match self.hint {
            Hint::Form(what) => Some(what),
            Hint::Binary | Hint::Candump | Hint::Unspaced => None,
        }
    }
}

impl fmt::Display for LineHint {
    fn fmt<W: fmt::Write>(&self, f: &mut fmt::Formatter<W>) -> fmt::Result {
        match self.hint {
            Hint::Form(what) => write!(f, "{what}"),
            hint => write!(f, "at line {}, {hint}", self.line),
        }
    }
}
