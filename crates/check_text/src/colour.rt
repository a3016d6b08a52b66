//! Messages in colours, for a terminal.

use crate::codes::Code;
use crate::message::{ItemLine, Severity};
use std::fmt;

/// A message as its line for people, with the severity and the code in a colour by the sequences of ECMA-48, without a newline.
#[derive(Clone, Copy, Drop)]
pub(crate) struct ColouredLine<'a, 'b> {
    /// The message.
    pub(crate) message: &'b ItemLine<'a>,
}

impl fmt::Display for ColouredLine<'_, '_> {
    fn fmt<W: fmt::Write>(&self, f: &mut fmt::Formatter<W>) -> fmt::Result {
        let message = self.message;
        let Code { code, name } = message.code;
        write!(f, "{}:{}: ", message.file, message.offset)?;
        write!(f, "{}{}", colour(message.severity), message.severity.word())?;
        write!(f, "[{code} {name}]\x1b[0m {}", message.sentence)
    }
}

/// The sequence that begins the colour of a severity: red, yellow or blue, in bold.
fn colour(severity: Severity) -> &'static str {
    match severity {
        Severity::Error => "\x1b[1;31m",
        Severity::Warning => "\x1b[1;33m",
        Severity::Note => "\x1b[1;34m",
    }
}
