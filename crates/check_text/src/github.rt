//! Messages as GitHub's workflow commands.

use crate::codes::Code;
use crate::message::{ItemLine, Severity};
use std::fmt;

/// A message as a workflow command, `::error file=FILE,title=CODE NAME::byte OFFSET: SENTENCE`, without a newline.
#[derive(Clone, Copy, Drop)]
pub struct GithubLine<'a, 'b> {
    /// The message.
    pub message: &'b ItemLine<'a>,
}

impl fmt::Display for GithubLine<'_, '_> {
    fn fmt<W: fmt::Write>(&self, f: &mut fmt::Formatter<W>) -> fmt::Result {
        let message = self.message;
        let Code { code, name } = message.code;
        write!(f, "::{} file=", command(message.severity))?;
        write_escaped(f, message.file, true)?;
        write!(f, ",title={code} {name}::byte {}: ", message.offset)?;
        write_escaped(f, message.sentence.as_str(), false)
    }
}

/// The workflow command for a severity.
fn command(severity: Severity) -> &'static str {
    match severity {
        Severity::Error => "error",
        Severity::Warning => "warning",
        Severity::Note => "notice",
    }
}

/// Writes a text as a workflow command spells it. A property has no colon and no comma.
fn write_escaped<W: fmt::Write>(
    f: &mut fmt::Formatter<W>,
    text: &str,
    in_property: bool,
) -> fmt::Result {
    for c in text.chars() {
        match c {
            '%' => f.write_str("%25")?,
            '\r' => f.write_str("%0D")?,
            '\n' => f.write_str("%0A")?,
            ':' if in_property => f.write_str("%3A")?,
            ',' if in_property => f.write_str("%2C")?,
            c => f.write_char(c)?,
        }
    }
    Ok(())
}
