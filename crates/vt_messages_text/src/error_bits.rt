//! The error bytes of replies in words.

use std::fmt;
use vt_commands::CommandRow;

/// The outcome of a command by the error byte of its reply: `done`, or `refused: ` and a phrase for each bit that is set.
#[derive(Clone, Copy, Drop)]
pub(crate) struct OutcomeWords {
    /// The function of the command.
    pub(crate) function: u8,
    /// The error byte.
    pub(crate) error: u8,
}

impl fmt::Display for OutcomeWords {
    fn fmt<W: fmt::Write>(&self, f: &mut fmt::Formatter<W>) -> fmt::Result {
        if self.error == 0 {
            return f.write_str("done");
        }
        let mut separator = "refused: ";
        for bit in 0..8u8 {
            if self.error >> bit & 1 == 1 {
                f.write_str(separator)?;
                separator = "; ";
                match bit_meaning(self.function, bit) {
                    Some(meaning) => f.write_str(meaning)?,
                    None => write!(f, "bit {bit}")?,
                }
            }
        }
        Ok(())
    }
}

/// The meaning of a bit in the error byte of a command's reply, or `None` if it has none.
fn bit_meaning(function: u8, bit: u8) -> Option<&'static str> {
    let row = CommandRow::of(function)?;
    row.refusals
        .iter()
        .find(|(other, _)| *other == bit)
        .map(|(_, cause)| *cause)
}
