//! Messages on the error output about a replay: its end, its faulty lines, the refused actions of the operator, and the loss of the
//! terminal's address.

use crate::sentences::{FaultyLines, RefusedAction, ReplaySentence};
use std::io::{self, Write};
use vt_logs::Notes;

/// Prints the sentence of a replay that ended early, with the failure of the system if it is known.
pub(crate) fn print_replay_fault<E: Write>(
    sentence: &ReplaySentence<'_>,
    cause: Option<&io::Error>,
    errors: &mut E,
) {
    let _ = match cause {
        Some(cause) => writeln!(errors, "vt_replay: {sentence}: {cause}"),
        None => writeln!(errors, "vt_replay: {sentence}"),
    };
}

/// Prints sentences on the faulty lines of a log and on the refused actions of the operator.
pub(crate) fn print_notes<E: Write>(notes: &Notes, log: &str, errors: &mut E) {
    if let Some(first) = notes.first_fault {
        let sentence = FaultyLines { notes, first };
        let _ = writeln!(errors, "vt_replay: {log}: {sentence}");
        if let Some(hint) = first.hint {
            let _ = writeln!(errors, "vt_replay: {log}: {hint}");
        }
    }
    for refused in notes.refused.iter().flatten() {
        let sentence = RefusedAction { refused };
        let _ = writeln!(errors, "vt_replay: {log}: {sentence}");
    }
}

/// Prints that the terminal lost its address, if it did.
pub(crate) fn print_loss<E: Write>(is_lost: bool, log: &str, own: u8, errors: &mut E) {
    if is_lost {
        let _ = writeln!(
            errors,
            "vt_replay: {log}: the terminal lost its address {own:02X} to a lower NAME, and was silent from then on; --name gives it another NAME"
        );
    }
}
