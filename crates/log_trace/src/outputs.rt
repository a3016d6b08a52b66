//! The lines of a terminal's outputs.

ghost use Rattle.std.specs.Prelude.{OnOk};
ghost use Rattle.log_trace.specs.Lines.{Gains};
ghost use Rattle.log_trace.specs.Traces.{AreOutputLines, IsOutputLine};

use crate::lines::put_line;
use check_text::Names;
use std::alloc::AllocError;
use std::fmt::Write;
use vt_can::write_frame;
use vt_logs::refusal_name;
use vt_messages_text::{AddressedSentence, Sentence};
use vt_server::{Output, Terminal};

/// Appends the lines of a terminal's outputs, in their order. `words` is a buffer.
pub(crate) fn put_outputs(
    outputs: &[Output],
    terminal: &Terminal,
    names: &Names,
    words: &mut String,
    text: &mut Vec<u8>,
) -> Result<(), AllocError>
    ensures { OnOk result (Gains (AreOutputLines outputs.now) text.old.items text.new.items) }
{
    for output in outputs {
        put_output(output, terminal, names, words, text)?;
    }
    Ok(())
}

/// Appends the line of an output: a frame, or a refusal to the operator. `words` is a buffer.
fn put_output(
    output: &Output,
    terminal: &Terminal,
    names: &Names,
    words: &mut String,
    text: &mut Vec<u8>,
) -> Result<(), AllocError>
    ensures { OnOk result (Gains (IsOutputLine output.now) text.old.items text.new.items) }
{
    text.extend_from_slice(b"    ")?;
    words.clear();
    match output {
        Output::Frame(frame) => {
            let sentence = Sentence {
                frame,
                terminal,
                names,
            };
            write!(words, "{}", AddressedSentence(sentence)).map_err(|_| AllocError)?;
            text.extend_from_slice(&write_frame(frame))?;
            put_line(b"  ", words.as_bytes(), text)
        }
        Output::Refused(fault) => {
            write!(words, "{fault}").map_err(|_| AllocError)?;
            text.extend_from_slice(b"operator ")?;
            text.extend_from_slice(refusal_name(*fault).as_bytes())?;
            put_line(b"  ", words.as_bytes(), text)
        }
    }
}
