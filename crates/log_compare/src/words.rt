//! The words of a message behind its bytes.

use check_text::Names;
use log_answers::Said;
use std::alloc::{AllocError, Global};
use vt_can::assigned::VT_TO_ECU;
use vt_frames_text::{HexBytes, function_name};
use vt_messages_text::MessageSentence;
use vt_server::Terminal;

/// What a message says, without the name of its function in front, such as `done`. `None` if nothing but its bytes can be said. The
/// objects are those that the terminal has now.
pub(crate) fn words_of(
    alloc: Global,
    said: &Said,
    terminal: &Terminal,
    names: &Names,
) -> Result<Option<String>, AllocError> {
    let bytes = said.bytes.as_slice();
    let sentence = MessageSentence {
        group: VT_TO_ECU,
        source: terminal.own(),
        destination: Some(said.topic.destination),
        bytes,
        terminal,
        names,
    };
    let sentence = format!(in alloc; "{sentence}")?;
    let hex = format!(in alloc; "{}", HexBytes(bytes))?;
    let Some(words) = behind_name(sentence.as_str(), said.topic.function) else {
        return Ok(None);
    };
    if words == hex.as_str() {
        return Ok(None);
    }
    Ok(Some(String::from_str(alloc, words)?))
}

/// The rest of a sentence behind the name of its function. `None` if the function has no name.
fn behind_name(sentence: &str, function: u8) -> Option<&str> {
    let rest = sentence.strip_prefix(function_name(function)?)?;
    rest.strip_prefix(": ")
}
