//! Lines of a trace.

ghost use Rattle.std.specs.Prelude.{◌≡◌, ◌++◌, OnOk};
ghost use Rattle.std.specs.List.{list_any};
ghost use Rattle.vt_logs.specs.Texts.{newline};
ghost use Rattle.log_trace.specs.Lines.{is_control, dotted};

use std::alloc::AllocError;

/// Appends a line: a front, and behind it a text with a dot for each control character, so that it has no newline in it.
pub(crate) fn put_line(front: &[u8], shown: &[u8], text: &mut Vec<u8>) -> Result<(), AllocError>
    ensures { OnOk result (text.new.items ≡ text.old.items ++ front.now ++ dotted shown.now ++ newline) }
{
    text.extend_from_slice(front)?;
    put_dotted(shown, text)?;
    text.push(b'\n')?;
    Ok(())
}

/// Appends a text with a dot for each control character.
fn put_dotted(shown: &[u8], text: &mut Vec<u8>) -> Result<(), AllocError>
    ensures { OnOk result (text.new.items ≡ text.old.items ++ dotted shown.now) }
{
    if !has_control(shown) {
        text.extend_from_slice(shown)?;
        return Ok(());
    }
    for byte in shown {
        text.push(if is_control(*byte) { b'.' } else { *byte })?;
    }
    Ok(())
}

/// Whether a text has a control character. Looks at each byte, which is quicker than to stop at the first one.
fn has_control(shown: &[u8]) -> bool
    ensures { result ≡ list_any is_control shown.now }
{
    let mut has_control = false;
    for byte in shown {
        has_control |= is_control(*byte);
    }
    has_control
}

/// Whether a byte is a control character.
fn is_control(byte: u8) -> bool
    ensures { result ≡ is_control byte }
{
    byte < 32 || byte == 127
}
