//! The bytes of a macro, one command at a time.

ghost use Rattle.std.specs.Prelude.{◌≡◌, ◌<◌, ℕ, List, length, IfSome, IfNone};
ghost use Rattle.vt_commands.specs.Pieces.{IsSplit, command_length};

use crate::row::function::{CHANGE_CHILD_POSITION, CHANGE_STRING_VALUE};
use byteorder::{ByteOrder, LittleEndian};

/// Splits a macro's bytes after its first command: returns that command's bytes with its padding, and the remaining
/// bytes. `None` if the bytes end before the command does.
pub fn split_command(bytes: &[u8]) -> Option<(&[u8], &[u8])>
    ensures some { IfSome result (λ parts. IsSplit bytes.now parts.0.now parts.1.now) }
    ensures none { IfNone result ((piece rest : List ℕ) → IsSplit bytes.now piece rest → ⊥) }
{
    let length = command_length(bytes)?;
    bytes.split_at_checked(length)
}

/// The number of bytes of the first command, or `None` if too few bytes are there to tell.
fn command_length(bytes: &[u8]) -> Option<usize>
    ensures some { IfSome result (λ n. n ≡ command_length bytes.now) }
    ensures none { IfNone result (length bytes.now < 5) }
{
    match *bytes.first()? {
        CHANGE_CHILD_POSITION => Some(9),
        CHANGE_STRING_VALUE if bytes.len() < 5 => None,
        CHANGE_STRING_VALUE => {
            let text = LittleEndian::read_u16(&bytes[3..5]);
            Some((5 + usize::from(text)).max(8))
        }
        _ => Some(8),
    }
}
