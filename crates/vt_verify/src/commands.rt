//! Reads the commands of macros.

ghost use Rattle.std.specs.Prelude.{◌≡◌};
ghost use Rattle.std.specs.Option.{option_map};
ghost use Rattle.vt_kinds.specs.Records.{seen};
ghost use Rattle.vt_stores.specs.Shapes.{fixed};
ghost use Rattle.vt_verify.specs.Macros.{macro_bytes_in, macro_command};

use vt_objects::{Command, Object, ObjectId};

/// The bytes of the object, if it is a macro with an ID of at most 255.
pub fn named_macro(id: ObjectId, object: &Object<Vec<u8>>) -> Option<&[u8]>
    ensures { option_map (λ bytes. bytes.now) result ≡ macro_bytes_in id (fixed (seen object.now)) }
{
    let Object::Macro(o) = object else {
        return None;
    };
    if id.raw() <= 255 {
        Some(o.bytes.as_slice())
    } else {
        None
    }
}

/// Reads one macro command from its bytes; `None` for Delete Object Pool and for bytes that are no command.
pub fn macro_command(piece: &[u8]) -> Option<Command<'_>>
    ensures { result ≡ macro_command piece.now }
{
    match Command::read(piece)? {
        Command::DeletePool => None,
        command => Some(command),
    }
}
