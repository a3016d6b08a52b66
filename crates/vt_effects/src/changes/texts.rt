//! Change String Value.

ghost use Rattle.std.specs.Prelude.{◌≡◌};
ghost use Rattle.vt_kinds.specs.Records.{seen};
ghost use Rattle.vt_effects.specs.Changes as changes;
ghost use Rattle.vt_effects.specs.Changes.{HasResult, left};

use crate::error;
use vt_kinds::Object;

/// Overwrites a text with the first bytes of another, and the rest of it with spaces.
pub(crate) fn change_text(object: &mut Object<Vec<u8>>, length: u16, text: &[u8]) -> Result<(), u8>
    ensures result { HasResult result (changes.change_text length text.now (seen object.old)) }
    ensures object { seen object.new ≡ left (seen object.old) (changes.change_text length text.now (seen object.old)) }
{
    let length = usize::from(length);
    match object {
        Object::InputString(input) => {
            if length > input.text.as_slice().len() || length > text.len() {
                return Err(error::LENGTH);
            }
            input.text.overwrite(&text[..length]);
        }
        Object::OutputString(output) => {
            if length > output.text.as_slice().len() || length > text.len() {
                return Err(error::LENGTH);
            }
            output.text.overwrite(&text[..length]);
        }
        Object::StringVariable(variable) => {
            if length > variable.text.as_slice().len() || length > text.len() {
                return Err(error::LENGTH);
            }
            variable.text.overwrite(&text[..length]);
        }
        _ => return Err(error::OBJECT_ID),
    }
    Ok(())
}
