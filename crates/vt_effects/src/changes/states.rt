//! Hide/Show Object and Enable/Disable Object.

ghost use Rattle.std.specs.Prelude.{◌≡◌, ◌≤◌};
ghost use Rattle.vt_kinds.specs.Records.{seen};
ghost use Rattle.vt_effects.specs.Changes as changes;
ghost use Rattle.vt_effects.specs.Changes.{HasResult, left};

use crate::error;
use vt_kinds::{Kinds, Object};

/// Shows a container (state 1) or hides it (state 0).
pub(crate) fn hide_show(object: &mut Object<Vec<u8>>, state: u8) -> Result<(), u8>
    ensures result { HasResult result (changes.hide_show state (seen object.old)) }
    ensures object { seen object.new ≡ left (seen object.old) (changes.hide_show state (seen object.old)) }
{
    let Object::Container(container) = object else {
        return Err(error::OBJECT_ID);
    };
    if state > 1 {
        return Err(error::STATE);
    }
    container.hidden = 1 - state;
    Ok(())
}

/// Enables an input (state 1) or disables it (state 0).
pub(crate) fn enable_disable(object: &mut Object<Vec<u8>>, state: u8) -> Result<(), u8>
    ensures result { HasResult result (changes.enable_disable state (seen object.old)) }
    ensures object { seen object.new ≡ left (seen object.old) (changes.enable_disable state (seen object.old)) }
{
    if !Kinds::Inputs.contains(object.kind()) {
        return Err(error::OBJECT_ID);
    }
    if state > 1 {
        return Err(error::STATE);
    }
    match object {
        Object::InputBoolean(input) => input.enabled = state,
        Object::InputString(input) => input.enabled = state,
        Object::InputNumber(input) => input.options_two = with_lowest_bit(input.options_two, state),
        Object::InputList(input) => input.options = with_lowest_bit(input.options, state),
        _ => {}
    }
    Ok(())
}

/// Replaces the lowest bit of options.
pub(crate) fn with_lowest_bit(options: u8, state: u8) -> u8
    requires { state ≤ 1 }
    ensures { result ≡ changes.with_lowest_bit options state }
{
    options - options % 2 + state
}
