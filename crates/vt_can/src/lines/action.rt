//! Operator lines.

ghost use Rattle.std.specs.Prelude.{ℕ, List, MatchOption};
ghost use Rattle.vt_can.specs.lines.Actions.{ActionValue, IsActionText, IsNumber, action_value};
ghost use Rattle.vt_can.specs.lines.Fields.{IsIdAnd};

use crate::lines::digits::decimal;
use crate::lines::fields::cut;
use crate::lines::line::Action;
use hex::FromHex;

/// Parses an operator line, given without its leading `! `.
pub fn action(rest: &[u8]) -> Option<Action<'_>>
    ensures { MatchOption result ((d : ActionValue) → IsActionText rest.now d → ⊥) (λ a. IsActionText rest.now (action_value a)) }
{
    if let Some(id) = rest.strip_prefix(b"press ") {
        Some(Action::Press(object_id(id)?))
    } else if let Some(id) = rest.strip_prefix(b"release ") {
        Some(Action::Release(object_id(id)?))
    } else if let Some(id) = rest.strip_prefix(b"select ") {
        Some(Action::Select(object_id(id)?))
    } else if let Some(more) = rest.strip_prefix(b"number ") {
        let (id, number) = id_and_more(more)?;
        Some(Action::Number(id, decimal(number, u32::MAX)?))
    } else if let Some(more) = rest.strip_prefix(b"text ") {
        let (id, text) = id_and_more(more)?;
        Some(Action::Text(id, text))
    } else {
        let [address] = <[u8; 1]>::from_hex(rest.strip_prefix(b"set ")?).ok()?;
        Some(Action::Set(address))
    }
}

// Splits a text into an object ID and the text after one space.
fn id_and_more(text: &[u8]) -> Option<(u16, &[u8])>
    ensures { MatchOption result
        ((id : ℕ) (more : List ℕ) → IsIdAnd text.now id more → ⊥)
        (λ x. IsIdAnd text.now x.0 x.1.now) }
{
    let (id, more) = cut(text, b' ')?;
    Some((object_id(id)?, more))
}

// Parses an object ID, at most 65534.
fn object_id(text: &[u8]) -> Option<u16>
    ensures { MatchOption result ((id : ℕ) → IsNumber text.now id 65534 → ⊥) (λ id. IsNumber text.now id 65534) }
{
    let id = decimal(text, 65534)?;
    Some(id as u16)
}
