//! Differences that a comparison leaves out: messages that this terminal never sends by its profile, and answers with values that each
//! terminal has for itself.

ghost use Rattle.std.specs.Prelude.{◌≡◌, option_map, take, drop};
ghost use Rattle.log_compare.specs.LeftOut as left_out;

use log_answers::Difference;
use vt_can::assigned::{GET_FONTS, GET_HARDWARE, GET_MEMORY, GET_SOFT_KEYS};
use vt_commands::function::{BUTTON_ACTIVATION, SOFT_KEY_ACTIVATION};
use vt_frames_text::SELECT_INPUT;

/// Pointing Event: the operator has touched the mask beside its objects.
const POINTING_EVENT: u8 = 0x02;

/// The state of a key that is still held, in the message that repeats its press.
const STILL_HELD: u8 = 2;

/// Which messages of a function are left out.
#[derive(Clone, Copy, PartialEq, Eq)]
pub(crate) enum LeftOutPart {
    /// Messages with this byte behind the function, which this terminal never sends.
    State(u8),
    /// All messages, which this terminal never sends.
    Whole,
    /// Answers that differ only in the bytes from the first index up to the one before the second.
    Bytes(usize, usize),
}

impl LeftOutPart {
    ghost use Rattle.log_compare.specs.LeftOut.{is_same_outside, never_sends};

    /// Whether this terminal never sends a message with this byte behind the function.
    fn has(self, state: u8) -> bool
        ensures { result ≡ never_sends self state }
    {
        match self {
            LeftOutPart::State(left_out) => state == left_out,
            LeftOutPart::Whole => true,
            LeftOutPart::Bytes(_, _) => false,
        }
    }

    /// Whether two answers are the same outside of the bytes that are left out.
    fn is_same_outside(self, ours: &[u8], theirs: &[u8]) -> bool
        ensures { result ≡ is_same_outside self ours.now theirs.now }
    {
        match self {
            LeftOutPart::State(_) | LeftOutPart::Whole => false,
            LeftOutPart::Bytes(from, to) => {
                front(ours, from) == front(theirs, from) && back(ours, to) == back(theirs, to)
            }
        }
    }
}

/// What is left out of the messages of a function, and why.
#[derive(Clone, Copy, PartialEq, Eq)]
pub(crate) struct LeftOut {
    /// Which messages.
    pub(crate) part: LeftOutPart,
    /// The name of the function.
    pub(crate) name: &'static str,
    /// Why they are left out.
    pub(crate) why: &'static str,
}

const HELD: &str = "this terminal does not repeat held keys";

const NOT_SENT: &str = "this terminal does not send it";

const SCREEN: &str = "each terminal has its own screen";

impl LeftOut {
    /// What is left out of the messages of a function. `None` if nothing is (docs/PROFILE.md, "Answers").
    pub(crate) fn of(function: u8) -> Option<LeftOut>
        ensures { option_map (λ row. row.part) result ≡ left_out.part_of function }
    {
        let row = match function {
            SOFT_KEY_ACTIVATION => LeftOut {
                part: LeftOutPart::State(STILL_HELD),
                name: "Soft Key Activation",
                why: HELD,
            },
            BUTTON_ACTIVATION => LeftOut {
                part: LeftOutPart::State(STILL_HELD),
                name: "Button Activation",
                why: HELD,
            },
            POINTING_EVENT => LeftOut {
                part: LeftOutPart::Whole,
                name: "Pointing Event",
                why: NOT_SENT,
            },
            SELECT_INPUT => LeftOut {
                part: LeftOutPart::Whole,
                name: "Select Input Object",
                why: NOT_SENT,
            },
            GET_MEMORY => LeftOut {
                part: LeftOutPart::Bytes(2, 3),
                name: "Get Memory",
                why: "each terminal has its own memory",
            },
            GET_SOFT_KEYS => LeftOut {
                part: LeftOutPart::Bytes(4, 8),
                name: "Get Number of Soft Keys",
                why: SCREEN,
            },
            GET_FONTS => LeftOut {
                part: LeftOutPart::Bytes(5, 8),
                name: "Get Text Font Data",
                why: "each terminal has its own fonts",
            },
            GET_HARDWARE => LeftOut {
                part: LeftOutPart::Bytes(1, 8),
                name: "Get Hardware",
                why: SCREEN,
            },
            _ => return None,
        };
        Some(row)
    }
}

/// Whether a difference is left out. A message of this terminal alone never is.
pub(crate) fn is_left_out(difference: &Difference) -> bool
    ensures { result ≡ left_out.is_left_out difference.now }
{
    match difference {
        Difference::Differ { ours, theirs } => {
            differ_by_terminal(ours.bytes.as_slice(), theirs.bytes.as_slice())
        }
        Difference::OursAlone(_) => false,
        Difference::TheirsAlone(theirs) => is_never_sent(theirs.bytes.as_slice()),
    }
}

/// Whether a message of the recorded terminal is one that this terminal never sends.
fn is_never_sent(message: &[u8]) -> bool
    ensures { result ≡ left_out.is_never_sent message.now }
{
    let [function, state, rest @ ..] = message else {
        return false;
    };
    match LeftOut::of(*function) {
        Some(row) => rest.len() == 6 && row.part.has(*state),
        None => false,
    }
}

/// Whether two answers differ only in bytes that each terminal has for itself.
fn differ_by_terminal(ours: &[u8], theirs: &[u8]) -> bool
    ensures { result ≡ left_out.differ_by_terminal ours.now theirs.now }
{
    let [function, ..] = ours else {
        return false;
    };
    match LeftOut::of(*function) {
        Some(row) => {
            ours.len() == 8 && theirs.len() == 8 && row.part.is_same_outside(ours, theirs)
        }
        None => false,
    }
}

/// The bytes before an index, or all if there are fewer.
fn front(bytes: &[u8], index: usize) -> &[u8]
    ensures { result.now ≡ take index bytes.now }
{
    bytes.get(..index).unwrap_or(bytes)
}

/// The bytes from an index on, or none if there are fewer.
fn back(bytes: &[u8], index: usize) -> &[u8]
    ensures { result.now ≡ drop index bytes.now }
{
    bytes.get(index..).unwrap_or(&[])
}
