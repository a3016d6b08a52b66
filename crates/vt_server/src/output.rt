//! The outputs of the terminal.

ghost use Rattle.std.specs.Prelude.{◌≡◌, ◌++◌, [], ◌∷◌, length};
ghost use Rattle.std.specs.Option.{option_to_list};
ghost use Rattle.vt_server.specs.Outputs.{frames_of, HasSpare, UsesAtMost};
ghost use Rattle.vt_server.specs.declared.output.Output.TheVariants as declared;

use arrayvec::ArrayVec;
use thiserror::Error;
use vt_can::Frame;
use vt_machine::OperatorRefusal;

/// Why an action of the operator is refused: the refusals 1 to 9 of docs/PROFILE.md, "Refusals".
#[derive(Clone, Copy, Debug, PartialEq, Eq, Error)]
pub enum OperatorFault {
    /// The shown working set refuses it: 1 to 7.
    #[error(transparent)]
    Refused(OperatorRefusal),
    /// A message to the working set is still being sent: 8.
    #[error("a message to the working set is still being sent")]
    Busy,
    /// No working set with a pool is shown, or is at the address of `! set`: 9.
    #[error("no working set with a pool is shown, or is at the address of ! set")]
    NoSet,
}

/// One output of the terminal.
#[derive(Drop)]
pub enum Output {
    /// A frame to the bus.
    Frame(Frame),
    /// A refusal to the operator.
    Refused(OperatorFault),
}

/// Appends a frame for which there is spare capacity.
pub(crate) fn send(outputs: &mut Vec<Output>, frame: Frame)
    requires capacity { HasSpare 1 outputs.old }
    ensures items { outputs.new.items ≡ outputs.old.items ++ declared.Frame frame ∷ [] }
    ensures capacity { UsesAtMost 1 outputs.old outputs.new }
{
    let _done = outputs.push(Output::Frame(frame));
}

/// Appends a reply, if there is one, for which there is spare capacity.
pub(crate) fn send_reply(outputs: &mut Vec<Output>, reply: Option<Frame>)
    requires capacity { HasSpare 1 outputs.old }
    ensures items { outputs.new.items ≡ outputs.old.items ++ frames_of (option_to_list reply) }
    ensures capacity { UsesAtMost 1 outputs.old outputs.new }
{
    if let Some(reply) = reply {
        send(outputs, reply);
    }
}

/// Appends an output, if there is one, for which there is spare capacity.
pub(crate) fn append(outputs: &mut Vec<Output>, output: Option<Output>)
    requires capacity { HasSpare 1 outputs.old }
    ensures items { outputs.new.items ≡ outputs.old.items ++ option_to_list output }
    ensures capacity { UsesAtMost 1 outputs.old outputs.new }
{
    if let Some(output) = output {
        let _done = outputs.push(output);
    }
}

/// Appends frames for which there is spare capacity.
pub(crate) fn send_all(outputs: &mut Vec<Output>, frames: ArrayVec<Frame, 255>)
    requires capacity { HasSpare (length frames.items) outputs.old }
    ensures items { outputs.new.items ≡ outputs.old.items ++ frames_of frames.items }
    ensures capacity { UsesAtMost (length frames.items) outputs.old outputs.new }
{
    for frame in frames {
        send(outputs, frame);
    }
}

impl From<OperatorRefusal> for OperatorFault {
    ghost use Rattle.vt_server.specs.operator.ActionEffects.{fault_of};

    ghost from_gives = { λ refusal fault. fault ≡ fault_of refusal };

    fn from(refusal: OperatorRefusal) -> OperatorFault {
        OperatorFault::Refused(refusal)
    }
}
