//! The handling of the operator's actions (docs/PROFILE.md, "The operator").

ghost use Rattle.std.specs.Prelude.{◌≡◌, ◌<◌, [], ◌∷◌, true, false, length, OnOk, OnErr, IsOk, IfOk};
ghost use Rattle.std.specs.Option.{option_map, option_to_list};
ghost use Rattle.vt_can.specs.lines.Actions.{action_value};
ghost use Rattle.vt_can.specs.lines.Actions as actions;
ghost use Rattle.vt_server.specs.operator.ActionContracts.{TakesAction, IsShort};
ghost use Rattle.vt_server.specs.shown.ShownSet as choosing;
ghost use Rattle.vt_server.specs.shown.Screens.{KeepsScreen, TellsChanges, redraws};
ghost use Rattle.vt_server.specs.States.{state_of, TakesInput};
ghost use Rattle.vt_server.specs.declared.input.Input.TheVariants as inputs;

use crate::OutOfMemory;
use crate::frame::step::MOST_OUTPUTS;
use crate::operator::actions::filled;
use crate::output::{OperatorFault, Output, append};
use crate::terminal::Terminal;
use vt_can::Action;
use vt_machine::text_message;
use vt_node::message_to;
use vt_objects::ObjectId;
use vt_transport::SendFault;

/// The most bytes of a text that fits into a message of one frame.
const SHORT_TEXT: usize = 4;

impl Terminal {
    /// Does an action of the operator. All allocations are made before the first change.
    pub(crate) fn operate(
        &mut self,
        action: &Action<'_>,
        outputs: &mut Vec<Output>,
    ) -> Result<(), OutOfMemory>
        ensures ok { OnOk result (TakesInput (state_of self.old) (inputs.Operator action.now) (state_of self.new) outputs.old.items outputs.new.items) }
        ensures err { OnErr result (state_of self.new ≡ state_of self.old) }
        ensures err_sent { OnErr result (outputs.new.items ≡ outputs.old.items) }
        ensures err_redraws { OnErr result (redraws self.new ≡ redraws self.old) }
        // A terminal without its address asks for no memory.
        ensures lost { (state_of self.old).lost ≡ true → IsOk result }
        ensures same { OnOk result (redraws self.new ≡ false → KeepsScreen (state_of self.old) (state_of self.new)) }
    {
        if self.lost {
            self.redraws = false;
            return Ok(());
        }
        outputs.reserve(MOST_OUTPUTS)?;
        let before = self.display();
        let redrew = self.redraws;
        self.redraws = false;
        let answer = match action {
            Action::Set(address) => self.select_set(*address),
            Action::Text(id, text) if text.len() > SHORT_TEXT => {
                match self.enter_long_text(*id, text) {
                    Ok(output) => Some(output),
                    Err(refused) => {
                        self.redraws = redrew;
                        return Err(refused);
                    }
                }
            }
            _ => self.act(action),
        };
        append(outputs, answer);
        self.update_shown(&before, outputs);
        Ok(())
    }

    /// Selects the set of an address. Returns a refusal if there is no pool at the address.
    fn select_set(&mut self, address: u8) -> Option<Output>
        ensures takes { TakesAction (state_of self.old) (actions.Set address) (state_of self.new) [] (option_to_list result) }
        ensures tells { TellsChanges self.old self.new }
    {
        if self.contents.pool(address).is_none() {
            return Some(Output::Refused(OperatorFault::NoSet));
        }
        self.selected = Some(address);
        None
    }

    /// Acts on the shown set. Returns the message of one frame, if the action has one, or the refusal.
    fn act(&mut self, action: &Action<'_>) -> Option<Output>
        requires short { IsShort (action_value action.now) }
        ensures takes { TakesAction (state_of self.old) (action_value action.now) (state_of self.new) [] (option_to_list result) }
        ensures tells { TellsChanges self.old self.new }
    {
        let Some(address) = self.shown_address() else {
            return Some(Output::Refused(OperatorFault::NoSet));
        };
        let is_kept = self.contents.action_keeps_look(address, action);
        match self.contents.act(address, action) {
            None => None,
            Some(Err(refusal)) => Some(Output::Refused(OperatorFault::from(refusal))),
            Some(Ok(acted)) => {
                self.redraws |= !is_kept;
                if acted.message.is_empty() {
                    return None;
                }
                let bytes = filled(acted.message.as_slice());
                Some(Output::Frame(message_to(self.node.own(), address, bytes)))
            }
        }
    }

    /// Enters a text whose message is sent in packets, which needs a session and its memory. Returns the session's first frame,
    /// or the refusal.
    fn enter_long_text(&mut self, id: u16, text: &[u8]) -> Result<Output, OutOfMemory>
        requires long { 4 < length text.now }
        ensures takes { IfOk result (λ output. TakesAction (state_of self.old) (actions.Text id text.now) (state_of self.new) [] (output ∷ [])) }
        ensures tells { TellsChanges self.old self.new }
        ensures err { OnErr result (state_of self.new ≡ state_of self.old) }
    {
        let Some(address) = self.shown_address() else {
            return Ok(Output::Refused(OperatorFault::NoSet));
        };
        if let Some(refusal) = self.contents.text_fault(address, id, text) {
            return Ok(Output::Refused(OperatorFault::from(refusal)));
        }
        let message = text_message(ObjectId::from_raw(id), text);
        match self.node.start(self.time, address, message.as_slice()) {
            Ok(request) => {
                let _done = self.contents.act(address, &Action::Text(id, text));
                self.redraws = true;
                Ok(Output::Frame(request))
            }
            Err(SendFault::Busy) => Ok(Output::Refused(OperatorFault::Busy)),
            Err(SendFault::OutOfMemory) => Err(std::alloc::AllocError),
            Err(SendFault::Size) => unreachable!(),
        }
    }

    /// The address of the shown set, if it has a pool.
    fn shown_address(&self) -> Option<u8>
        ensures { result ≡ option_map (λ found. found.0) (choosing.pool_shown (state_of self.now)) }
    {
        let (address, _live) = self.shown_pool()?;
        Some(address)
    }
}
