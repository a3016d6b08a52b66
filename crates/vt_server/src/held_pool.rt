//! The pool of a set, in a box.

ghost use Rattle.std.specs.Prelude.{◌≡◌, ◌≤◌, Some, IfNone, length};
ghost use Rattle.vt_can.specs.lines.Actions.{action_value};
ghost use Rattle.vt_machine.specs.Replacements.{AreReplacements};
ghost use Rattle.vt_machine.specs.SetStates.{Applied, after_run, audio_after_command};
ghost use Rattle.vt_server.specs.message.Judgements.{with_replaced};
ghost use Rattle.vt_server.specs.operator.ActionContracts.{Performs, WouldBeRefused};
ghost use Rattle.vt_server.specs.state.AddressViews.{raised_on};

use crate::operator::actions::{act, text_fault};
use std::marker::Model;
use vt_can::Action;
use vt_machine::{Acted, Live, OperatorRefusal, Outcome, Replacement};
use vt_objects::{Command, SortedStore};

/// The pool of a set. It is in a box, so that a table of 256 of them takes 2 KB, whatever a pool takes.
#[derive(Drop)]
pub(crate) struct HeldPool {
    live: Box<Live<SortedStore>>,
}

impl Model for HeldPool {
    ghost use Rattle.vt_machine.specs.SetStates.{SetState, state_code};

    ghost Value = { SetState };

    ghost coded = { state_code };

    ghost view = { λ p. p.live.value };
}

impl HeldPool {
    pub(crate) fn new(live: Box<Live<SortedStore>>) -> HeldPool
        ensures { result ≡ live.value }
    {
        HeldPool { live }
    }

    /// The pool.
    pub(crate) fn live(&self) -> &Live<SortedStore>
        ensures { result.now ≡ self.now }
    {
        &*self.live
    }

    /// Replaces objects.
    pub(crate) fn replace(&mut self, replacement: Replacement)
        requires { AreReplacements self.old.objects replacement }
        ensures { self.new ≡ with_replaced self.old replacement }
    {
        self.live.replace(replacement);
    }

    /// Does a command, and runs the macros of the events that it raises.
    pub(crate) fn apply(&mut self, command: &Command<'_>) -> Outcome
        ensures applied { Applied self.old.objects command.now result self.new.objects }
        ensures kept { self.new ≡ after_run self.old self.new.objects self.new.audio }
        ensures audio { self.new.audio ≡ audio_after_command command.now self.old }
    {
        self.live.apply(command)
    }

    /// Raises an event of the Working Set.
    pub(crate) fn raise(&mut self, event: u8)
        ensures { self.new ≡ raised_on self.old event }
    {
        let id = self.live.working_set();
        let _steps = self.live.raise(id, event);
    }

    /// Does an action of the operator.
    pub(crate) fn act(&mut self, action: &Action<'_>) -> Option<Result<Acted, OperatorRefusal>>
        ensures { Performs self.old (action_value action.now) result self.new }
    {
        act(&mut *self.live, action)
    }

    /// The refusal of a text, if it would be refused. Changes nothing. An accepted text has at most 255 bytes.
    pub(crate) fn text_fault(&mut self, id: u16, text: &[u8]) -> Option<OperatorRefusal>
        ensures fault { WouldBeRefused (Some self.old) id text.now result }
        ensures short { IfNone result (length text.now ≤ 255) }
        ensures same { self.new ≡ self.old }
    {
        text_fault(&mut *self.live, id, text)
    }
}
