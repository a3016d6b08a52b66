//! Timeouts at a frame line: first silent sessions end, then silent sets are closed (docs/PROFILE.md, "Timeouts", "Silence").

ghost use Rattle.std.specs.Prelude.{◌≡◌, ◌≤◌, ◌++◌, ℕ, Option, None, Some};
ghost use Rattle.vt_server.specs.frame.TimeoutActs as lapses;
ghost use Rattle.vt_server.specs.Outputs.{outputs_of, HasSpare};
ghost use Rattle.std.specs.FinMap as finite;
ghost use Rattle.vt_can.specs.Assigned.{TP_TIMEOUT, ETP_TIMEOUT, SENDER_TIMEOUT};
ghost use Rattle.vt_can.specs.transport.Sessions.{alive};
ghost use Rattle.vt_server.specs.frame.TimeoutContracts.{HasLapsed, ClosesSets};
ghost use Rattle.vt_server.specs.States.{state_of};
ghost use Rattle.vt_server.specs.Terminals as spec;

use crate::output::{Output, send};
use crate::terminal::Terminal;

impl Terminal {
    /// Moves the time on to `now`, not before the latest. Aborts overdue sessions by address, then closes silent sets in the
    /// order of their registration.
    pub(crate) fn lapse(&mut self, now: u64, outputs: &mut Vec<Output>)
        requires capacity { HasSpare 1026 outputs.old }
        requires later { (state_of self.old).now ≤ now }
        ensures state { state_of self.new ≡ lapses.lapsed (lapses.at_time (state_of self.old) now) }
        ensures sent { outputs.new.items ≡ outputs.old.items ++ outputs_of (lapses.sent_by_lapses (lapses.at_time (state_of self.old) now)) }
        ensures capacity { HasSpare 258 outputs.new }
        ensures lapsed { HasLapsed self.old self.new now }
    {
        self.time = now;
        self.registry.begin(now);
        self.expire_tp(outputs);
        self.expire_etp(outputs);
        self.expire_sending(outputs);
        self.close_silent();
    }

    fn expire_tp(&mut self, outputs: &mut Vec<Output>)
        requires capacity { HasSpare 1026 outputs.old }
        ensures state { state_of self.new ≡ lapses.after_tp_timeouts (state_of self.old) }
        ensures sent { outputs.new.items ≡ outputs.old.items ++ outputs_of (spec.sent_by_acts (state_of self.old) (lapses.tp_due (state_of self.old))) }
        ensures capacity { HasSpare 770 outputs.new }
        ensures timely { (address : ℕ) → finite.get self.new.node.tp address ≡ alive TP_TIMEOUT self.old.time (finite.get self.old.node.tp address) }
        ensures rest { self.new ≡ record self.old { node = record self.old.node { tp = self.new.node.tp } } }
    {
        while let Some(abort) = self.node.expire_tp(self.time) {
            send(outputs, abort);
        }
    }

    fn expire_etp(&mut self, outputs: &mut Vec<Output>)
        requires capacity { HasSpare 770 outputs.old }
        ensures state { state_of self.new ≡ spec.after_acts (state_of self.old) (lapses.etp_due (state_of self.old)) }
        ensures sent { outputs.new.items ≡ outputs.old.items ++ outputs_of (spec.sent_by_acts (state_of self.old) (lapses.etp_due (state_of self.old))) }
        ensures capacity { HasSpare 514 outputs.new }
        ensures timely { (address : ℕ) → finite.get self.new.node.etp address ≡ alive ETP_TIMEOUT self.old.time (finite.get self.old.node.etp address) }
        ensures rest { self.new ≡ record self.old { node = record self.old.node { etp = self.new.node.etp } } }
    {
        while let Some(abort) = self.node.expire_etp(self.time) {
            send(outputs, abort);
        }
    }

    fn expire_sending(&mut self, outputs: &mut Vec<Output>)
        requires capacity { HasSpare 514 outputs.old }
        ensures state { state_of self.new ≡ spec.after_acts (state_of self.old) (lapses.sending_due (state_of self.old)) }
        ensures sent { outputs.new.items ≡ outputs.old.items ++ outputs_of (spec.sent_by_acts (state_of self.old) (lapses.sending_due (state_of self.old))) }
        ensures capacity { HasSpare 258 outputs.new }
        ensures timely { (address : ℕ) → finite.get self.new.node.sending address ≡ alive SENDER_TIMEOUT self.old.time (finite.get self.old.node.sending address) }
        ensures rest { self.new ≡ record self.old { node = record self.old.node { sending = self.new.node.sending } } }
    {
        while let Some(abort) = self.node.expire_sending(self.time) {
            send(outputs, abort);
        }
    }

    fn close_silent(&mut self)
        ensures state { state_of self.new ≡ spec.after_acts (state_of self.old) (lapses.silences (state_of self.old)) }
        ensures closes { ClosesSets self.old self.new }
    {
        while let Some(address) = self.registry.first_silent(self.time) {
            self.registry.close(address);
            self.contents.remove(address);
        }
    }
}
