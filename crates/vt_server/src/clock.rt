//! The terminal between frames: its claim, its status, and the time (docs/PROFILE.md, "Ticks").

ghost use Rattle.std.specs.Prelude.{◌≡◌, true, false, IsOk, OnOk, OnErr};
ghost use Rattle.vt_can.specs.transport.FirstTimes.{IsFirstTime};
ghost use Rattle.vt_node.specs.Messages.{claim_from};
ghost use Rattle.vt_server.specs.declared.input.Input.TheVariants as inputs;
ghost use Rattle.vt_server.specs.frame.Deadlines.{IsDue, IsLate, echo, is_settled};
ghost use Rattle.vt_server.specs.shown.Screens.{KeepsScreen, redraws};
ghost use Rattle.vt_server.specs.shown.ShownSet as choosing;
ghost use Rattle.vt_server.specs.States.{state_of, TakesInput};

use crate::OutOfMemory;
use crate::message::status::status_frame;
use crate::output::Output;
use crate::terminal::Terminal;
use vt_can::{Frame, earlier};
use vt_node::{Profile, claim_from, echo};

impl Terminal {
    /// The terminal's own address. It stays the same after its loss.
    pub fn own(&self) -> u8
        ensures { result ≡ (state_of self.now).claims.own }
    {
        self.node.own()
    }

    /// The answers to requests for technical data.
    pub fn profile(&self) -> &Profile
        ensures { result.now ≡ (state_of self.now).profile }
    {
        &self.profile
    }

    /// The address claim that a host sends at its start. The terminal itself answers claims and requests, and sends none at its
    /// start. ISO 11783-5; docs/PROFILE.md, "The terminal's claims".
    pub fn claim(&self) -> Frame
        ensures { result ≡ claim_from (state_of self.now).claims.own (state_of self.now).claims.name }
    {
        claim_from(self.node.own(), self.node.name())
    }

    /// The status message, which a host repeats each second. The terminal itself sends it when the display changes.
    /// ISO 11783-6; docs/PROFILE.md, "The status message".
    pub fn status(&self) -> Frame
        ensures { result ≡ choosing.status_frame (state_of self.now).claims.own (choosing.display (state_of self.now)) }
    {
        status_frame(self.node.own(), &self.display())
    }

    /// Whether a lower NAME has claimed the terminal's address. A lost terminal sends nothing any more.
    pub fn is_lost(&self) -> bool
        ensures { result ≡ (state_of self.now).lost }
    {
        self.lost
    }

    /// Advances the time without a frame: sessions time out, silent sets are closed, and the shown set is chosen. The step is
    /// that of an echo. Appends at most 1,024 outputs. After `OutOfMemory` the terminal and the outputs are unchanged.
    /// docs/PROFILE.md, "Ticks".
    pub fn tick(&mut self, time: u64, outputs: &mut Vec<Output>) -> Result<(), OutOfMemory>
        ensures ok { OnOk result (TakesInput (state_of self.old) (inputs.Frame time (echo (state_of self.old).claims.own)) (state_of self.new) outputs.old.items outputs.new.items) }
        ensures err { OnErr result (state_of self.new ≡ state_of self.old) }
        ensures err_sent { OnErr result (outputs.new.items ≡ outputs.old.items) }
        ensures err_redraws { OnErr result (redraws self.new ≡ redraws self.old) }
        // A terminal that lost its address needs no memory.
        ensures lost { (state_of self.old).lost ≡ true → IsOk result }
        // If `redraws` is false afterwards, the text of the screen is the same.
        ensures same { OnOk result (redraws self.new ≡ false → KeepsScreen (state_of self.old) (state_of self.new)) }
    {
        let echo = echo(self.node.own());
        self.step_frame(time, &echo, outputs)
    }

    /// The first time at which a tick would do more than advance the time, or `None` if no tick ever would. If it is not after
    /// the latest time, a tick is due at once. docs/PROFILE.md, "Ticks".
    pub fn next_deadline(&self) -> Option<u64>
        ensures { IsFirstTime (IsDue (state_of self.now)) result }
    {
        if self.lost {
            return None;
        }
        if !self.is_settled() || self.registry.awaits() {
            return Some(0);
        }
        let now = self.time;
        let late = self.late_from()?;
        if late <= now {
            return Some(0);
        }
        Some(late)
    }

    // The first time at which a session is overdue or a set is silent.
    fn late_from(&self) -> Option<u64>
        ensures { IsFirstTime (IsLate (state_of self.now)) result }
    {
        earlier(self.node.overdue_from(), self.registry.silent_from())
    }

    // Whether the selected set and the shown set are those that would be chosen now.
    fn is_settled(&self) -> bool
        ensures { result ≡ is_settled (state_of self.now) }
    {
        let selected = self.selected_now();
        self.selected == selected && self.shown == self.shown_by(selected)
    }
}
