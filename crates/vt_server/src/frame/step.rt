//! The handling of a received frame.

ghost use Rattle.std.specs.Prelude.{◌≡◌, ◌++◌, ◌<◌, ℕ, List, false, true, IsOk, IfOk, OnOk, OnErr};
ghost use Rattle.vt_can.specs.frames.Frame.{source_of};
ghost use Rattle.vt_node.specs.Bus.{meaning_of};
ghost use Rattle.vt_server.specs.shown.ShownSet.{display};
ghost use Rattle.vt_server.specs.shown.DisplayValues.{display_value};
ghost use Rattle.vt_server.specs.frame.FrameContracts.{FitsBeforeTimeouts, FitsAfterTimeouts, IsNoClaim, HasCapacity, HasUpload, FinishesFrame, TakesFrame, AppliesMeaning, end_prepared};
ghost use Rattle.vt_server.specs.Outputs.{outputs_of, HasSpare};
ghost use Rattle.vt_server.specs.state.AddressViews as parts;
ghost use Rattle.vt_server.specs.shown.Screens.{KeepsScreen, ShowsWhatIsLeft, TellsChanges, redraws};
ghost use Rattle.vt_server.specs.States.{state_of, TakesInput};
ghost use Rattle.vt_server.specs.message.UploadEnds.{TellsEnd, upload_end};
ghost use Rattle.vt_server.specs.Steps as steps;
ghost use Rattle.vt_server.specs.Terminals as spec;
ghost use Rattle.vt_node.specs.declared.bus.FrameMeaning.TheVariants as meanings;
ghost use Rattle.vt_server.specs.declared.input.Input.TheVariants as inputs;

use crate::OutOfMemory;
use crate::frame::claim::FormerHolders;
use crate::message::upload::PreparedMessage;
use crate::output::{Output, send};
use crate::shown::ShownMasks;
use crate::terminal::Terminal;
use crate::upload_end::UploadEnd;
use vt_can::Frame;
use vt_can::assigned::NULL_ADDRESS;
use vt_names::ClaimMeaning;
use vt_node::{FrameMeaning, claim_from, meaning_of};

/// Capacity for the outputs of one input: 768 aborts, a reply, 255 packets, a reply and a status. At most 1,024 are ever sent.
pub(crate) const MOST_OUTPUTS: usize = 1026;

/// Memory and results reserved for a frame before any state changes.
#[derive(Drop)]
pub(crate) enum PreparedFrame {
    /// The terminal loses its address by this frame.
    Loses,
    /// The claim is recorded; these were the holders before it.
    Claimed(FormerHolders),
    /// Capacity is reserved for the set, session or upload that the frame may bring.
    Prepared(PreparedMessage),
}

impl Terminal {
    /// Handles a frame received at a time. All growths are made before the first change.
    pub(crate) fn step_frame(
        &mut self,
        time: u64,
        frame: &Frame,
        outputs: &mut Vec<Output>,
    ) -> Result<(), OutOfMemory>
        ensures ok { OnOk result (TakesInput (state_of self.old) (inputs.Frame time frame.now) (state_of self.new) outputs.old.items outputs.new.items) }
        ensures err { OnErr result (state_of self.new ≡ state_of self.old) }
        ensures err_sent { OnErr result (outputs.new.items ≡ outputs.old.items) }
        ensures err_redraws { OnErr result (redraws self.new ≡ redraws self.old) }
        // A terminal without its address asks for no memory.
        ensures lost { (state_of self.old).lost ≡ true → IsOk result }
        ensures same { OnOk result (redraws self.new ≡ false → KeepsScreen (state_of self.old) (state_of self.new)) }
        ensures told { OnOk result (TellsEnd (state_of self.old) time frame.now (upload_end self.new)) }
    {
        if self.lost {
            self.redraws = false;
            return Ok(());
        }
        outputs.reserve(MOST_OUTPUTS)?;
        let now = self.time.max(time);
        let meaning = meaning_of(self.node.own(), self.node.name(), frame);
        let ready = self.prepare(now, &meaning, frame)?;
        let end = end_of(&ready);
        let before = self.display();
        self.lapse(now, outputs);
        self.finish(&meaning, frame, ready, &before, outputs);
        self.upload_end = end;
        Ok(())
    }

    /// Reserves the capacity that a frame may need, and records a claim. No later call for this frame allocates.
    fn prepare(
        &mut self,
        now: u64,
        meaning: &FrameMeaning,
        frame: &Frame,
    ) -> Result<PreparedFrame, OutOfMemory>
        requires { meaning.now ≡ meaning_of (state_of self.old).claims.own (state_of self.old).claims.name frame.now }
        ensures ok { IfOk result (FitsBeforeTimeouts (state_of self.old) self.new now meaning.now frame.now) }
        ensures err { OnErr result (state_of self.new ≡ state_of self.old) }
        ensures redraws { redraws self.new ≡ redraws self.old }
    {
        let source = frame.id.source();
        match *meaning {
            FrameMeaning::Claim(name) => match self.node.answer(source, name) {
                ClaimMeaning::Lost => Ok(PreparedFrame::Loses),
                verdict => {
                    let former = self.record(source, name, verdict == ClaimMeaning::Defend)?;
                    Ok(PreparedFrame::Claimed(former))
                }
            },
            FrameMeaning::Master { .. } => {
                self.registry.reserve(source)?;
                Ok(PreparedFrame::Prepared(PreparedMessage::Nothing))
            }
            FrameMeaning::Message => {
                let upload = self.prepare_frame(source, frame.bytes.as_slice())?;
                Ok(PreparedFrame::Prepared(upload))
            }
            FrameMeaning::Tp => {
                let completed = self.node.prepare_tp(now, frame)?;
                let upload = self.prepare_announced(source, completed)?;
                Ok(PreparedFrame::Prepared(upload))
            }
            FrameMeaning::Etp => {
                let completed = self.node.prepare_etp(now, frame)?;
                let upload = self.prepare_announced(source, completed)?;
                Ok(PreparedFrame::Prepared(upload))
            }
            _ => Ok(PreparedFrame::Prepared(PreparedMessage::Nothing)),
        }
    }

    /// Handles a frame after the timeouts and closings of its time.
    fn finish(
        &mut self,
        meaning: &FrameMeaning,
        frame: &Frame,
        ready: PreparedFrame,
        before: &ShownMasks,
        outputs: &mut Vec<Output>,
    )
        requires capacity { HasSpare 258 outputs.old }
        requires ready { (s : spec.State) × FitsAfterTimeouts s self.old meaning.now frame.now ready }
        ensures hears { (old s : spec.State) → display_value before.now ≡ display old → FitsAfterTimeouts s self.old meaning.now frame.now ready
            → FinishesFrame old s meaning.now frame.now (state_of self.new) outputs.old.items outputs.new.items }
        ensures tells { redraws self.new ≡ false → ShowsWhatIsLeft (state_of self.old) (state_of self.new) }
    {
        match ready {
            PreparedFrame::Loses => {
                self.lose(outputs);
                self.redraws = true;
            }
            PreparedFrame::Claimed(former) => {
                self.take_claim(frame.id.source(), &former, outputs);
                // A claim may close a set, but changes no pool.
                self.redraws = false;
                self.update_shown(before, outputs);
            }
            PreparedFrame::Prepared(upload) => {
                self.redraws = false;
                self.take(meaning, frame, upload, outputs);
                self.update_shown(before, outputs);
            }
        }
    }

    /// Loses the own address: sends Cannot Claim, and nothing after it. If the shown set was closed, none is shown.
    fn lose(&mut self, outputs: &mut Vec<Output>)
        requires capacity { HasSpare 1 outputs.old }
        ensures state { state_of self.new ≡ (steps.losing (state_of self.old)).after }
        ensures sent { outputs.new.items ≡ outputs.old.items ++ outputs_of (steps.losing (state_of self.old)).sent }
    {
        send(outputs, claim_from(NULL_ADDRESS, self.node.name()));
        if self.shown_pool().is_none() {
            self.shown = None;
        }
        self.lost = true;
    }

    /// Handles a frame other than a claim.
    fn take(
        &mut self,
        meaning: &FrameMeaning,
        frame: &Frame,
        upload: PreparedMessage,
        outputs: &mut Vec<Output>,
    )
        requires capacity { HasSpare 258 outputs.old }
        requires no_claim { IsNoClaim meaning.now }
        requires reserved { HasCapacity self.old meaning.now frame.now }
        requires upload { HasUpload self.old meaning.now frame.now upload }
        ensures takes { TakesFrame (state_of self.old) meaning.now frame.now (state_of self.new) outputs.old.items outputs.new.items }
        ensures tells { TellsChanges self.old self.new }
        ensures capacity { HasSpare 1 outputs.new }
    {
        if matches!(*meaning, FrameMeaning::ClaimRequest) {
            self.answer_request(frame, outputs);
            return;
        }
        let source = frame.id.source();
        if source == self.node.own() {
            return;
        }
        self.registry.note_frame(source, self.time);
        self.apply_meaning(meaning, frame, upload, outputs);
    }

    /// Answers a request for the terminal's address claim.
    fn answer_request(&mut self, frame: &Frame, outputs: &mut Vec<Output>)
        requires capacity { HasSpare 2 outputs.old }
        ensures takes { TakesFrame (state_of self.old) meanings.ClaimRequest frame.now (state_of self.new) outputs.old.items outputs.new.items }
        ensures tells { TellsChanges self.old self.new }
        ensures capacity { HasSpare 1 outputs.new }
    {
        send(outputs, self.claim());
        let source = frame.id.source();
        if source == self.node.own() {
            return;
        }
        self.registry.note_frame(source, self.time);
    }

    /// Handles a frame of another node by its meaning.
    fn apply_meaning(
        &mut self,
        meaning: &FrameMeaning,
        frame: &Frame,
        upload: PreparedMessage,
        outputs: &mut Vec<Output>,
    )
        requires capacity { HasSpare 258 outputs.old }
        requires no_claim { IsNoClaim meaning.now }
        requires reserved { HasCapacity self.old meaning.now frame.now }
        requires upload { HasUpload self.old meaning.now frame.now upload }
        ensures takes { AppliesMeaning (state_of self.old) meaning.now frame.now (state_of self.new) outputs.old.items outputs.new.items }
        ensures tells { TellsChanges self.old self.new }
        ensures capacity { HasSpare 1 outputs.new }
    {
        let source = frame.id.source();
        match *meaning {
            FrameMeaning::Master { count } => self.register(source, count),
            FrameMeaning::Member(name) => {
                let _refused = self.registry.member(source, name);
            }
            FrameMeaning::Message => self.take_message(frame, upload, outputs),
            FrameMeaning::Tp => self.take_tp(frame, upload, outputs),
            FrameMeaning::Etp => self.take_etp(frame, upload, outputs),
            _ => {}
        }
    }

    // Registers a set at its master's address. Only an address without a holder is refused, and nothing is registered then.
    fn register(&mut self, source: u8, count: u8)
        requires capacity { 0 < self.old.registry.capacity }
        ensures state { state_of self.new ≡ spec.put source (parts.after_master source (spec.part source (state_of self.old)) (spec.part source (state_of self.old)).holder count) (state_of self.old) }
        ensures tells { TellsChanges self.old self.new }
    {
        let _refused = self
            .registry
            .master(source, self.node.holder(source), count);
    }
}

/// How an upload ends, if the frame ends one.
fn end_of(ready: &PreparedFrame) -> Option<UploadEnd>
    ensures { result ≡ end_prepared ready.now }
{
    match ready {
        PreparedFrame::Prepared(PreparedMessage::End(judgement)) => Some(judgement.end()),
        PreparedFrame::Prepared(
            PreparedMessage::Nothing | PreparedMessage::Capacity | PreparedMessage::Piece(_),
        )
        | PreparedFrame::Loses
        | PreparedFrame::Claimed(_) => None,
    }
}
