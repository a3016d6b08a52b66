//! The handling of a received address claim.

ghost use Rattle.std.specs.Prelude.{◌≡◌, IfOk, OnOk, OnErr};
ghost use Rattle.vt_names.specs.Claims.{address_of};
ghost use Rattle.vt_server.specs.frame.FrameContracts.{TakesClaim};
ghost use Rattle.vt_server.specs.Outputs.{HasSpare};
ghost use Rattle.vt_server.specs.state.AddressViews.{after_claim_heard, stays_under};
ghost use Rattle.vt_server.specs.shown.Screens.{redraws};
ghost use Rattle.vt_server.specs.States.{state_of};
ghost use Rattle.vt_server.specs.frame.HoldersBeforeClaim.{AreFormer};
ghost use Rattle.vt_server.specs.Steps as steps;
ghost use Rattle.vt_server.specs.Terminals as spec;
ghost use Rattle.vt_node.specs.declared.bus.FrameMeaning.TheVariants as meanings;

use crate::OutOfMemory;
use crate::output::{Output, send};
use crate::terminal::Terminal;
use vt_can::Frame;
use vt_names::Name;

/// The holders, before a claim, of the addresses whose holder the claim may change.
#[derive(Drop)]
pub(crate) struct FormerHolders {
    /// Whether the terminal defends its own address against the claim.
    pub(crate) is_defended: bool,
    /// The former address of the NAME, if the claim is of another.
    address: Option<u8>,
    /// The holder of the former address.
    address_holder: Option<Name>,
    /// The holder of the claim's source address.
    holder: Option<Name>,
}

impl Terminal {
    /// Acts on a recorded claim: defends the own address, closes sets whose address has a new holder, and gives a set of the
    /// source without a NAME the holder's. docs/PROFILE.md, "The terminal's claims", "Closing a set".
    pub(crate) fn take_claim(
        &mut self,
        source: u8,
        former: &FormerHolders,
        outputs: &mut Vec<Output>,
    )
        requires capacity { HasSpare 2 outputs.old }
        ensures takes { TakesClaim former.now source (state_of self.old) (state_of self.new) outputs.old.items outputs.new.items }
        ensures capacity { HasSpare 1 outputs.new }
    {
        if former.is_defended {
            send(outputs, self.claim());
        }
        self.rebind_former(former.address, former.address_holder);
        self.rebind(source, former.holder);
        if source != self.node.own() {
            self.registry.note_frame(source, self.time);
            self.bind(source);
        }
    }
    /// Records a claim, the only part that may need memory. The sets are unchanged.
    pub(crate) fn record(
        &mut self,
        source: u8,
        name: Name,
        is_defended: bool,
    ) -> Result<FormerHolders, OutOfMemory>
        ensures ok { OnOk result (state_of self.new ≡ steps.before (state_of self.old) source (meanings.Claim name)) }
        ensures former { IfOk result (AreFormer (state_of self.old) source name) }
        ensures defended { IfOk result (λ former. former.is_defended ≡ is_defended) }
        ensures err { OnErr result (state_of self.new ≡ state_of self.old) }
        ensures redraws { redraws self.new ≡ redraws self.old }
    {
        let address = self.former_address(source, name);
        let former = FormerHolders {
            is_defended,
            address,
            address_holder: self.former_holder(address),
            holder: self.node.holder(source),
        };
        self.node.receive_claim(source, name)?;
        Ok(former)
    }

    // The former address of a NAME that claims another.
    fn former_address(&self, source: u8, name: Name) -> Option<u8>
        ensures { result ≡ steps.former_address source (address_of (state_of self.now).claims.addresses name) }
    {
        match self.node.address_of(name) {
            Some(former) if former != source => Some(former),
            _ => None,
        }
    }

    fn former_holder(&self, address: Option<u8>) -> Option<Name>
        ensures { result ≡ steps.former_holder (state_of self.now) address }
    {
        self.node.holder(address?)
    }

    fn rebind_former(&mut self, address: Option<u8>, was: Option<Name>)
        ensures { state_of self.new ≡ spec.after_acts (state_of self.old) (steps.rebind_former_acts was (state_of self.old) address) }
    {
        if let Some(address) = address {
            self.rebind(address, was);
        }
    }

    // Closes the set of an address whose holder changed, unless the set has the new holder's NAME or none.
    fn rebind(&mut self, address: u8, was: Option<Name>)
        ensures { state_of self.new ≡ spec.after_acts (state_of self.old) (steps.rebind_acts was (state_of self.old) address) }
    {
        let holder = self.node.holder(address);
        if was == holder {
            return;
        }
        let Some(set) = self.registry.get(address) else {
            return;
        };
        if stays_under(set.name(), holder) {
            return;
        }
        self.registry.close(address);
        self.contents.remove(address);
    }

    /// Gives a set without a NAME the NAME of its address's holder.
    fn bind(&mut self, address: u8)
        ensures { state_of self.new ≡ spec.put address (after_claim_heard (spec.part address (state_of self.old)) (spec.part address (state_of self.old)).set) (state_of self.old) }
    {
        let Some(set) = self.registry.get(address) else {
            return;
        };
        if set.name().is_some() {
            return;
        }
        if let Some(holder) = self.node.holder(address) {
            self.registry.bind(address, holder);
        }
    }
}

// Whether a set with this NAME, or without one, stays open under this holder of its address.
fn stays_under(name: Option<Name>, holder: Option<Name>) -> bool
    ensures { result ≡ stays_under name holder }
{
    name.is_none() || name == holder
}
