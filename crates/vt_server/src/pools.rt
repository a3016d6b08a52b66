//! The pool and the upload of each address.

ghost use Rattle.std.specs.Prelude.{◌≡◌, ◌≤◌, ◌+◌, ◌++◌, ◌∷◌, ◌≢◌, ℕ, [], None, Some, true, false, ◌-◌, ◌^◌, min, length, drop, IfOk, IfSome, IfNone, IsSome, OnOk, OnErr};
ghost use Rattle.std.specs.Option.{option_map};
ghost use Rattle.vt_stores.specs.Stores.{map_of};
ghost use Rattle.vt_server.specs.message.CommandEffects.{content_after, error_after};
ghost use Rattle.vt_can.specs.lines.Actions.{action_value};
ghost use Rattle.vt_server.specs.operator.ActionContracts.{ActionKeepsLook, IsActedOn, WouldBeRefused};
ghost use Rattle.vt_machine.specs.Replacements.{AreReplacements};
ghost use Rattle.vt_server.specs.message.Judgements.{IsJudgement, IsEnded, with_replaced};
ghost use Rattle.vt_server.specs.shown.Screens.{KeepsPoolLook};
ghost use Rattle.vt_server.specs.state.AddressViews.{raised_on};
ghost use Rattle.vt_server.specs.state.AddressStates.{no_content, with_piece};
ghost use Rattle.vt_node.specs.AddressFunctions.{with_at};
ghost use Rattle.vt_server.specs.state.PoolTables.{content_of, spare_of};

use crate::OutOfMemory;
use crate::held_pool::HeldPool;
use crate::held_upload::HeldUpload;
use crate::message::end_of_pool::{ACCEPTED, Judgement, judge};
use crate::message::replies::{deletes, error_byte};
use crate::operator::actions::keeps_look;
use std::alloc::Global;
use std::marker::Model;
use vt_can::Action;
use vt_machine::{Acted, Live, OperatorRefusal, Replacement};
use vt_objects::{Command, SortedStore};
use vt_pool::Reading;

/// At most one pool and one upload for each of the 256 addresses.
#[derive(Drop)]
pub(crate) struct PoolTable {
    pools: [Option<HeldPool>; 256],
    transfers: [Option<HeldUpload>; 256],
    // Whether some address may have a pool.
    may_have_pools: bool,
}

impl Model for PoolTable {
    ghost use Rattle.vt_server.specs.state.PoolTables.{Kept, kept_code, AreKept};

    ghost Value = { Kept };

    ghost coded = { kept_code };

    ghost view = { λ c. record { pools = c.pools; transfers = c.transfers } };

    ghost invariant = { λ c. AreKept c.pools c.transfers c.may_have_pools };
}

impl PoolTable {
    pub(crate) fn new() -> PoolTable
        ensures { (address : ℕ) → content_of result address ≡ no_content }
    {
        PoolTable {
            pools: Default::default(),
            transfers: Default::default(),
            may_have_pools: false,
        }
    }

    /// Whether some address may have a pool. False only if none has.
    pub(crate) fn may_have_pools(&self) -> bool
        ensures { result ≡ false → (address : ℕ) → (content_of self.now address).pool ≡ None }
    {
        self.may_have_pools
    }

    pub(crate) fn pool(&self, address: u8) -> Option<&Live<SortedStore>>
        ensures { option_map (λ live. live.now) result ≡ (content_of self.now address).pool }
    {
        match &self.pools[usize::from(address)] {
            Some(held) => Some(held.live()),
            None => None,
        }
    }

    /// Gives an address a pool and ends its upload.
    pub(crate) fn put(&mut self, address: u8, pool: HeldPool)
        ensures { content_of self.new ≡ with_at address (record { pool = Some pool; transfer = [] }) (content_of self.old) }
    {
        self.may_have_pools = true;
        self.pools[usize::from(address)] = Some(pool);
        self.transfers[usize::from(address)] = None;
    }

    /// Replaces objects in the pool of an address and ends its upload.
    fn replace(&mut self, address: u8, replacement: Replacement)
        requires { IfSome (content_of self.old address).pool (λ state. AreReplacements state.objects replacement) }
        ensures { content_of self.new
            ≡ with_at address (record { pool = option_map (λ state. with_replaced state replacement) (content_of self.old address).pool; transfer = [] }) (content_of self.old) }
    {
        self.transfers[usize::from(address)] = None;
        match &mut self.pools[usize::from(address)] {
            Some(held) => held.replace(replacement),
            None => {}
        }
    }

    /// Removes the pool and the upload of an address.
    pub(crate) fn remove(&mut self, address: u8)
        ensures content { content_of self.new ≡ with_at address no_content (content_of self.old) }
        ensures spare { (other : ℕ) → other ≢ address → spare_of self.new other ≡ spare_of self.old other }
    {
        self.pools[usize::from(address)] = None;
        self.transfers[usize::from(address)] = None;
    }

    /// Runs a command on the pool of an address and returns the error byte of its reply. Returns `None` if there is no pool,
    /// except for Delete Object Pool, which is done without one too.
    pub(crate) fn apply(&mut self, address: u8, command: &Command<'_>) -> Option<u8>
        ensures content { content_of self.new
            ≡ with_at address (content_after command.now (content_of self.old address)) (content_of self.old) }
        ensures error { result ≡ error_after command.now (content_of self.old address).pool }
    {
        if deletes(command) {
            self.remove(address);
            return Some(0);
        }
        let pool = self.pools[usize::from(address)].as_mut()?;
        Some(error_byte(pool.apply(command)))
    }

    /// Whether a command leaves what the text of a screen shows of the set at an address. If true, the screen is the same after
    /// `apply`.
    pub(crate) fn keeps_look(&self, address: u8, command: &Command<'_>) -> bool
        ensures { result ≡ true → KeepsPoolLook (content_of self.now address).pool (content_after command.now (content_of self.now address)).pool }
    {
        if deletes(command) {
            return false;
        }
        match self.pool(address) {
            Some(live) => live.keeps_look(command),
            None => false,
        }
    }

    /// Whether an action leaves what the text of a screen shows of the set at an address. If true, the screen is the same after
    /// `act`.
    pub(crate) fn action_keeps_look(&self, address: u8, action: &Action<'_>) -> bool
        ensures { result ≡ true → ActionKeepsLook (content_of self.now address).pool (action_value action.now) }
    {
        match self.pool(address) {
            Some(live) => keeps_look(live, action),
            None => false,
        }
    }

    /// Reserves capacity for `count` more bytes in the upload of an address.
    pub(crate) fn reserve(
        &mut self,
        alloc: Global,
        address: u8,
        count: usize,
    ) -> Result<(), OutOfMemory>
        ensures same { content_of self.new ≡ content_of self.old }
        ensures ok { OnOk result (count ≤ spare_of self.new address) }
    {
        let place = &mut self.transfers[usize::from(address)];
        match place {
            Some(transfer) => transfer.reserve(count),
            None => {
                let mut transfer = HeldUpload::new(alloc)?;
                transfer.reserve(count)?;
                *place = Some(transfer);
                Ok(())
            }
        }
    }

    /// Appends the bytes of a piece from index `from` on to the upload of an address, which has capacity for them.
    pub(crate) fn feed(&mut self, address: u8, piece: Vec<u8>, from: usize)
        requires from { from ≤ length piece.items }
        requires spare { length piece.items ≤ from + spare_of self.old address }
        ensures { content_of self.new ≡ with_at address (with_piece (content_of self.old address) (drop from piece.items)) (content_of self.old) }
    {
        let Some(transfer) = self.transfers[usize::from(address)].as_mut() else {
            return;
        };
        transfer.feed(piece, from);
    }

    /// The number of bytes of the upload of an address.
    pub(crate) fn upload_len(&self, address: u8) -> usize
        ensures { result ≡ min (length (content_of self.now address).transfer) (2 ^ 64 - 1) }
    {
        match &self.transfers[usize::from(address)] {
            Some(transfer) => transfer.len(),
            None => 0,
        }
    }

    /// Judges the upload of an address. Changes nothing.
    pub(crate) fn judge(&self, alloc: Global, address: u8) -> Result<Judgement, OutOfMemory>
        ensures { IfOk result (IsJudgement (content_of self.now address)) }
    {
        let pool = self.pool(address);
        match &self.transfers[usize::from(address)] {
            Some(transfer) => judge(alloc, pool, transfer.reading()),
            None => judge(alloc, pool, &Reading::new(alloc)),
        }
    }

    /// Ends the upload of an address by its judgement and returns the reply.
    pub(crate) fn end(&mut self, address: u8, judgement: Judgement) -> [u8; 8]
        requires { IsJudgement (content_of self.old address) judgement }
        ensures { IsEnded (content_of self.old) address judgement result (content_of self.new) }
    {
        match judgement {
            Judgement::Accepted(pool) => {
                self.put(address, HeldPool::new(pool));
                ACCEPTED
            }
            Judgement::Replaced(replacement) => {
                self.replace(address, replacement);
                ACCEPTED
            }
            Judgement::Refused { reply, .. } => {
                self.transfers[usize::from(address)] = None;
                reply
            }
        }
    }

    /// Raises an event of the Working Set at an address, if it has a pool.
    pub(crate) fn raise(&mut self, address: u8, event: u8)
        ensures { content_of self.new ≡ with_at address (record (content_of self.old address) { pool = option_map (λ state. raised_on state event) (content_of self.old address).pool }) (content_of self.old) }
    {
        match &mut self.pools[usize::from(address)] {
            Some(held) => held.raise(event),
            None => {}
        }
    }

    /// Does an action of the operator on the set at an address.
    pub(crate) fn act(
        &mut self,
        address: u8,
        action: &Action<'_>,
    ) -> Option<Result<Acted, OperatorRefusal>>
        ensures { IsActedOn (content_of self.old) address (action_value action.now) result (content_of self.new) }
    {
        let Some(held) = &mut self.pools[usize::from(address)] else {
            return None;
        };
        held.act(action)
    }

    /// The refusal of a text on the set at an address, if it would be refused. Changes nothing. An accepted text has at most 255
    /// bytes.
    pub(crate) fn text_fault(
        &mut self,
        address: u8,
        id: u16,
        text: &[u8],
    ) -> Option<OperatorRefusal>
        ensures fault { WouldBeRefused (content_of self.old address).pool id text.now result }
        ensures short { IsSome (content_of self.old address).pool → IfNone result (length text.now ≤ 255) }
        ensures same { content_of self.new ≡ content_of self.old }
    {
        let held = self.pools[usize::from(address)].as_mut()?;
        held.text_fault(id, text)
    }
}
