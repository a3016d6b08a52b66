//! The masks that were shown.

ghost use Rattle.std.specs.Prelude.{◌≡◌, ℕ, OnOk};
ghost use Rattle.std.specs.Option.{option_map};
ghost use Rattle.vt_server.specs.States.{state_of};
ghost use Rattle.vt_server.specs.shown.DisplayValues.{found_pool};
ghost use Rattle.vt_server.specs.shown.ShownSet.{pool_shown};
ghost use Rattle.log_reach.specs.ShownMasks.{HasShown, Adds, AddsShown, was_shown};

use crate::pairs::Pairs;
use std::alloc::{AllocError, Global};
use vt_machine::Live;
use vt_objects::{ObjectId, SortedStore};
use vt_server::Terminal;

/// The masks that were shown, each with the address of its working set.
#[derive(Drop)]
pub(crate) struct ReachedMasks {
    masks: Pairs,
}

impl ReachedMasks {
    /// No masks. Does not allocate.
    pub(crate) fn new(alloc: Global) -> ReachedMasks
        ensures { (address mask : ℕ) → ¬ HasShown result address mask }
    {
        ReachedMasks {
            masks: Pairs::new(alloc),
        }
    }

    /// Notes the mask that a terminal shows, if it shows one.
    pub(crate) fn note(&mut self, terminal: &Terminal) -> Result<(), AllocError>
        ensures { OnOk result (AddsShown (HasShown self.old) (HasShown self.new) (state_of terminal.now)) }
    {
        let Some((address, live)) = shown_set(terminal) else {
            return Ok(());
        };
        let mask = live.active_mask();
        if mask.is_null() {
            return Ok(());
        }
        self.put(address, mask)
    }

    /// Notes a mask of the set at an address.
    fn put(&mut self, address: u8, mask: ObjectId) -> Result<(), AllocError>
        ensures { OnOk result (Adds (HasShown self.old) (HasShown self.new) address mask) }
    {
        self.masks.put((address, mask.raw()))
    }

    /// Whether a mask was shown of the set at an address.
    pub(crate) fn contains(&self, address: u8, mask: ObjectId) -> bool
        ensures { result ≡ was_shown self.now address mask }
    {
        self.masks.contains((address, mask.raw()))
    }
}

/// The address and the pool of the shown set.
pub(crate) fn shown_set(terminal: &Terminal) -> Option<(u8, &Live<SortedStore>)>
    ensures { option_map found_pool result ≡ pool_shown (state_of terminal.now) }
{
    let address = terminal.shown()?;
    let live = terminal.set(address)?;
    Some((address, live))
}
