//! An index from addresses to their holders.

ghost use Rattle.std.specs.Prelude.{◌≡◌, ◌≤◌, ℕ, true, false, [], length, OnOk, OnErr};
ghost use Rattle.vt_names.specs.Claims.{Addresses, AreHolders, ChangesOnly, has_name, holder_of};

use crate::OutOfMemory;
use crate::name::Name;
use std::alloc::Global;
use std::collections::BTreeSet;

/// The number of addresses.
const ADDRESSES: usize = 256;

/// For each address, the NAMEs that have it. The least of them is its holder.
#[derive(Drop)]
pub(crate) struct Holders {
    // A set for each address, or fewer before the first claim.
    names: Vec<BTreeSet<u64>>,
}

impl Holders {
    /// Creates the index without NAMEs. Does not allocate.
    pub(crate) fn new(alloc: Global) -> Holders
        ensures { AreHolders result.names.items [] }
    {
        Holders {
            names: Vec::new(alloc),
        }
    }

    /// Returns the holder of an address.
    pub(crate) fn get(&self, address: u8) -> Option<Name>
        ensures { (addresses : Addresses) → AreHolders self.now.names.items addresses → result ≡ holder_of addresses address }
    {
        if self.names.len() <= usize::from(address) {
            return None;
        }
        let raw = self.names[usize::from(address)].first()?;
        Some(Name::from_raw(*raw))
    }

    /// Adds a NAME to the address that it claimed, if any. The first NAME allocates a set for each address.
    pub(crate) fn enter(&mut self, name: Name, claimed: Option<u8>) -> Result<(), OutOfMemory>
        ensures ok { OnOk result (ChangesOnly self.old.names.items self.new.names.items claimed name true) }
        ensures err { OnErr result ((addresses : Addresses) → AreHolders self.old.names.items addresses → AreHolders self.new.names.items addresses) }
    {
        if let Some(address) = claimed {
            self.allocate()?;
            self.names[usize::from(address)].insert(name.raw())?;
        }
        Ok(())
    }

    /// Removes a NAME from its former address, if any.
    pub(crate) fn leave(&mut self, name: Name, former: Option<u8>)
        ensures { ChangesOnly self.old.names.items self.new.names.items former name false }
    {
        if let Some(address) = former {
            if usize::from(address) < self.names.len() {
                self.names[usize::from(address)].remove(&name.raw());
            }
        }
    }

    // Allocates a set for each address. The sets that are there are unchanged, also after an error.
    fn allocate(&mut self) -> Result<(), OutOfMemory>
        ensures same { (address name : ℕ) → has_name self.new.names.items address name ≡ has_name self.old.names.items address name }
        ensures all { OnOk result (256 ≤ length self.new.names.items) }
    {
        let alloc = *self.names.allocator();
        while self.names.len() < ADDRESSES {
            self.names.push(BTreeSet::new(alloc))?;
        }
        Ok(())
    }
}
