//! Address claims and the answers to them (ISO 11783-5).

ghost use Rattle.std.specs.Prelude.{◌≡◌, None, Some, [], IfOk, OnOk, OnErr};
ghost use Rattle.vt_names.specs.Claims.{IsRisingByName, answer, heard, address_of, holder_of, claimed_address, with_address};

use crate::OutOfMemory;
use crate::holders::Holders;
use crate::name::Name;
use std::alloc::Global;
use std::collections::BTreeMap;
use std::marker::Model;

/// The source address of a claim without an address.
const NULL_ADDRESS: u8 = 254;

/// The meaning of an address claim for this node.
#[derive(Clone, Copy, PartialEq, Eq)]
pub enum ClaimMeaning {
    /// The claim needs no answer.
    Nothing,
    /// A greater NAME claimed the address of this node: this node claims it again.
    Defend,
    /// A lower NAME claimed the address of this node: this node loses it.
    Lost,
}

/// The address claims received by a node. Contracts see them as the node's own address and NAME, and the
/// address of each NAME that has one.
///
/// A claim takes time that grows with the logarithm of the number of NAMEs. docs/PROFILE.md, "The holder of
/// an address".
pub struct Claims {
    own: u8,
    name: Name,
    addresses: BTreeMap<u64, u8>,
    holders: Holders,
}

// Written out, not derived: the drop is proved once here, and not in each crate above.
impl Drop for Claims {
    fn drop(self) {
        let Claims {
            own: _own,
            name: _name,
            addresses: _addresses,
            holders: _holders,
        } = self;
    }
}

impl Model for Claims {
    ghost use Rattle.vt_names.specs.Claims.{Claimed, claimed_code, AreHolders};

    ghost Value = { Claimed };

    ghost coded = { claimed_code };

    ghost view = { λ c. record { own = c.own; name = c.name; addresses = c.addresses.entries } };

    ghost invariant = { λ c. AreHolders c.holders.names.items c.addresses.entries };
}

impl Claims {
    /// Creates the claims of a node with this address and NAME, before it receives any. Does not allocate.
    pub fn new(alloc: Global, own: u8, name: Name) -> Claims
        ensures { result ≡ record { own = own; name = name; addresses = [] } }
    {
        Claims {
            own,
            name,
            addresses: BTreeMap::new(alloc),
            holders: Holders::new(alloc),
        }
    }

    /// Records the claim of an address by a NAME, and returns its meaning for this node. After `OutOfMemory`
    /// nothing is changed. docs/PROFILE.md, "The terminal's claims".
    pub fn hear(&mut self, address: u8, name: Name) -> Result<ClaimMeaning, OutOfMemory>
        ensures answer { IfOk result (λ said. said ≡ answer self.old address name) }
        ensures ok { OnOk result (self.new ≡ heard self.old address name) }
        ensures err { OnErr result (self.new ≡ self.old) }
    {
        let said = self.answer(address, name);
        let claimed = claimed_address(address);
        let former = self.address_of(name);
        if claimed == former {
            return Ok(said);
        }
        self.holders.enter(name, claimed)?;
        if let Err(refused) = record(&mut self.addresses, name, claimed) {
            self.holders.leave(name, claimed);
            return Err(refused);
        }
        self.holders.leave(name, former);
        Ok(said)
    }

    /// The node's own address.
    pub fn own(&self) -> u8
        ensures { result ≡ self.now.own }
    {
        self.own
    }

    /// The node's own NAME.
    pub fn name(&self) -> Name
        ensures { result ≡ self.now.name }
    {
        self.name
    }

    /// Returns the address of a NAME: that of its last claim. docs/PROFILE.md, "The holder of an address".
    pub fn address_of(&self, name: Name) -> Option<u8>
        ensures address { result ≡ address_of self.now.addresses name }
        ensures rising { IsRisingByName self.now.addresses }
    {
        self.addresses.get(&name.raw()).copied()
    }

    /// Returns the holder of an address: the least NAME among those whose last claim was for it.
    /// docs/PROFILE.md, "The holder of an address".
    pub fn holder(&self, address: u8) -> Option<Name>
        ensures { result ≡ holder_of self.now.addresses address }
    {
        self.holders.get(address)
    }

    /// Returns what the claim of an address by a NAME means for this node, and records nothing.
    pub fn answer(&self, address: u8, name: Name) -> ClaimMeaning
        ensures { result ≡ answer self.now address name }
    {
        if address != self.own {
            ClaimMeaning::Nothing
        } else if name < self.name {
            ClaimMeaning::Lost
        } else if self.name < name {
            ClaimMeaning::Defend
        } else {
            ClaimMeaning::Nothing
        }
    }
}

// The address claimed by a claim from `address`.
fn claimed_address(address: u8) -> Option<u8>
    ensures { result ≡ claimed_address address }
{
    (address != NULL_ADDRESS).then_some(address)
}

// Records the address of a NAME, or removes it if there is none.
fn record(
    addresses: &mut BTreeMap<u64, u8>,
    name: Name,
    claimed: Option<u8>,
) -> Result<(), OutOfMemory>
    ensures ok { OnOk result (addresses.new.entries ≡ with_address addresses.old.entries name claimed) }
    ensures err { OnErr result (addresses.new.entries ≡ addresses.old.entries) }
{
    match claimed {
        Some(address) => {
            addresses.insert(name.raw(), address)?;
        }
        None => {
            addresses.remove(&name.raw());
        }
    }
    Ok(())
}
