//! A working set (ISO 11783-6).

ghost use Rattle.std.specs.Prelude.{◌≡◌, ◌<◌, [], length, if◌then◌else◌};
ghost use Rattle.vt_names.specs.Registry.{member_count, has_place, with_member, bound, mastered};

use crate::name::Name;
use arrayvec::ArrayVec;
use std::marker::Model;

/// The NAMEs of a set's members, boxed so that a move of the set does not copy them.
pub(crate) type Members = Box<ArrayVec<Name, 254>>;

/// A working set: the address of its master, its NAME if it has one, the number of its members including the
/// master, and the announced NAMEs of the others. docs/PROFILE.md, "What a set has".
#[derive(Drop)]
pub struct Set {
    address: u8,
    name: Option<Name>,
    count: u8,
    members: Members,
}

impl Model for Set {
    ghost use Rattle.std.specs.Prelude.{◌<◌, length};
    ghost use Rattle.vt_names.specs.Registry as registry;

    ghost Value = { registry.Set };

    ghost coded = { registry.set_code };

    ghost view = { λ s. record { address = s.address; name = s.name; count = s.count; members = s.members.value.items } };

    ghost invariant = { λ s. length s.members.value.items < s.count };
}

impl Set {
    /// Creates a set without members, in the given memory for members. A count of 0 means 1.
    pub(crate) fn new(address: u8, name: Option<Name>, count: u8, mut members: Members) -> Set
        ensures { result ≡ record { address = address; name = name; count = member_count count; members = [] } }
    {
        members.clear();
        Set {
            address,
            name,
            count: count.max(1),
            members,
        }
    }

    /// Registers the set again by a master message, and removes its members. A count of 0 means 1.
    pub(crate) fn restart(&mut self, name: Name, count: u8)
        ensures { self.new ≡ mastered self.old.address name count }
    {
        self.name = Some(name);
        self.count = count.max(1);
        self.members.clear();
    }

    /// Returns the memory of the members, for another set.
    pub(crate) fn into_members(self) -> Members {
        self.members
    }

    /// The address of the master.
    pub fn address(&self) -> u8
        ensures { result ≡ self.now.address }
    {
        self.address
    }

    /// The NAME of the master. A preloaded set has none before a claim of its address.
    pub fn name(&self) -> Option<Name>
        ensures { result ≡ self.now.name }
    {
        self.name
    }

    /// The number of members including the master, at least 1.
    pub fn count(&self) -> u8
        ensures { result ≡ self.now.count }
    {
        self.count
    }

    /// The NAMEs of the members, in the order of their messages; at most the count less one.
    pub fn members(&self) -> &[Name]
        ensures names { result.now ≡ self.now.members }
        ensures few { length result.now < self.now.count }
    {
        self.members.as_slice()
    }

    /// Adds a member. Returns false if the set has all its members.
    pub(crate) fn join(&mut self, name: Name) -> bool
        ensures place { result ≡ has_place self.old }
        ensures set { self.new ≡ if has_place self.old then with_member self.old name else self.old }
    {
        if self.members.len() + 1 >= usize::from(self.count) {
            return false;
        }
        self.members.push(name);
        true
    }

    pub(crate) fn bind(&mut self, name: Name)
        ensures { self.new ≡ bound self.old name }
    {
        self.name = Some(name);
    }
}
