//! Theorems about NAMEs, claims and working sets. Each is the contract of a function with an empty body.

ghost use Rattle.vt_names.specs.Claims.{AddressesAreLast, HoldersAreLeast, OtherHoldersStay};
ghost use Rattle.vt_names.specs.Names.{FieldsAreNames};
ghost use Rattle.vt_names.specs.Registrations.{SetsAreRegistered};

/// The ten fields of a NAME and the NAME determine each other.
pub fn fields_are_names()
    ensures { FieldsAreNames }
{}

/// The recorded address of a NAME is that of its last claim, over all claims received.
pub fn addresses_are_last()
    ensures { AddressesAreLast }
{}

/// The holder of an address is the least NAME among those whose last claim was for it, over all claims received.
pub fn holders_are_least()
    ensures { HoldersAreLeast }
{}

/// A claim changes the holders of two addresses at most: the former address of its NAME, and the claimed one.
pub fn other_holders_stay()
    ensures { OtherHoldersStay }
{}

/// The sets are those registered and not closed since, one for each address, in order of registration. Each has the count and
/// the NAME of its last registration, or the NAME bound to it since, and the members announced since, up to its count less one.
pub fn sets_are_registered()
    ensures { SetsAreRegistered }
{}
