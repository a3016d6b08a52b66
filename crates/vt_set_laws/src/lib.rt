//! Laws about one working set: its commands, the operator's entries and its pool.
//!
//! Each function is a law: its contract is a statement over the definitions of vt_machine and the crates below, which the
//! code meets by its contracts, and calling it changes nothing. docs/PROOFS.md explains each law.
//!
//! The laws about the whole terminal are in vt_laws. Come here to ask what holds of every command, entry and pool of one working set.
#![tactic(auto)]

ghost use Rattle.vt_set_laws.specs.AttributeWrites.{AttributesAreWritten};
ghost use Rattle.vt_set_laws.specs.CausesOfFaults.{FaultsHaveCauses};
ghost use Rattle.vt_set_laws.specs.CommandKinds.{KindsAreThoseOfChanges};
ghost use Rattle.vt_set_laws.specs.CommandOrder.{OrderDecides};
ghost use Rattle.vt_set_laws.specs.FaultsOfCommands.{FaultsAreRefusals};
ghost use Rattle.vt_set_laws.specs.FieldWrites.{FieldsAreWritten};
ghost use Rattle.vt_set_laws.specs.MacroOrder.{TriggeredStandBefore};
ghost use Rattle.vt_set_laws.specs.NewValues.{NewValuesAreNew};
ghost use Rattle.vt_set_laws.specs.PoolFaults.{FaultsAreOne};
ghost use Rattle.vt_set_laws.specs.RaisedEvents.{EventsAreRaised};
ghost use Rattle.vt_set_laws.specs.RefusalBits.{RefusalsAreInTheirRows};

/// The law that a command is done exactly if the references and chains of the objects are in order after its change; only
/// a new value of a pointer and a new item of a list can break that order. docs/PROFILE.md, "What every store keeps".
pub fn order_decides()
    ensures { OrderDecides }
{
    vt_effects::laws::commands_keep_order();
}

/// The law that a command is refused with the error byte for its object's kind if that kind is not allowed there. An
/// object of an allowed kind gets that byte only for another cause. docs/PROFILE.md, "Commands in macros".
pub fn kinds_are_those_of_changes()
    ensures { KindsAreThoseOfChanges }
{}

/// The law that a command of a macro has a fault exactly if it is refused for one of its IDs, in a store in order. docs/PROFILE.md,
/// "Commands in macros".
pub fn faults_are_refusals()
    ensures { FaultsAreRefusals }
{}

/// The law that a command's fault is Missing exactly if an ID that it names is missing, and Kind exactly if none is and an object
/// is of a kind that is not allowed. docs/PROFILE.md, "Commands in macros".
pub fn faults_have_causes()
    ensures { FaultsHaveCauses }
{}

/// The law that Change Attribute writes its value, of four bytes, to the field of the attribute in the object's record,
/// and to no other field. docs/PROFILE.md, "Attribute numbers".
pub fn attributes_are_written()
    ensures { AttributesAreWritten }
{
    vt_effects::laws::changes_keep();
}

/// The law that a command that only writes fields, as Change Size, writes each of its numbers to the field of its name in the
/// object's record, and to no other field. docs/PROFILE.md, "Commands: all rows".
pub fn fields_are_written()
    ensures { FieldsAreWritten }
{
    vt_objects::laws::attributes_are_fields();
}

/// The law that the events of a new value, On Entry of New Value and On Change Value, are raised exactly if the
/// operator's entry changes the objects. docs/PROFILE.md, "The operator".
pub fn new_values_are_new()
    ensures { NewValuesAreNew }
{}

/// The law that an action of the operator and a command raise the events of the standard's table, in its order, and no others.
/// docs/PROFILE.md, "Event numbers", "The operator" and "Commands: all rows".
pub fn events_are_raised()
    ensures { EventsAreRaised }
{}

/// The law that the fault of a pool's bytes is unique, in kind and offset, except for refused memory. docs/PROFILE.md, "Pools and
/// faults".
pub fn faults_are_one()
    ensures { FaultsAreOne }
{}

/// The law that each macro triggered by a macro of an acceptable pool comes before it, in every order of the pool's macros in which
/// none triggers itself or a later one. docs/PROFILE.md, "Triggers and circles".
pub fn triggered_stand_before()
    ensures { TriggeredStandBefore }
{}

/// The law that the error byte of a refused command has one bit, which the row of the command has.
pub fn refusals_are_in_their_rows()
    ensures { RefusalsAreInTheirRows }
{}
