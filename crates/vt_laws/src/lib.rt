//! Laws about a terminal over all its inputs: the headline, and laws about its addresses, its sets and its outputs.
//!
//! Each law is the contract of a function that changes nothing. It is a statement about the definitions of vt_server and the
//! crates below; the contracts of the code carry it over to the code. `the_machine_never_sticks` is the headline. docs/PROOFS.md
//! explains each law.
//!
//! The laws about one working set are in vt_set_laws. Come here to ask what holds of the terminal for every pool and every sequence of
//! inputs.
#![tactic(auto)]

ghost use Rattle.vt_laws.specs.UniqueSteps.{StepsAreOne};
ghost use Rattle.vt_laws.specs.Costs.{CostsAreWithin};
ghost use Rattle.vt_laws.specs.ReceivedClaims.{HoldersOfRuns};
ghost use Rattle.vt_laws.specs.Destinations.{SentAreAddressed};
ghost use Rattle.vt_laws.specs.Happenings.{EachTakesItsOwn, OwnHappeningsDecide, SetsHoldTheirAddress};
ghost use Rattle.vt_server.specs.state.StateInvariants.{IsOrderly};
ghost use Rattle.vt_laws.specs.Headline.{NeverSticks};
ghost use Rattle.vt_laws.specs.RepliesInRows.{RepliesFitTheirRows};
ghost use Rattle.vt_laws.specs.RunsOfSteps.{OthersKeepObjects, RunsAreOfSteps};
ghost use Rattle.vt_laws.specs.SetLists.{SetsAfterSteps};
ghost use Rattle.vt_laws.specs.ShownSets.{ShownAreChosen};
ghost use Rattle.vt_laws.specs.Ticks.{EchoesAreTicks, OthersAreIdle, ProfilesAreKept};

/// The headline: after its pools were accepted, a terminal gives for any inputs the sets and outputs of the specified machine, and
/// that machine never sticks. Each command of a macro finds its object, of a kind that it may change. Each event ends within the
/// steps that the pool's report prints for it. Each shown reference leads to an object of a kind allowed there.
pub fn the_machine_never_sticks()
    ensures { NeverSticks }
{
    vt_machine::laws::commands_keep_order();
    vt_machine::laws::commands_keep_shapes();
    vt_machine::laws::entries_keep_order();
    vt_machine::laws::entries_keep_shapes();
    vt_machine::laws::events_end_in_turn();
    vt_machine::laws::pools_are_ready();
    vt_machine::laws::runs_end();
    vt_machine::laws::null_is_no_object();
    vt_layout::laws::drawings_never_stick();
    vt_layout::laws::drawings_find_all();
    vt_layout::laws::paths_are_chained();
}

/// The runs of the headline are the runs of the step. Each begins with a command that is done, an action of the operator, or an
/// event of the Working Set. If a set has a pool after an input, its objects are the result of the runs at its address, one after
/// the other, starting from the objects before the input or from a pool accepted during it.
pub fn runs_are_of_steps()
    ensures { RunsAreOfSteps }
{}

/// A frame changes no object of a set at another address than its own, while the shown set stays the same.
pub fn others_keep_objects()
    ensures { OthersKeepObjects }
{
    runs_are_of_steps();
}

/// No run of macros during an input takes more steps than the budgets of its events, by the report of the pool accepted last at
/// its address. All runs together take no more than the sum of these budgets.
pub fn costs_are_within()
    ensures { CostsAreWithin }
{
    the_machine_never_sticks();
    vt_machine::laws::pools_are_ready();
}

/// The step is a function of the input alone: all right verdicts on an upload, and all right judgements of shown objects, give one
/// step. The same inputs lead from one state to one state, with the same outputs.
pub fn steps_are_one()
    ensures { StepsAreOne }
{
    vt_pool::laws::readings_are_one();
    vt_verify::laws::refusals_are_one();
    vt_verify::laws::refusals_are_true();
}

/// A step changes the view of each address by the happenings there alone, and sends the address the frames of these happenings
/// alone.
pub fn each_takes_its_own()
    ensures { EachTakesItsOwn }
{
    vt_names::laws::other_holders_stay();
    vt_transport::laws::steps_are_timeless();
    vt_extended::laws::steps_are_timeless();
    vt_transport::laws::answers_are_timeless();
}

/// Two runs with the same happenings at an address, from the same view of it, leave the same view and send it the same frames,
/// whatever other nodes send. The judgements of pools may differ, if they are right in both runs.
pub fn own_happenings_decide()
    ensures { OwnHappeningsDecide }
{
    vt_names::laws::other_holders_stay();
    vt_transport::laws::steps_are_timeless();
    vt_extended::laws::steps_are_timeless();
    vt_transport::laws::answers_are_timeless();
    vt_pool::laws::readings_are_one();
    vt_verify::laws::refusals_are_one();
    vt_verify::laws::refusals_are_true();
}

/// After a step each set with a NAME is at an address whose holder has that NAME. Closing the sets of addresses with a new holder
/// therefore closes each set whose NAME is not its address's holder. No two sets have one address, and address claims are kept by
/// rising NAME; the laws on steps require both.
pub fn sets_hold_their_address()
    ensures { SetsHoldTheirAddress }
{
    vt_names::laws::other_holders_stay();
    vt_transport::laws::steps_are_timeless();
    vt_extended::laws::steps_are_timeless();
    vt_transport::laws::answers_are_timeless();
}

/// A step sends to one address only messages, packets of messages and session control frames, and to all only claims and
/// statuses. A step sends at most 1,024 outputs.
pub fn sent_are_addressed()
    ensures { SentAreAddressed }
{
    vt_can::laws::parts_are_identifiers();
}

/// The list of sets after a step: the time of a frame closes the silent sets. A claim closes each set with a NAME that is not its
/// address's holder, the others keep their order, and a set of its source without a NAME takes the holder's. The law states the
/// effect of each other input too.
pub fn sets_after_steps()
    ensures { SetsAfterSteps }
{
    vt_names::laws::other_holders_stay();
    vt_transport::laws::steps_are_timeless();
    vt_extended::laws::steps_are_timeless();
    vt_transport::laws::answers_are_timeless();
}

/// The shown set is the one with the alarm of the lowest priority number (of equal ones the first registered), or the selected
/// set if there is no alarm. It is shown at the end of each step and after a preload. Only registered sets have a pool, and only
/// a set with a pool is shown, or, before the loss of the address, selected.
pub fn shown_are_chosen()
    ensures { ShownAreChosen }
{}

/// An echo makes the step of a tick: sessions time out, silent sets are closed, and the shown set is chosen. The frame of
/// `Terminal::tick` is an echo.
pub fn echoes_are_ticks()
    ensures { EchoesAreTicks }
{
    vt_can::laws::parts_are_identifiers();
}

/// A tick at which nothing is due sends nothing and changes the time alone. `Terminal::next_deadline` returns the first time at
/// which something is due.
pub fn other_ticks_are_idle()
    ensures { OthersAreIdle }
{
    vt_can::laws::parts_are_identifiers();
}

/// Each step and each preload keeps the profile.
pub fn profiles_are_kept()
    ensures { ProfilesAreKept }
{}

/// The holder of each address after a run is the least NAME among those whose last claim was for that address. The claims of the
/// run count only before the one by which the terminal loses its own address.
pub fn holders_are_of_runs()
    ensures { HoldersOfRuns }
{
    vt_names::laws::holders_are_least();
}

/// Each reply to a command has its error byte and its object where the row of the command says.
pub fn replies_fit_their_rows()
    ensures { RepliesFitTheirRows }
{}
