//! Theorems about ETP sessions and messages. Each is the contract of a function with an empty body.

ghost use Rattle.vt_extended.specs.Protocol.{StepsAssembleMessages, MessagesDependOnTheirSource, RunsHandOutMessages, SessionsAreOfHistories, RunsHandOutWholeMessages, IsTimeless, OtherGroupsAreIgnored};

/// The steps of a receiver on the session of a source give the messages and replies defined by the source's
/// whole history.
pub fn steps_assemble_messages()
    ensures { StepsAssembleMessages }
{}

/// The messages of a source depend on its own frames and their times alone.
pub fn messages_depend_on_their_source()
    ensures { MessagesDependOnTheirSource }
{}

/// A run of a receiver that starts without sessions hands out the messages of each source. At each frame,
/// overdue sessions end before the frame is received.
pub fn runs_hand_out_messages()
    ensures { RunsHandOutMessages }
{}

/// A run of a receiver that starts without sessions hands out a message of a source exactly when it becomes
/// whole in the history of the source. The history has the frames of the source, and a mark at each input of
/// the bus at which its session is overdue. The session of the source in the run is that of the history.
pub fn runs_hand_out_whole_messages()
    ensures sessions { SessionsAreOfHistories }
    ensures messages { RunsHandOutWholeMessages }
{}

/// The step of a frame on a session of the receiver depends on neither the time of the frame nor that of the
/// session, except for the time of the session afterwards.
pub fn steps_are_timeless()
    ensures { IsTimeless }
{}

/// A frame of neither of the protocol's parameter groups changes nothing in a receiver, and gets no answer.
pub fn other_groups_are_ignored()
    ensures { OtherGroupsAreIgnored }
{}
