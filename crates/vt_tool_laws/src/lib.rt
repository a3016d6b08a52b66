//! Laws about the checker, pictures, listeners and whole replays. No crate uses them.
//!
//! Each function is a law: its contract is a statement over the definitions of the crates below, which the code meets by its contracts,
//! and calling it changes nothing. `replays_never_stick` is the main law about a replay. docs/PROOFS.md explains each law.
//!
//! The laws about the terminal are in vt_laws. Come here to ask what holds of every inspection, picture, listener and replay.
#![tactic(auto)]

ghost use Rattle.vt_tool_laws.specs.InspectLaws.{FindingsAreTrue, FindsNothing, FirstIsTheFault, FirstIsTheRefusal, LastRecordsCount, NoCulpritIsLeftOut};
ghost use Rattle.vt_tool_laws.specs.ListenLaws.{TransportMessagesAreHeard, ExtendedMessagesAreHeard, MessagesAreOne};
ghost use Rattle.vt_tool_laws.specs.PictureLaws.{CutMarksAreFirst, ElementsAreInPlace, ElementsAreTheDrawing, ListsShowThePicture, MarksAreDrawn, PicturesAreWrittenOnce, PicturesShowTheDrawing, ShapesReferToTheirPicture};
ghost use Rattle.vt_tool_laws.specs.PlaceLaws.{FindingsAreInPlace, RecordsAreInPlace};
ghost use Rattle.vt_tool_laws.specs.Certain.{ReplaysAreOne};
ghost use Rattle.vt_tool_laws.specs.Promises.{ReplaysNeverStick};

/// An inspection finds nothing exactly if the pool is acceptable.
pub fn finds_nothing()
    ensures { FindsNothing }
{}

/// If `read_pool` may return a fault, the first finding is a fault that it may return.
pub fn first_is_the_fault()
    ensures { FirstIsTheFault }
{}

/// If `verify` refuses a pool by a rule, the first finding says the same.
pub fn first_is_the_refusal()
    ensures { FirstIsTheRefusal }
{}

/// The objects of the last records are those of the pool that `read_pool` reads.
pub fn last_records_count()
    ensures { LastRecordsCount }
{}

/// Every finding of a rule is true: the test of its rule fails for its culprit.
pub fn findings_are_true()
    ensures { FindingsAreTrue }
{}

/// Each culprit of a rule that was judged is found. Of the chains that are too deep one is found, and of the circles so many that
/// every circle shares a macro with one of them.
pub fn no_culprit_is_left_out()
    ensures { NoCulpritIsLeftOut }
{}

/// Every finding that names a position in an object has there what it speaks of: a slot in its place, the value of a pointer, a macro
/// entry at its index, or the bytes of a command at their offset.
pub fn findings_are_in_place()
    ensures { FindingsAreInPlace }
{}

/// The records of an inspection are in the pool's bytes where they are said to be, and so are the bytes of a macro: in the bytes with
/// proper values in the fields that findings call wrong.
pub fn records_are_in_place()
    ensures { RecordsAreInPlace }
{}

/// If a receiver of the transport protocol delivers a message, a listener that received the same frames delivers it too, with the
/// same bytes, unless the receiver's node has aborted the message itself.
pub fn transport_messages_are_heard()
    ensures { TransportMessagesAreHeard }
{}

/// If a receiver of the extended transport protocol delivers a message, a listener that received the same frames delivers it too,
/// with the same bytes, unless the receiver's node has aborted the message itself.
pub fn extended_messages_are_heard()
    ensures { ExtendedMessagesAreHeard }
{}

/// A frame makes at most one message whole, in one channel. So what a listener delivers is a function of the frames that it received.
pub fn messages_are_one()
    ensures { MessagesAreOne }
{}

/// The marks of entries are the elements of their drawing, in its order and at its places.
pub fn marks_are_drawn()
    ensures { MarksAreDrawn }
{}

/// The first marks have the first IDs, one for each mark.
pub fn cut_marks_are_first()
    ensures { CutMarksAreFirst }
{}

/// The elements of a mask are at the places of its drawing, the first 2,000.
pub fn elements_are_in_place()
    ensures { ElementsAreInPlace }
{}

/// The elements of a mask and of its soft keys have the IDs of their drawing in its order, the first 2,000.
pub fn elements_are_the_drawing()
    ensures { ElementsAreTheDrawing }
{}

/// A picture is the text of elements within each other, each closed after all that is in it, and shows the drawing of its mask. The objects
/// in it are those of the drawing in its order, the first 2,000: those of the mask at the places of the drawing, and then the keys, with what
/// is in them, from the place of the first key.
pub fn pictures_show_the_drawing()
    ensures { PicturesShowTheDrawing }
{}

/// The list of elements has the objects of the picture, in its order and at their places.
pub fn lists_show_the_picture()
    ensures { ListsShowThePicture }
{}

/// Each Picture object to which an element of a picture refers is written, and none is written twice.
pub fn pictures_are_written_once()
    ensures { PicturesAreWrittenOnce }
{}

/// The shapes of an object refer to no Picture object but the one that `used_picture` of draw_shapes gives, and those of a Picture object to
/// itself, once.
pub fn shapes_refer_to_their_picture()
    ensures { ShapesReferToTheirPicture }
{}

/// The main law about a replay. The terminal that the options give has the pool of their file in force. Whatever log is replayed, to
/// its end or to a fault, each run of the machine ends unstuck within the budgets of its events, and no drawing gets stuck. `run`
/// promises that it writes such a replay, if the bytes of the file and of the writer are known.
pub fn replays_never_stick()
    ensures { ReplaysNeverStick }
{
    vt_laws::the_machine_never_sticks();
}

/// The law that a log has one replay from a terminal whose pools are in force: one text, one list of counts, and one terminal after
/// it. So the text written for options is one too, if the bytes of their files are known.
pub fn replays_are_one()
    ensures { ReplaysAreOne }
{
    vt_recorded::laws::readings_are_one();
    vt_laws::steps_are_one();
    vt_laws::the_machine_never_sticks();
    vt_layout::laws::screens_are_one();
}
