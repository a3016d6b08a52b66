//! The costs of events and macros, and the shares of commands in them.

use vt_objects::ObjectId;

/// The most steps that are counted. A cost of more steps is given as this number.
pub const MOST_STEPS: u64 = 1_000_000_000_000;

/// An event of an object, and the most steps that it can take.
#[derive(Clone, Copy, PartialEq, Eq)]
pub struct EventCost {
    /// The ID of the object.
    pub id: ObjectId,
    /// The number of the event.
    pub event: u8,
    /// The steps, counted up to `MOST_STEPS`.
    pub steps: u64,
}

/// A command of a macro, or an event that such a command may raise.
#[derive(Clone, Copy, PartialEq, Eq)]
pub enum Share {
    /// A command, by its offset in the macro's bytes and its function, with the most steps that it can take: one for itself, and those
    /// of the events listed before the next command.
    Command { at: usize, function: u8, steps: u64 },
    /// The Hide event of the mask that is the costliest to hide: the command before hides the active mask, which may be any mask. The
    /// other masks have no share, though their macros may run.
    MayHide(EventCost),
    /// An event that the command before raises, and at which macros run.
    Raises(EventCost),
}

/// A macro, and the most steps that it can take.
#[derive(Drop)]
pub struct MacroCost {
    /// The ID of the macro.
    pub id: u8,
    /// The steps, counted up to `MOST_STEPS`.
    pub steps: u64,
    /// The shares of the macro's commands, in their order.
    pub shares: Vec<Share>,
}
