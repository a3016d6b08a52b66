//! The requests of a line.

use vt_can::{Action, Frame};
use vt_dialogs::Typed;
use vt_server::Profile;

/// The kind of a request, which its member `do` names.
#[derive(Clone, Copy, PartialEq, Eq)]
pub enum RequestKind {
    /// A command for the terminal.
    Command(CommandKind),
    /// A question about the terminal.
    Question(QuestionKind),
}

/// The kind of a command.
#[derive(Clone, Copy, PartialEq, Eq)]
pub enum CommandKind {
    /// Makes a new terminal.
    Begin,
    /// Adds a working set with an object pool that is there from the start.
    Preload,
    /// Receives a frame of the bus.
    Frame,
    /// Advances the time.
    Tick,
    /// Performs an action of the operator.
    Act(ActKind),
    /// Enters a text of the operator into an input.
    Text,
    /// Sends the address claim.
    Claim,
    /// Sends the status message.
    Status,
}

/// The kind of an action of the operator.
#[derive(Clone, Copy, PartialEq, Eq)]
pub enum ActKind {
    /// Presses a key or button.
    Press,
    /// Releases a key or button.
    Release,
    /// Selects an input.
    Select,
    /// Enters a number into an input.
    Number,
    /// Selects the working set at an address.
    Set,
}

/// The kind of a question.
#[derive(Clone, Copy, PartialEq, Eq)]
pub enum QuestionKind {
    /// The screen as text.
    Screen,
    /// The picture of a mask.
    Picture,
    /// The picture of one object.
    Part,
    /// The elements of the shown mask.
    Elements,
    /// An object as it is now.
    Object,
    /// The working sets.
    Sets,
    /// The limits of an input.
    Limits,
    /// The raw value of a typed number.
    Raw,
    /// The key, button or input at a place.
    Touch,
    /// The words for a frame.
    Words,
}

/// A request.
#[derive(Drop)]
pub enum Request {
    /// A command for the terminal.
    Command(Command),
    /// A question about the terminal.
    Question(Question),
}

/// A command for the terminal. Times are in microseconds.
#[derive(Drop)]
pub enum Command {
    /// Makes a new terminal with an address, a NAME and a profile.
    Begin {
        own: u8,
        name: u64,
        profile: Profile,
    },
    /// Adds a working set with the object pool of these bytes.
    Preload {
        address: u8,
        pool: Vec<u8>,
    },
    /// Receives a frame of the bus.
    Frame {
        time: u64,
        frame: Frame,
    },
    /// Advances the time.
    Tick {
        time: u64,
    },
    /// An action of the operator.
    Act {
        time: u64,
        action: Action<'static>,
    },
    /// A text of the operator for an input.
    Text {
        time: u64,
        object: u16,
        text: Vec<u8>,
    },
    /// Sends the address claim.
    Claim,
    /// Sends the status message.
    Status,
}

/// A question about the terminal. A mask of 65535 is the active one.
#[derive(Drop)]
pub enum Question {
    /// The screen as text.
    Screen,
    /// The picture of a mask of the set at an address.
    Picture {
        address: u8,
        mask: u16,
    },
    /// The picture of an object by itself.
    Part {
        address: u8,
        object: u16,
    },
    /// The elements of the shown mask.
    Elements,
    /// An object as it is now.
    Object {
        address: u8,
        object: u16,
    },
    /// The working sets.
    Sets,
    /// The limits of an input.
    Limits {
        address: u8,
        object: u16,
    },
    /// The raw value of a typed number for an input.
    Raw {
        address: u8,
        object: u16,
        typed: Typed,
    },
    /// The key, button or input at a place, in pixels from the upper left corner of the mask.
    Touch {
        x: u32,
        y: u32,
    },
    /// The words for a frame.
    Words {
        frame: Frame,
    },
}
