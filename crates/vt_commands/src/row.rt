//! The table of commands: the function of each, its name, its reply, its events, and why it may be refused.

ghost use Rattle.std.specs.Prelude.{◌≡◌, option_map};
ghost use Rattle.vt_commands.specs.Commands.{columns_at};
ghost use Rattle.vt_commands.specs.Rows.{columns};

use crate::event::Event;

/// The functions of commands, and of the messages that report the operator's actions to an implement: the first byte of each.
pub mod function {
    // Commands of an implement, and the replies to them

    /// Hide/Show Object.
    pub const HIDE_SHOW: u8 = 0xA0;

    /// Enable/Disable Object.
    pub const ENABLE_DISABLE: u8 = 0xA1;

    /// Control Audio Signal.
    pub const CONTROL_AUDIO: u8 = 0xA3;

    /// Set Audio Volume.
    pub const SET_VOLUME: u8 = 0xA4;

    /// Change Child Location.
    pub const CHANGE_CHILD_LOCATION: u8 = 0xA5;

    /// Change Size.
    pub const CHANGE_SIZE: u8 = 0xA6;

    /// Change Background Colour.
    pub const CHANGE_BACKGROUND_COLOUR: u8 = 0xA7;

    /// Change Numeric Value.
    pub const CHANGE_NUMERIC_VALUE: u8 = 0xA8;

    /// Change End Point.
    pub const CHANGE_END_POINT: u8 = 0xA9;

    /// Change Font Attributes.
    pub const CHANGE_FONT_ATTRIBUTES: u8 = 0xAA;

    /// Change Line Attributes.
    pub const CHANGE_LINE_ATTRIBUTES: u8 = 0xAB;

    /// Change Fill Attributes.
    pub const CHANGE_FILL_ATTRIBUTES: u8 = 0xAC;

    /// Change Active Mask.
    pub const CHANGE_ACTIVE_MASK: u8 = 0xAD;

    /// Change Soft Key Mask.
    pub const CHANGE_SOFT_KEY_MASK: u8 = 0xAE;

    /// Change Attribute.
    pub const CHANGE_ATTRIBUTE: u8 = 0xAF;

    /// Change Priority.
    pub const CHANGE_PRIORITY: u8 = 0xB0;

    /// Change List Item.
    pub const CHANGE_LIST_ITEM: u8 = 0xB1;

    /// Delete Object Pool.
    pub const DELETE_POOL: u8 = 0xB2;

    /// Change String Value.
    pub const CHANGE_STRING_VALUE: u8 = 0xB3;

    /// Change Child Position.
    pub const CHANGE_CHILD_POSITION: u8 = 0xB4;

    /// Execute Macro.
    pub const EXECUTE_MACRO: u8 = 0xBE;

    // Messages of the operator's actions

    /// Soft Key Activation.
    pub const SOFT_KEY_ACTIVATION: u8 = 0x00;

    /// Button Activation.
    pub const BUTTON_ACTIVATION: u8 = 0x01;

    /// The numeric value that the operator enters.
    pub const NUMERIC_VALUE: u8 = 0x05;

    /// The string value that the operator enters.
    pub const STRING_VALUE: u8 = 0x08;
}

/// A row of the table of commands (ISO 11783-6, the section of each command; docs/PROFILE.md, "Commands: all rows").
#[derive(Clone, Copy, PartialEq, Eq)]
pub struct CommandRow {
    /// The name of the command.
    pub name: &'static str,
    /// The index of the object's ID in the reply. `None` if the reply names no object.
    pub object_at: Option<usize>,
    /// The index of the error byte in the reply.
    pub error_at: usize,
    /// The events that the command raises if it is done.
    pub raises: Raises,
    /// Why the command may be refused: bits of the error byte, each with the cause that sets it.
    pub refusals: &'static [(u8, &'static str)],
}

/// The events that a command raises if it is done.
#[derive(Clone, Copy, PartialEq, Eq)]
pub enum Raises {
    /// No event.
    Nothing,
    /// An event of the object that the command changes.
    One(Event),
    /// The first event for state 0, and the second for state 1.
    ByState(Event, Event),
    /// The events of a change to another active mask: ActiveMask of the working set, and Show of the mask.
    ActiveMask,
}

const OBJECT: &str = "the object is not there or of another kind";

const STATE: &str = "the state is neither 0 nor 1";

const PARENT: &str = "the parent is not there or of another kind, or does not have the child";

const CHILD: &str = "the child is not there";

impl CommandRow {
    /// The row of the command with a function. `None` if no command has that function.
    pub fn of(function: u8) -> Option<CommandRow>
        ensures { option_map columns result ≡ columns_at function }
    {
        let row = match function {
            function::HIDE_SHOW => CommandRow {
                name: "Hide/Show Object",
                object_at: Some(1),
                error_at: 4,
                raises: Raises::ByState(Event::Hide, Event::Show),
                refusals: &[(1, OBJECT), (2, STATE)],
            },
            function::ENABLE_DISABLE => CommandRow {
                name: "Enable/Disable Object",
                object_at: Some(1),
                error_at: 4,
                raises: Raises::ByState(Event::Disable, Event::Enable),
                refusals: &[(1, OBJECT), (2, STATE)],
            },
            function::CONTROL_AUDIO => CommandRow {
                name: "Control Audio Signal",
                object_at: None,
                error_at: 1,
                raises: Raises::Nothing,
                refusals: &[],
            },
            function::SET_VOLUME => CommandRow {
                name: "Set Audio Volume",
                object_at: None,
                error_at: 1,
                raises: Raises::Nothing,
                refusals: &[(4, "the volume is over 100")],
            },
            function::CHANGE_CHILD_LOCATION => CommandRow {
                name: "Change Child Location",
                object_at: Some(1),
                error_at: 5,
                raises: Raises::One(Event::ChildLocation),
                refusals: &[
                    (0, PARENT),
                    (1, CHILD),
                    (4, "a position leaves 16 signed bits"),
                ],
            },
            function::CHANGE_SIZE => CommandRow {
                name: "Change Size",
                object_at: Some(1),
                error_at: 3,
                raises: Raises::One(Event::Size),
                refusals: &[(0, OBJECT)],
            },
            function::CHANGE_BACKGROUND_COLOUR => CommandRow {
                name: "Change Background Colour",
                object_at: Some(1),
                error_at: 4,
                raises: Raises::One(Event::BackgroundColour),
                refusals: &[(0, OBJECT)],
            },
            function::CHANGE_NUMERIC_VALUE => CommandRow {
                name: "Change Numeric Value",
                object_at: Some(1),
                error_at: 3,
                raises: Raises::One(Event::Value),
                refusals: &[(0, OBJECT), (1, "the value is not accepted")],
            },
            function::CHANGE_END_POINT => CommandRow {
                name: "Change End Point",
                object_at: Some(1),
                error_at: 3,
                raises: Raises::One(Event::EndPoint),
                refusals: &[(0, OBJECT), (1, "the direction is neither 0 nor 1")],
            },
            function::CHANGE_FONT_ATTRIBUTES => CommandRow {
                name: "Change Font Attributes",
                object_at: Some(1),
                error_at: 3,
                raises: Raises::One(Event::Font),
                refusals: &[(0, OBJECT)],
            },
            function::CHANGE_LINE_ATTRIBUTES => CommandRow {
                name: "Change Line Attributes",
                object_at: Some(1),
                error_at: 3,
                raises: Raises::One(Event::Line),
                refusals: &[(0, OBJECT)],
            },
            function::CHANGE_FILL_ATTRIBUTES => CommandRow {
                name: "Change Fill Attributes",
                object_at: Some(1),
                error_at: 3,
                raises: Raises::One(Event::Fill),
                refusals: &[(0, OBJECT), (3, "the pattern is no Picture Graphic")],
            },
            function::CHANGE_ACTIVE_MASK => CommandRow {
                name: "Change Active Mask",
                object_at: Some(1),
                error_at: 3,
                raises: Raises::ActiveMask,
                refusals: &[
                    (0, "the working set is not there or of another kind"),
                    (1, "the mask is not there or of another kind"),
                ],
            },
            function::CHANGE_SOFT_KEY_MASK => CommandRow {
                name: "Change Soft Key Mask",
                object_at: Some(1),
                error_at: 5,
                raises: Raises::One(Event::SoftKeyMask),
                refusals: &[
                    (
                        0,
                        "the mask is not there or not of the kind that the type names",
                    ),
                    (1, "the keys are no Soft Key Mask"),
                ],
            },
            function::CHANGE_ATTRIBUTE => CommandRow {
                name: "Change Attribute",
                object_at: Some(1),
                error_at: 4,
                raises: Raises::One(Event::Attribute),
                refusals: &[
                    (0, OBJECT),
                    (1, "the kind has no attribute of that number"),
                    (2, "the value is refused"),
                ],
            },
            function::CHANGE_PRIORITY => CommandRow {
                name: "Change Priority",
                object_at: Some(1),
                error_at: 4,
                raises: Raises::One(Event::Priority),
                refusals: &[(0, OBJECT), (1, "the priority is over 2")],
            },
            function::CHANGE_LIST_ITEM => CommandRow {
                name: "Change List Item",
                object_at: Some(1),
                error_at: 6,
                raises: Raises::Nothing,
                refusals: &[
                    (0, OBJECT),
                    (1, "the index is not below the number of items"),
                    (2, "the item is not accepted"),
                ],
            },
            function::DELETE_POOL => CommandRow {
                name: "Delete Object Pool",
                object_at: None,
                error_at: 1,
                raises: Raises::Nothing,
                refusals: &[],
            },
            function::CHANGE_STRING_VALUE => CommandRow {
                name: "Change String Value",
                object_at: Some(3),
                error_at: 5,
                raises: Raises::One(Event::Value),
                refusals: &[
                    (1, OBJECT),
                    (
                        2,
                        "the length is over that of the object, or over that of the text",
                    ),
                ],
            },
            function::CHANGE_CHILD_POSITION => CommandRow {
                name: "Change Child Position",
                object_at: Some(1),
                error_at: 5,
                raises: Raises::One(Event::ChildPosition),
                refusals: &[(0, PARENT), (1, CHILD)],
            },
            function::EXECUTE_MACRO => CommandRow {
                name: "Execute Macro",
                object_at: Some(1),
                error_at: 3,
                raises: Raises::One(Event::RunByName),
                refusals: &[
                    (0, "the object is not there"),
                    (1, "the object is no Macro"),
                    (2, "the ID of the Macro is above 255"),
                ],
            },
            _ => return None,
        };
        Some(row)
    }
}
