//! The events of objects and their numbers.

ghost use Rattle.std.specs.Prelude.{◌≡◌};
ghost use Rattle.vt_commands.specs.Events.{event_number, event_at, is_listable};

/// An event of an object (ISO 11783-6; docs/PROFILE.md, "Event numbers").
#[derive(Clone, Copy, Default, PartialEq, Eq)]
pub enum Event {
    /// A macro runs by its ID. This event belongs to macros alone, and no macro entry may list it.
    #[default]
    RunByName,
    Activate,
    Deactivate,
    Show,
    Hide,
    Enable,
    Disable,
    ActiveMask,
    SoftKeyMask,
    Attribute,
    BackgroundColour,
    Font,
    Line,
    Fill,
    ChildLocation,
    Size,
    Value,
    Priority,
    EndPoint,
    InputSelected,
    InputDeselected,
    Escape,
    EntryOfValue,
    EntryOfNewValue,
    KeyPress,
    KeyRelease,
    ChildPosition,
}

impl Event {
    /// The number of the last event.
    pub const LAST_NUMBER: u8 = 26;

    /// The number of the event, 0 to 26.
    pub fn number(self) -> u8
        ensures { result ≡ event_number self }
    {
        match self {
            Event::RunByName => 0,
            Event::Activate => 1,
            Event::Deactivate => 2,
            Event::Show => 3,
            Event::Hide => 4,
            Event::Enable => 5,
            Event::Disable => 6,
            Event::ActiveMask => 7,
            Event::SoftKeyMask => 8,
            Event::Attribute => 9,
            Event::BackgroundColour => 10,
            Event::Font => 11,
            Event::Line => 12,
            Event::Fill => 13,
            Event::ChildLocation => 14,
            Event::Size => 15,
            Event::Value => 16,
            Event::Priority => 17,
            Event::EndPoint => 18,
            Event::InputSelected => 19,
            Event::InputDeselected => 20,
            Event::Escape => 21,
            Event::EntryOfValue => 22,
            Event::EntryOfNewValue => 23,
            Event::KeyPress => 24,
            Event::KeyRelease => 25,
            Event::ChildPosition => 26,
        }
    }

    /// The event with a number, or `None`.
    pub fn from_number(number: u8) -> Option<Event>
        ensures { result ≡ event_at number }
    {
        match number {
            0 => Some(Event::RunByName),
            1 => Some(Event::Activate),
            2 => Some(Event::Deactivate),
            3 => Some(Event::Show),
            4 => Some(Event::Hide),
            5 => Some(Event::Enable),
            6 => Some(Event::Disable),
            7 => Some(Event::ActiveMask),
            8 => Some(Event::SoftKeyMask),
            9 => Some(Event::Attribute),
            10 => Some(Event::BackgroundColour),
            11 => Some(Event::Font),
            12 => Some(Event::Line),
            13 => Some(Event::Fill),
            14 => Some(Event::ChildLocation),
            15 => Some(Event::Size),
            16 => Some(Event::Value),
            17 => Some(Event::Priority),
            18 => Some(Event::EndPoint),
            19 => Some(Event::InputSelected),
            20 => Some(Event::InputDeselected),
            21 => Some(Event::Escape),
            22 => Some(Event::EntryOfValue),
            23 => Some(Event::EntryOfNewValue),
            24 => Some(Event::KeyPress),
            25 => Some(Event::KeyRelease),
            26 => Some(Event::ChildPosition),
            _ => None,
        }
    }
    /// Whether macro entries may list the event with this number. Entries with other numbers never fire.
    pub fn is_listable(number: u8) -> bool
        ensures { result ≡ is_listable number }
    {
        (1..=Event::LAST_NUMBER).contains(&number)
    }
}
