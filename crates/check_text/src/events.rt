//! The names of events.

ghost use Rattle.std.specs.Prelude.{◌≡◌};
ghost use Rattle.check_text.specs.Events as names;

use vt_objects::Event;

/// The name of the event with a number (docs/PROFILE.md, "Event numbers"), or `no event`.
pub fn event_name(number: u8) -> &'static str
    ensures { result.now ≡ names.event_name number }
{
    match Event::from_number(number) {
        Some(event) => name_of(event),
        None => "no event",
    }
}

fn name_of(event: Event) -> &'static str
    ensures { result.now ≡ names.name_of event }
{
    match event {
        Event::RunByName => "run by name",
        Event::Activate => "activate",
        Event::Deactivate => "deactivate",
        Event::Show => "show",
        Event::Hide => "hide",
        Event::Enable => "enable",
        Event::Disable => "disable",
        Event::ActiveMask => "active mask",
        Event::SoftKeyMask => "soft key mask",
        Event::Attribute => "attribute",
        Event::BackgroundColour => "background colour",
        Event::Font => "font",
        Event::Line => "line",
        Event::Fill => "fill",
        Event::ChildLocation => "child location",
        Event::Size => "size",
        Event::Value => "value",
        Event::Priority => "priority",
        Event::EndPoint => "end point",
        Event::InputSelected => "input selected",
        Event::InputDeselected => "input deselected",
        Event::Escape => "ESC",
        Event::EntryOfValue => "entry of value",
        Event::EntryOfNewValue => "entry of new value",
        Event::KeyPress => "key press",
        Event::KeyRelease => "key release",
        Event::ChildPosition => "child position",
    }
}
