//! The position of a reference in its object, in words.

ghost use Rattle.std.specs.Prelude.{Some};
ghost use Rattle.check_text.specs.Spots.{spot_text, place_text};

use crate::command_text::CommandText;
use crate::events::event_name;
use check_inspect::Spot;
use std::fmt;
use vt_objects::Place;

/// The position of a reference for people, such as `child 3` or `macro entry 1 (key release)`.
#[derive(Clone, Copy, Drop)]
pub(crate) struct SpotWords {
    pub(crate) spot: Spot,
}

impl fmt::Display for SpotWords {
    fn fmt<W: fmt::Write>(&self, f: &mut fmt::Formatter<W>) -> fmt::Result {
        match self.spot {
            Spot::Slot(place) | Spot::Through { place, .. } => write!(f, "{}", PlaceText { place }),
            Spot::Entry { index, event } => {
                write!(f, "macro entry {index} ({})", event_name(event))
            }
            Spot::Command { at, function } => write!(f, "{}", CommandText { at, function }),
        }
    }
}

/// The position of a reference for other programs, such as `child 3` or `macro entry 1 (event 25)`.
#[derive(Clone, Copy, Drop)]
pub struct SpotText {
    /// The position.
    pub spot: Spot,
}

#[tactic(auto, using(std::proofs::lemmas::Fmt::hex_byte))]
impl fmt::Display for SpotText {
    ghost output = { λ t. Some (spot_text t.spot) };

    fn fmt<W: fmt::Write>(&self, f: &mut fmt::Formatter<W>) -> fmt::Result {
        match self.spot {
            Spot::Slot(place) | Spot::Through { place, .. } => write!(f, "{}", PlaceText { place }),
            Spot::Entry { index, event } => write!(f, "macro entry {index} (event {event})"),
            Spot::Command { at, function } => write!(f, "command {function:02X} at byte {at}"),
        }
    }
}

#[derive(Clone, Copy, Drop)]
struct PlaceText {
    place: Place,
}

impl fmt::Display for PlaceText {
    ghost output = { λ t. Some (place_text t.place) };

    fn fmt<W: fmt::Write>(&self, f: &mut fmt::Formatter<W>) -> fmt::Result {
        match self.place {
            Place::ActiveMask => write!(f, "active mask"),
            Place::SoftKeyMask => write!(f, "soft key mask"),
            Place::Child(index) => write!(f, "child {index}"),
            Place::Key(index) => write!(f, "key {index}"),
            Place::Font => write!(f, "font"),
            Place::InputAttributes => write!(f, "input attributes"),
            Place::Variable => write!(f, "variable"),
            Place::TargetVariable => write!(f, "target variable"),
            Place::Item(index) => write!(f, "item {index}"),
            Place::LineAttributes => write!(f, "line attributes"),
            Place::Fill => write!(f, "fill"),
            Place::Pattern => write!(f, "pattern"),
            Place::Value => write!(f, "value"),
        }
    }
}
