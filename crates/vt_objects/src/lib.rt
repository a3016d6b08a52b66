//! Shown numbers as text, and the objects, commands and stores of vt_kinds, vt_commands and vt_stores under one name (ISO
//! 11783-6).
//!
//! - Objects: an `Object` is of one of the 29 kinds (`Kind`, `Kinds`), each with its own type. An `ObjectId` is the ID of an
//!   object. `Scale`, `Decimals` and `Decimal` format shown numbers. `Entries`, `ShortText`, `LongText`, `MacroBytes` and
//!   `PictureBytes` are the lists, texts and bytes.
//! - References: `slots` yields each reference of an object as a `Slot`, with its `Place`; `attribute` looks up an `Attribute`.
//! - Commands: `Command` is decoded from its bytes, `targets` returns each `Target` of it, and `row_events` each `Event` that
//!   it raises, as a `Raised`.
//! - Stores: `Store` is a map of objects; `SortedStore` and `ListStore` implement it.
//! - `laws` has the theorems.
//!
//! The objects are in vt_kinds, the commands in vt_commands and the stores in vt_stores; this crate exports most of all three
//! and adds the shown numbers, and `push_number`, which appends a number to a text. Come here to ask how a number is shown.
//!
//! docs/PROFILE.md has the tables: "Records" for the kinds and their fields, "References and inclusions" for the
//! references, "Attributes" for Change Attribute, "Commands" for the bytes of the commands.
#![tactic(auto)]

mod decimal;
pub mod laws;
mod text;

pub use decimal::Decimal;
pub use text::push_number;
pub use vt_commands::{
    Command, Event, Raised, Target, attribute, row_events, split_command, targets,
};
pub use vt_kinds::{
    AlarmMask, ArchedBar, Attribute, Button, Child, Container, DataMask, Decimals, Ellipse,
    Entries, Field, FillAttributes, Font, InputAttributes, InputBoolean, InputList, InputNumber,
    InputString, Key, Kind, Kinds, Language, Line, LineAttributes, LinearBar, LongText, Macro,
    MacroBytes, MacroEntry, Meter, NumberVariable, Object, ObjectId, ObjectPointer, OutOfMemory,
    OutputNumber, OutputString, Picture, PictureBytes, Place, Point, Polygon, Rectangle, Scale,
    ShortText, Slot, Slots, SoftKeyMask, StringVariable, ValueType, WorkingSet, slots,
};
pub use vt_stores::{ListStore, SortedStore, Store};
