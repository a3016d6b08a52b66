//! The objects of an ISOBUS virtual terminal (ISO 11783-6): their kinds, fields and references.
//!
//! - An `Object` is of one of the 29 kinds (`Kind`, `Kinds`), each with its own type. An `ObjectId` is the ID of an object. `Scale`
//!   and `Decimals` are the format of a number. `Entries`, `ShortText`, `LongText`, `MacroBytes` and `PictureBytes` are the lists,
//!   texts and bytes.
//! - `slots` yields each reference of an object as a `Slot`, with its `Place`.
//! - An `Attribute` is a `Field` of a kind's record, with the `ValueType` that Change Attribute writes there.
//!
//! Records are read in vt_records and written in vt_writing, and commands change objects in vt_effects. Come here to ask which fields,
//! references and attributes a kind has.
//!
//! docs/PROFILE.md has the tables: "Records" for the kinds and their fields, "References and inclusions" for the references.
#![tactic(auto)]

mod attribute_objects;
mod entries;
mod fields;
mod graphs;
mod id;
mod input_fields;
mod keys;
mod kind;
mod kinds;
mod long_text;
mod macro_bytes;
mod macros;
mod masks;
mod object;
mod output_fields;
mod picture_bytes;
mod pictures;
mod place;
mod references;
mod scale;
mod shapes;
mod short_text;
mod slot;
mod variables;

pub use attribute_objects::{FillAttributes, Font, InputAttributes, LineAttributes};
pub use entries::{Child, Entries, Language, MacroEntry, Point};
pub use fields::{Attribute, Field, ValueType};
pub use graphs::{ArchedBar, LinearBar, Meter};
pub use id::ObjectId;
pub use input_fields::{InputBoolean, InputList, InputNumber, InputString};
pub use keys::{Button, Key, SoftKeyMask};
pub use kind::Kind;
pub use kinds::Kinds;
pub use long_text::LongText;
pub use macro_bytes::MacroBytes;
pub use macros::Macro;
pub use masks::{AlarmMask, Container, DataMask, WorkingSet};
pub use object::Object;
pub use output_fields::{OutputNumber, OutputString};
pub use picture_bytes::PictureBytes;
pub use pictures::Picture;
pub use place::Place;
pub use references::slots;
pub use scale::{Decimals, Scale};
pub use shapes::{Ellipse, Line, Polygon, Rectangle};
pub use short_text::ShortText;
pub use slot::{Slot, Slots};
pub use variables::{NumberVariable, ObjectPointer, StringVariable};

/// The error of a failed allocation.
pub use std::alloc::AllocError as OutOfMemory;
