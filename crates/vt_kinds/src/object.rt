//! An object of any kind.

ghost use Rattle.std.specs.Prelude.{◌≡◌, IfOk};
ghost use Rattle.vt_kinds.specs.Records.{kind_of, macros_of, seen};

use crate::attribute_objects::{FillAttributes, Font, InputAttributes, LineAttributes};
use crate::entries::MacroEntry;
use crate::graphs::{ArchedBar, LinearBar, Meter};
use crate::input_fields::{InputBoolean, InputList, InputNumber, InputString};
use crate::keys::{Button, Key, SoftKeyMask};
use crate::kind::Kind;
use crate::macros::Macro;
use crate::masks::{AlarmMask, Container, DataMask, WorkingSet};
use crate::output_fields::{OutputNumber, OutputString};
use crate::pictures::Picture;
use crate::shapes::{Ellipse, Line, Polygon, Rectangle};
use crate::variables::{NumberVariable, ObjectPointer, StringVariable};
use std::alloc::{AllocError, Global};
use std::convert::AsSlice;

/// An object. `B` holds its texts, picture and macro bytes: `&[u8]` in a pool, `Vec<u8>` in a store.
pub enum Object<B: AsSlice<u8>> {
    WorkingSet(WorkingSet),
    DataMask(DataMask),
    AlarmMask(AlarmMask),
    Container(Container),
    SoftKeyMask(SoftKeyMask),
    Key(Key),
    Button(Button),
    InputBoolean(InputBoolean),
    InputString(InputString<B>),
    InputNumber(InputNumber),
    InputList(InputList),
    OutputString(OutputString<B>),
    OutputNumber(OutputNumber),
    Line(Line),
    Rectangle(Rectangle),
    Ellipse(Ellipse),
    Polygon(Polygon),
    Meter(Meter),
    LinearBar(LinearBar),
    ArchedBar(ArchedBar),
    Picture(Picture<B>),
    NumberVariable(NumberVariable),
    StringVariable(StringVariable<B>),
    Font(Font),
    LineAttributes(LineAttributes),
    FillAttributes(FillAttributes),
    InputAttributes(InputAttributes<B>),
    ObjectPointer(ObjectPointer),
    Macro(Macro<B>),
}

// Written out and not derived: the drop of each kind is proved once here, and not again in each crate that drops
// an object.
impl<B: AsSlice<u8> + Drop> Drop for Object<B> {
    fn drop(self) {
        match self {
            Object::WorkingSet(_object) => {}
            Object::DataMask(_object) => {}
            Object::AlarmMask(_object) => {}
            Object::Container(_object) => {}
            Object::SoftKeyMask(_object) => {}
            Object::Key(_object) => {}
            Object::Button(_object) => {}
            Object::InputBoolean(_object) => {}
            Object::InputString(_object) => {}
            Object::InputNumber(_object) => {}
            Object::InputList(_object) => {}
            Object::OutputString(_object) => {}
            Object::OutputNumber(_object) => {}
            Object::Line(_object) => {}
            Object::Rectangle(_object) => {}
            Object::Ellipse(_object) => {}
            Object::Polygon(_object) => {}
            Object::Meter(_object) => {}
            Object::LinearBar(_object) => {}
            Object::ArchedBar(_object) => {}
            Object::Picture(_object) => {}
            Object::NumberVariable(_object) => {}
            Object::StringVariable(_object) => {}
            Object::Font(_object) => {}
            Object::LineAttributes(_object) => {}
            Object::FillAttributes(_object) => {}
            Object::InputAttributes(_object) => {}
            Object::ObjectPointer(_object) => {}
            Object::Macro(_object) => {}
        }
    }
}

impl<B: AsSlice<u8>> Object<B> {
    /// The kind of the object.
    pub fn kind(&self) -> Kind
        ensures { result ≡ kind_of self.now }
    {
        match self {
            Object::WorkingSet(_) => Kind::WorkingSet,
            Object::DataMask(_) => Kind::DataMask,
            Object::AlarmMask(_) => Kind::AlarmMask,
            Object::Container(_) => Kind::Container,
            Object::SoftKeyMask(_) => Kind::SoftKeyMask,
            Object::Key(_) => Kind::Key,
            Object::Button(_) => Kind::Button,
            Object::InputBoolean(_) => Kind::InputBoolean,
            Object::InputString(_) => Kind::InputString,
            Object::InputNumber(_) => Kind::InputNumber,
            Object::InputList(_) => Kind::InputList,
            Object::OutputString(_) => Kind::OutputString,
            Object::OutputNumber(_) => Kind::OutputNumber,
            Object::Line(_) => Kind::Line,
            Object::Rectangle(_) => Kind::Rectangle,
            Object::Ellipse(_) => Kind::Ellipse,
            Object::Polygon(_) => Kind::Polygon,
            Object::Meter(_) => Kind::Meter,
            Object::LinearBar(_) => Kind::LinearBar,
            Object::ArchedBar(_) => Kind::ArchedBar,
            Object::Picture(_) => Kind::Picture,
            Object::NumberVariable(_) => Kind::NumberVariable,
            Object::StringVariable(_) => Kind::StringVariable,
            Object::Font(_) => Kind::Font,
            Object::LineAttributes(_) => Kind::LineAttributes,
            Object::FillAttributes(_) => Kind::FillAttributes,
            Object::InputAttributes(_) => Kind::InputAttributes,
            Object::ObjectPointer(_) => Kind::ObjectPointer,
            Object::Macro(_) => Kind::Macro,
        }
    }

    /// The macros of the object's events; empty for a kind without events.
    pub fn macros(&self) -> &[MacroEntry]
        ensures { result.now ≡ macros_of self.now }
    {
        match self {
            Object::WorkingSet(o) => o.macros.as_slice(),
            Object::DataMask(o) => o.macros.as_slice(),
            Object::AlarmMask(o) => o.macros.as_slice(),
            Object::Container(o) => o.macros.as_slice(),
            Object::SoftKeyMask(o) => o.macros.as_slice(),
            Object::Key(o) => o.macros.as_slice(),
            Object::Button(o) => o.macros.as_slice(),
            Object::InputBoolean(o) => o.macros.as_slice(),
            Object::InputString(o) => o.macros.as_slice(),
            Object::InputNumber(o) => o.macros.as_slice(),
            Object::InputList(o) => o.macros.as_slice(),
            Object::OutputString(o) => o.macros.as_slice(),
            Object::OutputNumber(o) => o.macros.as_slice(),
            Object::Line(o) => o.macros.as_slice(),
            Object::Rectangle(o) => o.macros.as_slice(),
            Object::Ellipse(o) => o.macros.as_slice(),
            Object::Polygon(o) => o.macros.as_slice(),
            Object::Meter(o) => o.macros.as_slice(),
            Object::LinearBar(o) => o.macros.as_slice(),
            Object::ArchedBar(o) => o.macros.as_slice(),
            Object::Picture(o) => o.macros.as_slice(),
            Object::Font(o) => o.macros.as_slice(),
            Object::LineAttributes(o) => o.macros.as_slice(),
            Object::FillAttributes(o) => o.macros.as_slice(),
            Object::InputAttributes(o) => o.macros.as_slice(),
            Object::NumberVariable(_)
            | Object::StringVariable(_)
            | Object::ObjectPointer(_)
            | Object::Macro(_) => &[],
        }
    }

    /// Copies the object into new memory. `AllocError` if memory is refused.
    pub fn copied(&self, alloc: Global) -> Result<Object<Vec<u8>>, AllocError>
        ensures { IfOk result (λ copy. seen copy ≡ seen self.now) }
    {
        match self {
            Object::WorkingSet(o) => Ok(Object::WorkingSet(o.copied(alloc)?)),
            Object::DataMask(o) => Ok(Object::DataMask(o.copied(alloc)?)),
            Object::AlarmMask(o) => Ok(Object::AlarmMask(o.copied(alloc)?)),
            Object::Container(o) => Ok(Object::Container(o.copied(alloc)?)),
            Object::SoftKeyMask(o) => Ok(Object::SoftKeyMask(o.copied(alloc)?)),
            Object::Key(o) => Ok(Object::Key(o.copied(alloc)?)),
            Object::Button(o) => Ok(Object::Button(o.copied(alloc)?)),
            Object::InputBoolean(o) => Ok(Object::InputBoolean(o.copied(alloc)?)),
            Object::InputString(o) => Ok(Object::InputString(o.copied(alloc)?)),
            Object::InputNumber(o) => Ok(Object::InputNumber(o.copied(alloc)?)),
            Object::InputList(o) => Ok(Object::InputList(o.copied(alloc)?)),
            Object::OutputString(o) => Ok(Object::OutputString(o.copied(alloc)?)),
            Object::OutputNumber(o) => Ok(Object::OutputNumber(o.copied(alloc)?)),
            Object::Line(o) => Ok(Object::Line(o.copied(alloc)?)),
            Object::Rectangle(o) => Ok(Object::Rectangle(o.copied(alloc)?)),
            Object::Ellipse(o) => Ok(Object::Ellipse(o.copied(alloc)?)),
            Object::Polygon(o) => Ok(Object::Polygon(o.copied(alloc)?)),
            Object::Meter(o) => Ok(Object::Meter(o.copied(alloc)?)),
            Object::LinearBar(o) => Ok(Object::LinearBar(o.copied(alloc)?)),
            Object::ArchedBar(o) => Ok(Object::ArchedBar(o.copied(alloc)?)),
            Object::Picture(o) => Ok(Object::Picture(o.copied(alloc)?)),
            Object::NumberVariable(o) => Ok(Object::NumberVariable(*o)),
            Object::StringVariable(o) => Ok(Object::StringVariable(o.copied(alloc)?)),
            Object::Font(o) => Ok(Object::Font(o.copied(alloc)?)),
            Object::LineAttributes(o) => Ok(Object::LineAttributes(o.copied(alloc)?)),
            Object::FillAttributes(o) => Ok(Object::FillAttributes(o.copied(alloc)?)),
            Object::InputAttributes(o) => Ok(Object::InputAttributes(o.copied(alloc)?)),
            Object::ObjectPointer(o) => Ok(Object::ObjectPointer(*o)),
            Object::Macro(o) => Ok(Object::Macro(o.copied(alloc)?)),
        }
    }
}

impl<B: AsSlice<u8> + Drop> Object<B> {
    /// Converts the object into one that owns its bytes: its texts, picture and macro bytes are copied, and its lists are
    /// moved. `AllocError` if memory is refused; the object is then dropped.
    pub fn into_owned(self, alloc: Global) -> Result<Object<Vec<u8>>, AllocError>
        ensures { IfOk result (λ owned. seen owned ≡ seen self) }
    {
        match self {
            Object::WorkingSet(o) => Ok(Object::WorkingSet(o)),
            Object::DataMask(o) => Ok(Object::DataMask(o)),
            Object::AlarmMask(o) => Ok(Object::AlarmMask(o)),
            Object::Container(o) => Ok(Object::Container(o)),
            Object::SoftKeyMask(o) => Ok(Object::SoftKeyMask(o)),
            Object::Key(o) => Ok(Object::Key(o)),
            Object::Button(o) => Ok(Object::Button(o)),
            Object::InputBoolean(o) => Ok(Object::InputBoolean(o)),
            Object::InputString(o) => Ok(Object::InputString(o.into_owned(alloc)?)),
            Object::InputNumber(o) => Ok(Object::InputNumber(o)),
            Object::InputList(o) => Ok(Object::InputList(o)),
            Object::OutputString(o) => Ok(Object::OutputString(o.into_owned(alloc)?)),
            Object::OutputNumber(o) => Ok(Object::OutputNumber(o)),
            Object::Line(o) => Ok(Object::Line(o)),
            Object::Rectangle(o) => Ok(Object::Rectangle(o)),
            Object::Ellipse(o) => Ok(Object::Ellipse(o)),
            Object::Polygon(o) => Ok(Object::Polygon(o)),
            Object::Meter(o) => Ok(Object::Meter(o)),
            Object::LinearBar(o) => Ok(Object::LinearBar(o)),
            Object::ArchedBar(o) => Ok(Object::ArchedBar(o)),
            Object::Picture(o) => Ok(Object::Picture(o.into_owned(alloc)?)),
            Object::NumberVariable(o) => Ok(Object::NumberVariable(o)),
            Object::StringVariable(o) => Ok(Object::StringVariable(o.into_owned(alloc)?)),
            Object::Font(o) => Ok(Object::Font(o)),
            Object::LineAttributes(o) => Ok(Object::LineAttributes(o)),
            Object::FillAttributes(o) => Ok(Object::FillAttributes(o)),
            Object::InputAttributes(o) => Ok(Object::InputAttributes(o.into_owned(alloc)?)),
            Object::ObjectPointer(o) => Ok(Object::ObjectPointer(o)),
            Object::Macro(o) => Ok(Object::Macro(o.into_owned(alloc)?)),
        }
    }
}
