//! The shapes of each kind of object.

ghost use Rattle.std.specs.Prelude.{◌≡◌, ◌++◌, OnOk};
ghost use Rattle.vt_kinds.specs.Records.{seen};
ghost use Rattle.draw_svg.specs.Elements.{text_of};
ghost use Rattle.draw_shapes.specs.Shapes.{button_shapes, key_shapes, picture_shown, shapes};

mod arcs;
mod ellipses;
mod fields;
mod gauges;
mod lines;
mod texts;

use check_needs::Sizes;
use draw_svg::{Attribute, Element, Paint, empty};
use ellipses::draw_ellipse;
use gauges::{draw_arched_bar, draw_linear_bar, draw_meter};
use lines::{draw_line, draw_polygon, draw_rectangle};
use std::alloc::AllocError;
pub use texts::text_shown;
use texts::{
    draw_input_boolean, draw_input_list, draw_input_number, draw_input_string, draw_output_number,
    draw_output_string,
};
use vt_objects::{Button, Key, Object, ObjectId, Store};

/// Appends the shapes of an object, by its ID, without those of other elements in it. Lines, areas, meters and bars are in tenths of a
/// pixel, and all others in pixels.
///
/// # Errors
/// `AllocError` when an allocation is refused; some of the shapes may then be appended.
pub fn draw_shapes<S: Store>(
    text: &mut Vec<u8>,
    store: &S,
    sizes: Sizes,
    id: ObjectId,
    object: &Object<Vec<u8>>,
) -> Result<(), AllocError>
    ensures { OnOk result (text.new.items ≡ text.old.items ++ text_of (shapes sizes (S.contents store.now) id (seen object.now))) }
{
    match object {
        Object::Key(o) => draw_key(text, sizes, o),
        Object::Button(o) => draw_button(text, o),
        Object::InputBoolean(o) => draw_input_boolean(text, store, o),
        Object::InputString(o) => draw_input_string(text, store, o),
        Object::InputNumber(o) => draw_input_number(text, store, o),
        Object::InputList(o) => draw_input_list(text, o),
        Object::OutputString(o) => draw_output_string(text, store, o),
        Object::OutputNumber(o) => draw_output_number(text, store, o),
        Object::Line(o) => draw_line(text, store, o),
        Object::Rectangle(o) => draw_rectangle(text, store, o),
        Object::Ellipse(o) => draw_ellipse(text, store, o),
        Object::Polygon(o) => draw_polygon(text, store, o),
        Object::Meter(o) => draw_meter(text, store, o),
        Object::LinearBar(o) => draw_linear_bar(text, store, o),
        Object::ArchedBar(o) => draw_arched_bar(text, store, o),
        Object::Picture(_) => show_picture(text, id),
        Object::WorkingSet(_)
        | Object::DataMask(_)
        | Object::AlarmMask(_)
        | Object::Container(_)
        | Object::SoftKeyMask(_)
        | Object::NumberVariable(_)
        | Object::StringVariable(_)
        | Object::Font(_)
        | Object::LineAttributes(_)
        | Object::FillAttributes(_)
        | Object::InputAttributes(_)
        | Object::ObjectPointer(_)
        | Object::Macro(_) => Ok(()),
    }
}

fn draw_key(text: &mut Vec<u8>, sizes: Sizes, key: &Key) -> Result<(), AllocError>
    ensures { OnOk result (text.new.items ≡ text.old.items ++ text_of (key_shapes sizes key.now)) }
{
    empty(
        text,
        Element::Rect,
        &[
            Attribute::Width(u32::from(sizes.key.width)),
            Attribute::Height(u32::from(sizes.key.height)),
            Attribute::Fill(Paint::Colour(key.colour)),
            Attribute::Stroke(Paint::Colour(GREY)),
        ],
    )
}

fn draw_button(text: &mut Vec<u8>, button: &Button) -> Result<(), AllocError>
    ensures { OnOk result (text.new.items ≡ text.old.items ++ text_of (button_shapes button.now)) }
{
    empty(
        text,
        Element::Rect,
        &[
            Attribute::Width(u32::from(button.width)),
            Attribute::Height(u32::from(button.height)),
            Attribute::Fill(Paint::Colour(button.colour)),
            Attribute::Stroke(Paint::Colour(button.border)),
            Attribute::StrokeWidth(4),
        ],
    )
}

/// Shows a picture that is written elsewhere.
fn show_picture(text: &mut Vec<u8>, id: ObjectId) -> Result<(), AllocError>
    ensures { OnOk result (text.new.items ≡ text.old.items ++ text_of (picture_shown id)) }
{
    empty(text, Element::Use, &[Attribute::PictureShown(id.raw())])
}

/// The number of the colour grey.
const GREY: u8 = 8;
