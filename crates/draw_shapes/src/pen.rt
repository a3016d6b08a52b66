//! The lines and the insides of shapes.

ghost use Rattle.std.specs.Prelude.{◌≡◌};
ghost use Rattle.std.specs.FinMap as finite;
ghost use Rattle.draw_shapes.specs.Pens.{fill_of, pattern_of, pen_of};

use draw_svg::Paint;
use vt_objects::{Object, ObjectId, Store};

/// What lines are drawn with.
#[derive(Clone, Copy, PartialEq, Eq)]
pub(crate) struct Pen {
    /// The colour, or nothing.
    pub(crate) paint: Paint,
    /// The width in pixels.
    pub(crate) width: u8,
    /// The line art.
    pub(crate) art: u16,
}

/// A pen that draws nothing.
pub(crate) const NO_PEN: Pen = Pen {
    paint: Paint::None,
    width: 0,
    art: 0xFFFF,
};

/// The pen of line attributes. It draws nothing without them.
pub(crate) fn pen_of<S: Store>(store: &S, attributes: ObjectId) -> Pen
    ensures { result ≡ pen_of (finite.get (S.contents store.now) attributes) }
{
    let Some(Object::LineAttributes(o)) = store.get(attributes) else {
        return NO_PEN;
    };
    Pen {
        paint: Paint::Colour(o.colour),
        width: o.width,
        art: o.line_art,
    }
}

/// The inside of a shape that is drawn with a pen. Empty without fill attributes.
pub(crate) fn fill_of<S: Store>(store: &S, attributes: ObjectId, pen: Pen) -> Paint
    ensures { result ≡ fill_of (S.contents store.now) (finite.get (S.contents store.now) attributes) pen }
{
    let Some(Object::FillAttributes(o)) = store.get(attributes) else {
        return Paint::None;
    };
    match o.fill_type {
        0 => Paint::None,
        1 => pen.paint,
        3 => pattern_of(store, o.pattern),
        _ => Paint::Colour(o.colour),
    }
}

/// A Picture as a pattern. Nothing for another object.
fn pattern_of<S: Store>(store: &S, id: ObjectId) -> Paint
    ensures { result ≡ pattern_of id (finite.get (S.contents store.now) id) }
{
    if let Some(Object::Picture(_)) = store.get(id) {
        Paint::Pattern(id.raw())
    } else {
        Paint::None
    }
}
