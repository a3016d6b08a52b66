//! The element at a place of a picture.

ghost use Rattle.std.specs.Prelude.{◌≡◌};
ghost use Rattle.draw_picture.specs.Listings as listings;

use crate::listing::{Bounds, ListedElement};
use vt_objects::ObjectId;

/// The key, button or input that is shown at a place of a picture. If there are several, it is the one that is drawn last.
pub fn touched(elements: &[ListedElement], x: i32, y: i32) -> Option<ObjectId>
    ensures { result ≡ listings.touched x y elements.now }
{
    let mut found = None;
    for element in elements {
        if is_operated(element.kind) && lies_in(x, y, element.bounds) {
            found = Some(element.id);
        }
    }
    found
}

/// Whether a kind is that of a key, a button or an input.
fn is_operated(kind: u8) -> bool
    ensures { result ≡ listings.is_operated kind }
{
    5 <= kind && kind <= 10
}

fn lies_in(x: i32, y: i32, bounds: Bounds) -> bool
    ensures { result ≡ listings.lies_in x y bounds }
{
    is_within(bounds.left, x, bounds.right) && is_within(bounds.top, y, bounds.bottom)
}

/// Whether a number is in a span, before its end.
fn is_within(from: i32, number: i32, end: i32) -> bool
    ensures { result ≡ listings.is_within from number end }
{
    if number < from {
        return false;
    }
    number < end
}
