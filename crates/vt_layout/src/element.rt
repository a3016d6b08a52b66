//! Elements and their positions.

ghost use Rattle.std.specs.Prelude.{◌≡◌, ◌≤◌, ◌+ℤ◌, nat_abs, ℕ, ◌+◌, ◌^◌};
ghost use Rattle.vt_layout.specs.Drawings.{shifted};
ghost use Rattle.vt_layout.specs.PageTexts.{IsNear};

use vt_objects::{Child, ObjectId};

/// A position in pixels, from the upper left corner of a mask or of a key.
#[derive(Clone, Copy, PartialEq, Eq)]
pub(crate) struct Position {
    pub(crate) x: i32,
    pub(crate) y: i32,
}

/// An element of the drawing: its index in its list, its ID and its position.
#[derive(Clone, Copy, PartialEq, Eq)]
pub(crate) struct Element {
    pub(crate) place: usize,
    pub(crate) id: ObjectId,
    pub(crate) at: Position,
}

impl Position {
    /// The position of an entry, if its list is at this position.
    pub(crate) fn shifted(&self, entry: &Child) -> Position
        requires { IsNear 1 self.now }
        ensures is { result ≡ shifted self.now entry.now }
        ensures near { (depth : ℕ) → IsNear (depth + 1) self.now → IsNear depth result }
    {
        Position {
            x: sum(self.x, entry.x),
            y: sum(self.y, entry.y),
        }
    }
}

fn sum(a: i32, b: i16) -> i32
    requires { nat_abs a + 32768 ≤ 2 ^ 24 }
    ensures is { result ≡ a +ℤ b }
    ensures near { nat_abs result ≤ nat_abs a + 32768 }
{
    a + i32::from(b)
}
