//! Arcs of ellipses, in steps of 2 degrees.

ghost use Rattle.std.specs.Prelude.{◌≡◌, ◌≤◌, ◌<◌, ◌+◌, ◌*◌, ◌/◌, ◌%◌, ◌++◌, map, OnOk};
ghost use Rattle.std.specs.List.{flat_map};
ghost use Rattle.draw_svg.specs.Elements.{point_text};
ghost use Rattle.draw_shapes.specs.Arcs.{angles, arc, arc_back, in_quarter, IsOval, projected, point_on, sine, sweep};

use draw_svg::{SvgPoint, push_point};
use std::alloc::AllocError;

/// An ellipse: its centre, and half its width and its height, in tenths of a pixel.
#[derive(Clone, Copy, PartialEq, Eq)]
pub(crate) struct Oval {
    pub(crate) x: u32,
    pub(crate) y: u32,
    pub(crate) radius_x: u32,
    pub(crate) radius_y: u32,
}

/// The steps in a circle.
pub(crate) const STEPS: u8 = 180;

/// The steps in a quarter of a circle.
const QUARTER: u8 = 45;

/// The sines of the steps in a quarter, times 10,000.
const SINES: [u16; 46] = [
    0, 349, 698, 1045, 1392, 1736, 2079, 2419, 2756, 3090, 3420, 3746, 4067, 4384, 4695, 5000,
    5299, 5592, 5878, 6157, 6428, 6691, 6947, 7193, 7431, 7660, 7880, 8090, 8290, 8480, 8660, 8829,
    8988, 9135, 9272, 9397, 9511, 9613, 9703, 9781, 9848, 9903, 9945, 9976, 9994, 10000,
];

/// The steps from one angle to another, counterclockwise. A whole circle from an angle to itself.
pub(crate) fn sweep(start: u8, end: u8) -> u8
    ensures is { result ≡ sweep start end }
    ensures most { result ≤ 180 }
{
    let steps = (u16::from(end % STEPS) + 180 - u16::from(start % STEPS)) % 180;
    if steps == 0 { STEPS } else { steps as u8 }
}

/// Appends the points of an arc, from an angle counterclockwise: one for each step, and one more at the end.
pub(crate) fn push_arc(
    text: &mut Vec<u8>,
    oval: Oval,
    start: u8,
    steps: u8,
) -> Result<(), AllocError>
    requires { IsOval oval }
    ensures { OnOk result (text.new.items ≡ text.old.items ++ flat_map point_text (arc oval start steps)) }
{
    push_turned(text, oval, 1, start, steps)
}

/// Appends the points of an arc, from an angle clockwise: one for each step, and one more at the end.
pub(crate) fn push_arc_back(
    text: &mut Vec<u8>,
    oval: Oval,
    end: u8,
    steps: u8,
) -> Result<(), AllocError>
    requires { IsOval oval }
    ensures { OnOk result (text.new.items ≡ text.old.items ++ flat_map point_text (arc_back oval end steps)) }
{
    push_turned(text, oval, STEPS - 1, end, steps)
}

/// Appends points from an angle on, each the same turn from the one before: one for each step, and one more.
fn push_turned(
    text: &mut Vec<u8>,
    oval: Oval,
    turn: u8,
    start: u8,
    steps: u8,
) -> Result<(), AllocError>
    requires oval { IsOval oval }
    requires turn { turn < 180 }
    ensures { OnOk result (text.new.items ≡ text.old.items ++ flat_map point_text (map (point_on oval) (angles turn (start % 180) steps))) }
{
    let mut step = start % STEPS;
    let mut left = steps;
    while left > 0 {
        push_point(text, point_on(oval, step))?;
        step = turned_by(turn, step);
        left -= 1;
    }
    push_point(text, point_on(oval, step))
}

/// An angle, turned by some steps.
fn turned_by(turn: u8, step: u8) -> u8
    requires turn { turn < 180 }
    requires step { step < 180 }
    ensures is { result ≡ (step + turn) % 180 }
    ensures angle { result < 180 }
{
    ((u16::from(step) + u16::from(turn)) % u16::from(STEPS)) as u8
}

/// The point of an ellipse at an angle, counterclockwise from the right.
#[tactic(auto, unfolding(crate::specs::Arcs::point_on))]
pub(crate) fn point_on(oval: Oval, step: u8) -> SvgPoint
    requires { IsOval oval }
    ensures { result ≡ point_on oval step }
{
    let rise = sine(step % QUARTER);
    let fall = sine(QUARTER - step % QUARTER);
    let (right, down) = (oval.x, oval.y);
    match step / QUARTER {
        0 => SvgPoint {
            x: right + projected(oval.radius_x, fall),
            y: down.saturating_sub(projected(oval.radius_y, rise)),
        },
        1 => SvgPoint {
            x: right.saturating_sub(projected(oval.radius_x, rise)),
            y: down.saturating_sub(projected(oval.radius_y, fall)),
        },
        2 => SvgPoint {
            x: right.saturating_sub(projected(oval.radius_x, fall)),
            y: down + projected(oval.radius_y, rise),
        },
        _ => SvgPoint {
            x: right + projected(oval.radius_x, rise),
            y: down + projected(oval.radius_y, fall),
        },
    }
}

/// The sine of a step in a quarter, times 10,000.
fn sine(step: u8) -> u16
    requires { step ≤ 45 }
    ensures is { result ≡ sine step }
    ensures most { result ≤ 10000 }
{
    SINES[usize::from(step)]
}

/// A length times a sine.
fn projected(length: u32, sine: u16) -> u32
    requires length { length ≤ 400000 }
    requires sine { sine ≤ 10000 }
    ensures is { result ≡ projected length sine }
    ensures most { result ≤ length }
{
    length * u32::from(sine) / 10_000
}
