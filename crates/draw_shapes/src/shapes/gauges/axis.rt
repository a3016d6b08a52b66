//! The axis of a linear bar, and what lies across it.

ghost use Rattle.std.specs.Prelude.{◌≡◌, ◌≤◌, ◌++◌, OnOk};
ghost use Rattle.draw_svg.specs.Elements.{text_of};
ghost use Rattle.draw_shapes.specs.Gauges.{across, along_axis, begins_at_zero, is_horizontal, length_of, part_between};

use crate::bits::has_bit;
use crate::shapes::gauges::values::draw_between;
use crate::shapes::lines::tenths;
use draw_svg::{Attribute, SvgPoint};
use std::alloc::AllocError;
use vt_objects::LinearBar;

/// The bit of the option that the bar is horizontal.
const HORIZONTAL: u8 = 4;

/// The bit of the option that the bar grows to the right or upwards.
const FORWARDS: u8 = 5;

/// Whether a bar is horizontal.
fn is_horizontal(bar: &LinearBar) -> bool
    ensures { result ≡ is_horizontal bar.now }
{
    has_bit(bar.options, HORIZONTAL)
}

/// Whether a bar begins at the left or upper edge: it grows to the right, or downwards.
fn begins_at_zero(bar: &LinearBar) -> bool
    ensures { result ≡ begins_at_zero bar.now }
{
    if is_horizontal(bar) {
        has_bit(bar.options, FORWARDS)
    } else {
        !has_bit(bar.options, FORWARDS)
    }
}

/// The length of a bar along its axis.
pub(crate) fn length_of(bar: &LinearBar) -> u32
    ensures is { result ≡ length_of bar.now }
    ensures most { result ≤ 655350 }
{
    if is_horizontal(bar) {
        tenths(bar.width)
    } else {
        tenths(bar.height)
    }
}

/// The distance from the left or upper edge, of a length from the end at which the bar begins.
fn along_axis(bar: &LinearBar, n: u32) -> u32
    ensures { result ≡ along_axis bar.now n }
{
    if begins_at_zero(bar) {
        n
    } else {
        length_of(bar).saturating_sub(n)
    }
}

/// Draws a line across a bar, from the left or upper edge, of at most some length.
pub(crate) fn draw_across(
    text: &mut Vec<u8>,
    bar: &LinearBar,
    attributes: &[Attribute],
    n: u32,
    most: u32,
) -> Result<(), AllocError>
    ensures { OnOk result (text.new.items ≡ text.old.items ++ text_of (across bar.now attributes.now n most)) }
{
    let place = along_axis(bar, n);
    if is_horizontal(bar) {
        let end = most.min(tenths(bar.height));
        draw_between(
            text,
            attributes,
            SvgPoint { x: place, y: 0 },
            SvgPoint { x: place, y: end },
        )
    } else {
        let end = most.min(tenths(bar.width));
        draw_between(
            text,
            attributes,
            SvgPoint { x: 0, y: place },
            SvgPoint { x: end, y: place },
        )
    }
}

/// The corners of the part of a bar between two lengths.
pub(crate) fn part_between(bar: &LinearBar, m: u32, n: u32) -> [SvgPoint; 4]
    ensures { result ≡ part_between bar.now m n }
{
    let (first, last) = (along_axis(bar, m), along_axis(bar, n));
    if is_horizontal(bar) {
        let end = tenths(bar.height);
        [
            SvgPoint { x: first, y: 0 },
            SvgPoint { x: last, y: 0 },
            SvgPoint { x: last, y: end },
            SvgPoint { x: first, y: end },
        ]
    } else {
        let end = tenths(bar.width);
        [
            SvgPoint { x: 0, y: first },
            SvgPoint { x: 0, y: last },
            SvgPoint { x: end, y: last },
            SvgPoint { x: end, y: first },
        ]
    }
}
