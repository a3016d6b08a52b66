//! Meters: a needle over an arc.

ghost use Rattle.std.specs.Prelude.{◌≡◌, ◌≤◌, ◌<◌, ◌++◌, OnOk};
ghost use Rattle.draw_svg.specs.Elements.{text_of, when};
ghost use Rattle.draw_shapes.specs.Arcs.{IsOval};
ghost use Rattle.draw_shapes.specs.Gauges.{dial, each_below, meter_arc, meter_border, meter_shapes, meter_tick, needle, share, shown, steps_of, turned};
ghost use Rattle.draw_shapes.specs.Bits.{has_bit};

use crate::bits::has_bit;
use crate::shapes::arcs::{Oval, point_on, sweep};
use crate::shapes::gauges::values::{
    draw_arc, draw_between, plain_line, share, shown, tick_at, turned,
};
use crate::shapes::lines::half_of;
use draw_svg::{Attribute, Element, Paint, SvgPoint, empty};
use std::alloc::AllocError;
use vt_objects::{Meter, Store};

/// The bit of the option that the arc is drawn.
const ARC: u8 = 0;

/// The bit of the option that the border is drawn.
const BORDER: u8 = 1;

/// The bit of the option that the ticks are drawn.
const TICKS: u8 = 2;

/// The bit of the option that the needle moves clockwise.
const CLOCKWISE: u8 = 3;

/// The radius of the arc, in tenths of that of the meter.
const ARC_RADIUS: u32 = 9;

/// The radius of the needle and of the inner ends of ticks, in tenths of that of the meter.
const NEEDLE_RADIUS: u32 = 8;

/// The width of the arc, the border and the ticks, in tenths of a pixel.
const WIDTH: u32 = 20;

/// The width of the needle, in tenths of a pixel.
const NEEDLE_WIDTH: u32 = 30;

/// Draws a meter.
pub(crate) fn draw_meter<S: Store>(
    text: &mut Vec<u8>,
    store: &S,
    meter: &Meter,
) -> Result<(), AllocError>
    ensures { OnOk result (text.new.items ≡ text.old.items ++ text_of (meter_shapes (S.contents store.now) meter.now)) }
{
    draw_arc_if_set(text, meter)?;
    draw_border_if_set(text, meter)?;
    draw_ticks_if_set(text, meter)?;
    draw_needle(text, store, meter)
}

/// A circle in a meter, by tenths of its radius.
fn dial(meter: &Meter, part: u32) -> Oval
    requires { part ≤ 10 }
    ensures is { result ≡ dial meter.now part }
    ensures oval { IsOval result }
{
    let centre = half_of(meter.width);
    let radius = u32::from(meter.width) * part / 2;
    Oval {
        x: centre,
        y: centre,
        radius_x: radius,
        radius_y: radius,
    }
}

/// The steps of the arc of a meter.
fn steps_of(meter: &Meter) -> u8
    ensures is { result ≡ steps_of meter.now }
    ensures most { result ≤ 180 }
{
    sweep(meter.start, meter.end)
}

/// The angle after some steps of the arc of a meter.
fn angle_at(meter: &Meter, n: u32) -> u8
    requires { n ≤ 180 }
    ensures { result ≡ turned (has_bit meter.now.options 3) meter.now.start (steps_of meter.now) n }
{
    turned(
        has_bit(meter.options, CLOCKWISE),
        meter.start,
        steps_of(meter),
        n,
    )
}

/// Draws the arc, if the options have it.
fn draw_arc_if_set(text: &mut Vec<u8>, meter: &Meter) -> Result<(), AllocError>
    ensures { OnOk result (text.new.items ≡ text.old.items ++ text_of (when (has_bit meter.now.options 0) (meter_arc meter.now))) }
{
    if !has_bit(meter.options, ARC) {
        return Ok(());
    }
    draw_arc(
        text,
        &plain_line(meter.arc_colour, WIDTH),
        dial(meter, ARC_RADIUS),
        meter.start,
        steps_of(meter),
    )
}

/// Draws the border, if the options have it.
fn draw_border_if_set(text: &mut Vec<u8>, meter: &Meter) -> Result<(), AllocError>
    ensures { OnOk result (text.new.items ≡ text.old.items ++ text_of (when (has_bit meter.now.options 1) (meter_border meter.now))) }
{
    if !has_bit(meter.options, BORDER) {
        return Ok(());
    }
    let radius = half_of(meter.width);
    empty(
        text,
        Element::Ellipse,
        &[
            Attribute::CentreX(radius),
            Attribute::CentreY(radius),
            Attribute::RadiusX(radius),
            Attribute::RadiusY(radius),
            Attribute::Fill(Paint::None),
            Attribute::Stroke(Paint::Colour(meter.border_colour)),
            Attribute::StrokeWidth(WIDTH),
        ],
    )
}

/// Draws the ticks, if the options have them.
fn draw_ticks_if_set(text: &mut Vec<u8>, meter: &Meter) -> Result<(), AllocError>
    ensures { OnOk result (text.new.items ≡ text.old.items ++ text_of (when (has_bit meter.now.options 2) (each_below (meter_tick meter.now) meter.now.ticks))) }
{
    if !has_bit(meter.options, TICKS) {
        return Ok(());
    }
    draw_ticks(text, meter)
}

/// Draws all ticks.
fn draw_ticks(text: &mut Vec<u8>, meter: &Meter) -> Result<(), AllocError>
    ensures { OnOk result (text.new.items ≡ text.old.items ++ text_of (each_below (meter_tick meter.now) meter.now.ticks)) }
{
    for i in 0..meter.ticks {
        draw_tick(text, meter, i)?;
    }
    Ok(())
}

/// Draws a tick, by its number.
fn draw_tick(text: &mut Vec<u8>, meter: &Meter, i: u8) -> Result<(), AllocError>
    requires { i < meter.now.ticks }
    ensures { OnOk result (text.new.items ≡ text.old.items ++ text_of (meter_tick meter.now i)) }
{
    let angle = angle_at(meter, tick_at(u32::from(steps_of(meter)), meter.ticks, i));
    draw_between(
        text,
        &plain_line(meter.arc_colour, WIDTH),
        point_on(dial(meter, NEEDLE_RADIUS), angle),
        point_on(dial(meter, ARC_RADIUS), angle),
    )
}

/// Draws the needle, from the centre to the value.
fn draw_needle<S: Store>(text: &mut Vec<u8>, store: &S, meter: &Meter) -> Result<(), AllocError>
    ensures { OnOk result (text.new.items ≡ text.old.items ++ text_of (needle (S.contents store.now) meter.now)) }
{
    let centre = half_of(meter.width);
    let angle = angle_at(meter, value_step(store, meter));
    draw_between(
        text,
        &plain_line(meter.needle_colour, NEEDLE_WIDTH),
        SvgPoint {
            x: centre,
            y: centre,
        },
        point_on(dial(meter, NEEDLE_RADIUS), angle),
    )
}

/// The step of the arc at the value of a meter.
fn value_step<S: Store>(store: &S, meter: &Meter) -> u32
    ensures is { result ≡ share (steps_of meter.now) meter.now.min meter.now.max (shown (S.contents store.now) meter.now.variable meter.now.value) }
    ensures most { result ≤ 180 }
{
    share(
        u32::from(steps_of(meter)),
        meter.min,
        meter.max,
        shown(store, meter.variable, meter.value),
    )
}
