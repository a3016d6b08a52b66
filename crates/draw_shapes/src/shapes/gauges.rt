//! Meters, linear bars and arched bars.

mod arched_bar;
mod axis;
mod linear_bar;
mod meter;
mod values;

pub(crate) use arched_bar::draw_arched_bar;
pub(crate) use linear_bar::draw_linear_bar;
pub(crate) use meter::draw_meter;
