//! The subcommand `draw` of `segyolant`: masks of a pool, or of what a terminal shows at the end of a log, as pictures, and a page of
//! them.
//!
//! - `run_draw` draws the masks that the options name to the standard output, into a file, or into a folder with a page, `index.html`.
//!   docs/POOLS.md, "Pictures of masks", has the options and the messages.
//! - `pool_left` replays a log to a new terminal, and returns the objects of the working set that is shown at its end as the bytes of
//!   a pool, or a `StateFault`. A `GivenSet` is a working set that the terminal has before the first line.
//! - `masks_of` lists the Data Masks and Alarm Masks of a pool.
//!
//! How a mask looks is in draw_picture. Come here to ask which masks `segyolant draw` draws, and into which files.
#![tactic(auto)]

mod bytes;
mod fault;
mod html;
mod masks;
mod origin;
mod page;
mod program;
mod refusal;
mod state;

pub use fault::StateFault;
pub use masks::masks_of;
pub use program::{Outcome, run_draw};
pub use state::{GivenSet, pool_left};
