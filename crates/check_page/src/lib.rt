//! The subcommand `report` of `segyolant`: one page for a browser, with all that the checker says of an object pool.
//!
//! `run_report` runs it with its options, and returns the `Status` with which the program ends. docs/POOLS.md, "A page for a browser", has
//! the subcommand.
//!
//! The page has a head with its style, its body, blocks of data, and a script. The style and the script are constants. A block of data has
//! lines of JSON: the findings, costs and needs are the lines that `check`, `why` and `needs` print, and masks, keys and objects have lines of
//! this crate. Pictures are drawn by draw_picture, and page_blocks has the theorem that no text of a pool begins a tag in the data.
//!
//! What is found in a pool is decided in the crates below. Come here to ask what the page holds, and how it looks.
#![tactic(auto)]

mod findings;
mod objects;
mod page;
mod pictures;
mod references;
mod report;
mod room;
mod rules;

pub use report::run_report;
