//! The parts of the page that are the same for each pool. Written by scripts/page.py from the files of page/.

pub(crate) mod body;
mod choice;
mod data;
mod findings;
mod frames;
pub(crate) mod head;
mod inspector;
mod main;
mod masks;
mod numbers;
mod objects;
pub(crate) mod style;
mod tiles;

/// The parts of the script, in their order.
pub(crate) const SCRIPTS: &[&str] = &[
    data::TEXT,
    choice::TEXT,
    masks::TEXT,
    frames::TEXT,
    tiles::TEXT,
    findings::TEXT,
    objects::TEXT,
    inspector::TEXT,
    numbers::TEXT,
    main::TEXT,
];
