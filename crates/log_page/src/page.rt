//! The parts of the page that are the same for each log. Written by scripts/page.py from the files of page/.

pub(crate) mod body;
mod cursor;
mod data;
pub(crate) mod head;
mod main;
mod marks;
mod numbers;
mod screen;
pub(crate) mod style;
mod tables;
mod timeline;
mod trace;

/// The parts of the script, in their order.
pub(crate) const SCRIPTS: &[&str] = &[
    data::TEXT,
    marks::TEXT,
    cursor::TEXT,
    timeline::TEXT,
    screen::TEXT,
    trace::TEXT,
    tables::TEXT,
    numbers::TEXT,
    main::TEXT,
];
