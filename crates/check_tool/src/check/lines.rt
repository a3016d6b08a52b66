//! The lines of `check`, in the form of its output.

use crate::check::base::Base;
use crate::check::sarif::put_result;
use check_json::{item_json, summary_json, totals_json};
use check_options::Format;
use check_text::{
    CheckedPool, GithubLine, Item, MessageStyle, Severity, Summary, Totals, put_message,
};
use std::alloc::Global;
use std::io::{self, Write};

/// The form of the lines. The results of SARIF have no counts.
#[derive(Clone, Copy, PartialEq, Eq)]
pub(crate) enum Lines {
    Text(MessageStyle),
    Json,
    Github,
    Sarif,
}

impl Lines {
    /// The form of the lines: those for people have the style of the output, and those in a report of JUnit no colours.
    pub(crate) fn new(format: Format, style: MessageStyle) -> Lines {
        match format {
            Format::Text => Lines::Text(style),
            Format::Json => Lines::Json,
            Format::Github => Lines::Github,
            Format::Sarif => Lines::Sarif,
            Format::Junit => Lines::Text(MessageStyle::Plain),
        }
    }

    /// Prints an item with a severity, in the file that has its byte.
    pub(crate) fn put_item<'a, W: Write>(
        self,
        alloc: Global,
        source: &CheckedPool<'a>,
        base: &Base<'a>,
        item: Item<'_>,
        severity: Severity,
        out: &mut W,
    ) -> io::Result<()> {
        let mut message = source.message(alloc, item)?;
        message.severity = severity;
        base.place(item, &mut message);
        match self {
            Lines::Text(style) => put_message(&message, style, out),
            Lines::Json => {
                let line = item_json(alloc, source, &message, item)?;
                writeln!(out, "{line}")
            }
            Lines::Github => writeln!(out, "{}", GithubLine { message: &message }),
            Lines::Sarif => put_result(alloc, &message, out),
        }
    }

    /// Prints the counts of a pool, of whose findings so many more are known.
    pub(crate) fn put_summary<W: Write>(
        self,
        alloc: Global,
        summary: Summary<'_>,
        known: usize,
        out: &mut W,
    ) -> io::Result<()> {
        match self {
            Lines::Json => {
                let line = summary_json(alloc, summary)?;
                writeln!(out, "{line}")
            }
            Lines::Text(_) | Lines::Github if known > 0 => {
                writeln!(out, "{summary}; {known} known")
            }
            Lines::Text(_) | Lines::Github => writeln!(out, "{summary}"),
            Lines::Sarif => Ok(()),
        }
    }

    /// Prints the counts of several pools.
    pub(crate) fn put_totals<W: Write>(
        self,
        alloc: Global,
        totals: Totals,
        out: &mut W,
    ) -> io::Result<()> {
        match self {
            Lines::Json => {
                let line = totals_json(alloc, totals)?;
                writeln!(out, "{line}")
            }
            Lines::Text(_) | Lines::Github => writeln!(out, "{totals}"),
            Lines::Sarif => Ok(()),
        }
    }
}
