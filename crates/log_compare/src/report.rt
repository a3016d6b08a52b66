//! The report of a comparison: which differences it has, and what it counts.

use crate::causes::Causes;
use crate::counts::DifferenceCounts;
use crate::left_out::{LeftOut, is_left_out};
use crate::selection::Selection;
use crate::told::{Telling, first_of};
use log_answers::{Difference, Tally};
use std::alloc::Global;
use std::io::{self, Write};
use vt_cli::Status;
use vt_server::Terminal;

/// The report of a comparison in progress.
#[derive(Drop)]
pub(crate) struct Report<'a> {
    telling: Telling<'a>,
    selection: Selection<'a>,
    counts: DifferenceCounts,
    /// What is known of the causes of differences.
    pub(crate) causes: Causes,
    /// Whether a difference was reported.
    pub(crate) status: Status,
}

impl<'a> Report<'a> {
    /// A report before the first difference. Allocates nothing.
    pub(crate) fn new(alloc: Global, telling: Telling<'a>, selection: Selection<'a>) -> Report<'a> {
        Report {
            telling,
            selection,
            counts: DifferenceCounts::new(alloc),
            causes: Causes::new(alloc),
            status: Status::Clean,
        }
    }

    /// Writes the line of a difference, or only counts it: as left out if it is, and as ignored if the options do not select it.
    pub(crate) fn take<W: Write>(
        &mut self,
        difference: &Difference,
        terminal: &Terminal,
        out: &mut W,
    ) -> io::Result<()> {
        let first = first_of(difference);
        let cause = self.causes.cause_of(difference, terminal)?;
        let is_selected = self.selection.has(first);
        if is_left_out(difference) {
            if is_selected {
                self.counts.count_left_out(first.topic.function)?;
            }
            return Ok(());
        }
        if !is_selected {
            self.counts.count_ignored();
            return Ok(());
        }
        self.counts.count(difference);
        self.status = Status::Found;
        self.telling
            .put_difference(difference, terminal, cause, out)
    }

    /// How many differences there are, if the options select none of them. `None` if one was reported or left out, or if there is none.
    pub(crate) fn all_ignored(&self) -> Option<u64> {
        let DifferenceCounts {
            ignored,
            left_out,
            ..
        } = &self.counts;
        let has_none = self.status == Status::Clean && left_out.is_empty();
        (has_none && *ignored > 0).then_some(*ignored)
    }

    /// Writes what was left out, and then the counts: those of the differences are the report's own, and the others those of `tally`.
    pub(crate) fn end<W: Write>(&self, tally: Tally, out: &mut W) -> io::Result<()> {
        for (function, count) in self.counts.left_out.iter() {
            if let Some(row) = LeftOut::of(*function) {
                self.telling.put_left_out(*function, row, *count, out)?;
            }
        }
        let is_selected = self.selection.is_given();
        self.telling
            .put_tally(&self.counts, is_selected, tally, out)
    }
}
