//! The lines of a comparison that are about no single difference: stored pools, what was left out, and the counts.

use crate::counts::DifferenceCounts;
use crate::left_out::LeftOut;
use crate::told::Telling;
use log_answers::Tally;
use log_options::Format;
use log_replay::Load;
use std::io::{self, Write};
use vt_cli::{Cell, JsonLine, put_line};
use vt_frames_text::PoolRequest;

impl Telling<'_> {
    /// Writes the line of a node that requests to load a stored pool, which is not in the log.
    pub(crate) fn put_load<W: Write>(&self, load: Load, out: &mut W) -> io::Result<()> {
        let Load {
            line,
            source,
            label,
        } = load;
        let request = PoolRequest::Load(&label);
        if self.format == Format::Text {
            return writeln!(
                out,
                "line {line}: {source:02X} {request}; if the recorded terminal had it, it is not in this log: give it by --pool FILE@{source:02X}"
            );
        }
        let mut object = JsonLine::new(self.alloc);
        object.put_all(&[
            ("kind", Cell::Text("load")),
            ("line", Cell::Number(line)),
            ("source", Cell::Hex(source)),
        ])?;
        object.put_bytes_if("label", request.label())?;
        object.put_text("request", request)?;
        object.write(out)
    }

    /// Writes how many messages of a function were left out, and why.
    pub(crate) fn put_left_out<W: Write>(
        &self,
        function: u8,
        row: LeftOut,
        count: u64,
        out: &mut W,
    ) -> io::Result<()> {
        let LeftOut { name, why, .. } = row;
        if self.format == Format::Text {
            return writeln!(out, "left out: {count} of {name}: {why}");
        }
        let members = [
            ("count", Cell::Number(count)),
            ("function", Cell::Hex(function)),
            ("kind", Cell::Text("left out")),
            ("name", Cell::Text(name)),
            ("why", Cell::Text(why)),
        ];
        put_line(self.alloc, &members, out)
    }

    /// Writes the counts, which are the last line. Whether the options select differences decides if those that are ignored are named.
    pub(crate) fn put_tally<W: Write>(
        &self,
        counts: &DifferenceCounts,
        is_selected: bool,
        tally: Tally,
        out: &mut W,
    ) -> io::Result<()> {
        let DifferenceCounts {
            differ,
            ours_alone,
            theirs_alone,
            ignored,
            ..
        } = *counts;
        let Tally {
            same,
            not_compared,
            ..
        } = tally;
        if self.format == Format::Text {
            let plural = if not_compared == 1 { "" } else { "s" };
            write!(
                out,
                "answers: {same} same, {differ} differ, {ours_alone} ours alone, {theirs_alone} theirs alone; not compared: {not_compared} frame{plural}"
            )?;
            return if is_selected {
                writeln!(out, "; ignored: {ignored}")
            } else {
                writeln!(out)
            };
        }
        let members = [
            ("differ", Cell::Number(differ)),
            ("ignored", Cell::Number(ignored)),
            ("kind", Cell::Text("answers")),
            ("not_compared", Cell::Number(not_compared)),
            ("ours_alone", Cell::Number(ours_alone)),
            ("same", Cell::Number(same)),
            ("theirs_alone", Cell::Number(theirs_alone)),
        ];
        put_line(self.alloc, &members, out)
    }
}
