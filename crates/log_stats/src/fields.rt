//! The numbers of a log as lines of JSON.

use check_text::Names;
use log_reach::{PoolObject, SetReach};
use log_traffic::{LongTransfer, Share, TrafficReport, Transfers};
use serde_json::Value;
use std::alloc::{AllocError, Global};
use std::io::{self, Write};
use vt_cli::{Cell, JsonLine, put_line};

/// How the numbers of a log are written as lines of JSON.
#[derive(Clone, Copy, Drop)]
pub(crate) struct Fields<'a> {
    pub(crate) alloc: Global,
    pub(crate) names: &'a Names,
}

impl Fields<'_> {
    /// Writes a line for the log, one for each source, and one for the transfers.
    pub(crate) fn put_report<W: Write>(
        &self,
        report: &TrafficReport,
        out: &mut W,
    ) -> io::Result<()> {
        self.put_log(report, out)?;
        for share in report.shares.iter() {
            self.put_share(share, out)?;
        }
        self.put_transfers(report.transfers, out)
    }

    fn put_log<W: Write>(&self, report: &TrafficReport, out: &mut W) -> io::Result<()> {
        let members = [
            ("bytes", Cell::Number(report.total.bytes)),
            ("first_line", Cell::Number(report.first_line)),
            ("first_time", Cell::Number(report.first_time)),
            ("frames", Cell::Number(report.total.frames)),
            ("kind", Cell::Text("log")),
            ("last_line", Cell::Number(report.last_line)),
            ("last_time", Cell::Number(report.last_time)),
            ("load", Cell::number_if(report.load)),
            ("seen_twice", Cell::Number(report.seen_twice)),
        ];
        put_line(self.alloc, &members, out)
    }

    fn put_share<W: Write>(&self, share: &Share, out: &mut W) -> io::Result<()> {
        let members = [
            ("bytes", Cell::Number(share.counts.bytes)),
            ("frames", Cell::Number(share.counts.frames)),
            ("kind", Cell::Text("source")),
            ("load", Cell::number_if(share.load)),
            ("source", Cell::Hex(share.source)),
        ];
        put_line(self.alloc, &members, out)
    }

    fn put_transfers<W: Write>(&self, transfers: Transfers, out: &mut W) -> io::Result<()> {
        let Transfers {
            whole,
            broken,
            unended,
            repeated_packets,
            longest,
        } = transfers;
        let longest = match longest {
            Some(longest) => self.longest_value(longest)?,
            None => Value::Null,
        };
        let mut line = JsonLine::new(self.alloc);
        line.put("longest", longest)?;
        line.put_all(&[
            ("broken", Cell::Number(broken)),
            ("kind", Cell::Text("transfers")),
            ("repeated_packets", Cell::Number(repeated_packets)),
            ("unended", Cell::Number(unended)),
            ("whole", Cell::Number(whole)),
        ])?;
        line.write(out)
    }

    fn longest_value(&self, longest: LongTransfer) -> Result<Value, AllocError> {
        let mut object = JsonLine::new(self.alloc);
        object.put_all(&[
            ("bytes", Cell::Number(longest.bytes)),
            ("destination", Cell::Hex(longest.destination)),
            ("line", Cell::Number(longest.line)),
            ("source", Cell::Hex(longest.source)),
            ("time", Cell::Number(longest.time)),
        ])?;
        Ok(object.into_value())
    }

    /// Writes the line of a working set.
    pub(crate) fn put_set<W: Write>(&self, set: &SetReach, out: &mut W) -> io::Result<()> {
        let mut line = JsonLine::new(self.alloc);
        line.put_all(&[
            ("done", Cell::Number(set.done)),
            ("kind", Cell::Text("set")),
            ("refused", Cell::Number(set.refused)),
            ("source", Cell::Hex(set.address)),
        ])?;
        self.put_objects("macros_never", set.macros_never.as_slice(), &mut line)?;
        self.put_objects("macros_reached", set.macros_reached.as_slice(), &mut line)?;
        self.put_objects("masks_never", set.masks_never.as_slice(), &mut line)?;
        self.put_objects("masks_shown", set.masks_shown.as_slice(), &mut line)?;
        self.put_objects("objects_drawn", set.objects_drawn.as_slice(), &mut line)?;
        self.put_objects("objects_never", set.objects_never.as_slice(), &mut line)?;
        line.write(out)
    }

    /// Adds a member with a list of objects to a line.
    fn put_objects(
        &self,
        name: &str,
        objects: &[PoolObject],
        line: &mut JsonLine,
    ) -> Result<(), AllocError> {
        let mut values = Vec::new(self.alloc);
        for object in objects {
            values.push(self.object_value(*object)?)?;
        }
        line.put(name, Value::Array(values))
    }

    /// An object by its ID, its kind, and its name, which is null if no file of names has one.
    fn object_value(&self, object: PoolObject) -> Result<Value, AllocError> {
        let mut value = JsonLine::new(self.alloc);
        value.put_number("id", u64::from(object.id.raw()))?;
        value.put_text("kind", object.kind)?;
        value.put_text_if("name", self.names.get(object.id))?;
        Ok(value.into_value())
    }
}
