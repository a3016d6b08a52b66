//! The lines of a report on the pools of a log, for people or as JSON.

use crate::verdict::Verdict;
use crate::{ImplementMessage, Upload};
use check_json::item_json;
use check_text::{CheckedPool, Item};
use log_listen::Broken;
use log_options::Format;
use serde_json::Value;
use std::alloc::Global;
use std::fmt;
use std::io::{self, Write};
use vt_cli::{Cell, JsonLine, put_line};
use vt_frames_text::PoolRequest;

/// Where an upload has ended, and whether it was an update.
#[derive(Clone, Copy)]
pub(crate) struct UploadPlace {
    /// The line of its end.
    pub(crate) line: u64,
    pub(crate) is_update: bool,
}

impl UploadPlace {
    /// What was uploaded, in a word.
    fn kind(self) -> &'static str {
        if self.is_update { "update" } else { "pool" }
    }
}

/// The number of pieces of an upload in words.
#[derive(Clone, Copy)]
struct Pieces(u64);

impl fmt::Display for Pieces {
    fn fmt<W: fmt::Write>(&self, f: &mut fmt::Formatter<W>) -> fmt::Result {
        match self.0 {
            1 => write!(f, "1 piece"),
            pieces => write!(f, "{pieces} pieces"),
        }
    }
}

/// Writes the line of an upload, with the file of its pool if it is written.
pub(crate) fn put_upload<W: Write>(
    alloc: Global,
    end: UploadPlace,
    upload: &Upload,
    verdict: &Verdict,
    path: Option<&str>,
    format: Format,
    out: &mut W,
) -> io::Result<()> {
    match format {
        Format::Text => put_upload_text(end, upload, verdict, path, out),
        Format::Json => put_upload_fields(alloc, end, upload, verdict, path, out),
    }
}

fn put_upload_text<W: Write>(
    end: UploadPlace,
    upload: &Upload,
    verdict: &Verdict,
    path: Option<&str>,
    out: &mut W,
) -> io::Result<()> {
    let UploadPlace { line, .. } = end;
    let kind = end.kind();
    let Upload {
        first_line,
        source,
        destination,
        pieces,
        bytes,
        ..
    } = upload;
    let size = bytes.len();
    let pieces = Pieces(*pieces);
    write!(
        out,
        "lines {first_line} to {line}: {kind} of {source:02X} to {destination:02X}, {size} bytes in {pieces}: {verdict}"
    )?;
    match path {
        Some(path) => writeln!(out, " -> {path}"),
        None => writeln!(out),
    }
}

fn put_upload_fields<W: Write>(
    alloc: Global,
    end: UploadPlace,
    upload: &Upload,
    verdict: &Verdict,
    path: Option<&str>,
    out: &mut W,
) -> io::Result<()> {
    let is_accepted = matches!(verdict, Verdict::Accepted(_));
    let mut object = JsonLine::new(alloc);
    object.put_all(&[
        ("bytes", Cell::Number(upload.bytes.len() as u64)),
        ("destination", Cell::Hex(upload.destination)),
        ("file", Cell::text_if(path)),
        ("first_line", Cell::Number(upload.first_line)),
        ("kind", Cell::Text(end.kind())),
        ("last_line", Cell::Number(end.line)),
        ("pieces", Cell::Number(upload.pieces)),
        ("source", Cell::Hex(upload.source)),
    ])?;
    object.put("is_accepted", Value::Bool(is_accepted))?;
    object.put_text("verdict", verdict)?;
    object.write(out)
}

/// Writes the line of a fault of a pool.
pub(crate) fn put_finding<W: Write>(
    alloc: Global,
    source: &CheckedPool<'_>,
    item: Item<'_>,
    format: Format,
    out: &mut W,
) -> io::Result<()> {
    let message = source.message(alloc, item)?;
    match format {
        Format::Text => writeln!(out, "  {message}"),
        Format::Json => writeln!(out, "{}", item_json(alloc, source, &message, item)?),
    }
}

/// Writes the line of a transfer that is not whole: one that ended at a line, or one that is open at the end of the log.
pub(crate) fn put_broken<W: Write>(
    alloc: Global,
    line: Option<u64>,
    broken: Broken,
    format: Format,
    out: &mut W,
) -> io::Result<()> {
    match format {
        Format::Text => put_broken_text(line, broken, out),
        Format::Json => put_broken_fields(alloc, line, broken, out),
    }
}

fn put_broken_text<W: Write>(line: Option<u64>, broken: Broken, out: &mut W) -> io::Result<()> {
    let Broken {
        source,
        destination,
        pgn,
        size,
        missing,
    } = broken;
    match line {
        Some(line) => write!(
            out,
            "line {line}: transfer of {source:02X} to {destination:02X} broken off"
        )?,
        None => write!(
            out,
            "at the end: transfer of {source:02X} to {destination:02X} not whole"
        )?,
    }
    writeln!(
        out,
        ": {size} bytes of parameter group {pgn:04X}, packet {missing} is missing"
    )
}

fn put_broken_fields<W: Write>(
    alloc: Global,
    line: Option<u64>,
    broken: Broken,
    out: &mut W,
) -> io::Result<()> {
    let kind = if line.is_some() {
        "broken"
    } else {
        "not whole"
    };
    let mut object = JsonLine::new(alloc);
    object.put_all(&[
        ("bytes", Cell::Number(u64::from(broken.size))),
        ("destination", Cell::Hex(broken.destination)),
        ("kind", Cell::Text(kind)),
        ("last_line", Cell::number_if(line)),
        ("missing", Cell::Number(u64::from(broken.missing))),
        ("source", Cell::Hex(broken.source)),
    ])?;
    object.put_text("group", format_args!("{:04X}", broken.pgn))?;
    object.write(out)
}

/// Writes the line of a request about pools.
pub(crate) fn put_request<W: Write>(
    alloc: Global,
    message: ImplementMessage<'_>,
    request: PoolRequest<'_>,
    format: Format,
    out: &mut W,
) -> io::Result<()> {
    let ImplementMessage {
        line,
        source,
        destination,
        ..
    } = message;
    if format == Format::Text {
        return writeln!(
            out,
            "line {line}: {source:02X} {request} at {destination:02X}"
        );
    }
    let mut object = JsonLine::new(alloc);
    object.put_all(&[
        ("destination", Cell::Hex(destination)),
        ("kind", Cell::Text("request")),
        ("last_line", Cell::Number(line)),
        ("source", Cell::Hex(source)),
    ])?;
    object.put_bytes_if("label", request.label())?;
    object.put_text("request", request)?;
    object.write(out)
}

/// Writes the line of an upload that is not ended, with the file of its bytes if it is written.
pub(crate) fn put_unended<W: Write>(
    alloc: Global,
    upload: &Upload,
    path: Option<&str>,
    format: Format,
    out: &mut W,
) -> io::Result<()> {
    let Upload {
        first_line,
        source,
        destination,
        pieces,
        ..
    } = upload;
    let size = upload.bytes.len();
    if format == Format::Text {
        write!(
            out,
            "line {first_line} on: pool of {source:02X} to {destination:02X}, {size} bytes in {}: its end is not in the log",
            Pieces(*pieces)
        )?;
        return match path {
            Some(path) => writeln!(out, " -> {path}"),
            None => writeln!(out),
        };
    }
    let members = [
        ("bytes", Cell::Number(size as u64)),
        ("destination", Cell::Hex(*destination)),
        ("file", Cell::text_if(path)),
        ("first_line", Cell::Number(*first_line)),
        ("kind", Cell::Text("unended")),
        ("pieces", Cell::Number(*pieces)),
        ("source", Cell::Hex(*source)),
    ];
    put_line(alloc, &members, out)
}
