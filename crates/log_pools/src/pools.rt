//! The subcommand `pools`.

use crate::report::{UploadPlace, put_broken, put_finding, put_request, put_unended, put_upload};
use crate::sets::ImplementSets;
use crate::verdict::Verdict;
use crate::{ImplementMessage, Upload, Uploads};
use check_inspect::inspect;
use check_text::{CheckedPool, Item, Names};
use log_listen::{Broken, Listener};
use log_options::{Format, PoolsOptions};
use log_replay::{Log, Messages, Pass};
use std::alloc::{AllocError, Global};
use std::io::{self, Write};
use vt_can::assigned::ECU_TO_VT;
use vt_can::{Frame, Line, LineFault};
use vt_cli::{Open, Save, Status, make_folder, read_names, save_file, tell_replaced};
use vt_frames_text::PoolRequest;

/// Prints every upload of a log, and the verdict on it. The standard input is not held in memory: an upload is printed when its last line
/// has come.
pub fn run_pools<F: Open + Save, W: Write, E: Messages>(
    alloc: Global,
    options: &PoolsOptions<'_>,
    files: &mut F,
    out: &mut W,
    errors: &mut E,
) -> io::Result<Status> {
    let Some(names) = read_names(alloc, options.names.as_slice(), files, errors)? else {
        return Ok(Status::NotJudged);
    };
    let Some(log) = Log::follow(alloc, options.log, options.interface, files, errors)? else {
        return Ok(Status::NotJudged);
    };
    let folder = options.folder.map(|folder| folder.trim_end_matches('/'));
    if let Some(folder) = folder {
        if !make_folder(folder, files, errors)? {
            return Ok(Status::NotJudged);
        }
    }
    let report = Report {
        alloc,
        folder,
        names: &names,
        format: options.format,
    };
    put_pools(&log, report, files, out, errors)
}

/// Writes the report on every upload of a log as lines of JSON. Writes no file.
pub fn put_uploads<F: Open + Save, W: Write, E: Messages>(
    alloc: Global,
    log: &Log<'_>,
    names: &Names,
    files: &mut F,
    out: &mut W,
    errors: &mut E,
) -> io::Result<Status> {
    let report = Report {
        alloc,
        folder: None,
        names,
        format: Format::Json,
    };
    put_pools(log, report, files, out, errors)
}

/// Writes a report on every upload of a log.
fn put_pools<F: Open + Save, W: Write, E: Messages>(
    log: &Log<'_>,
    report: Report<'_>,
    files: &mut F,
    out: &mut W,
    errors: &mut E,
) -> io::Result<Status> {
    let alloc = report.alloc;
    let mut hearing = Hearing {
        report,
        listener: Listener::new(alloc),
        uploads: Uploads::new(alloc),
        broken: Vec::new(alloc),
        sets: ImplementSets::new(alloc),
        status: Status::Clean,
    };
    if !log.pass(&mut hearing, files, out, errors)? {
        return Ok(Status::NotJudged);
    }
    hearing.put_unended(files, out, errors)?;
    if let Some(folder) = report.folder {
        tell_replaced(folder, files, errors);
    }
    Ok(hearing.status)
}

/// What was received of uploads in a log.
#[derive(Drop)]
struct Hearing<'a> {
    report: Report<'a>,
    listener: Listener,
    uploads: Uploads,
    broken: Vec<Broken>,
    sets: ImplementSets,
    status: Status,
}

impl<F: Save, W: Write, E: Messages> Pass<F, W, E> for Hearing<'_> {
    /// Reports what a line brings about.
    fn line(
        &mut self,
        number: u64,
        reading: Result<Line<'_>, LineFault>,
        files: &mut F,
        out: &mut W,
        errors: &mut E,
    ) -> io::Result<()> {
        let Ok(Line::Frame { frame, .. }) = reading else {
            return Ok(());
        };
        self.hear(number, &frame, files, out, errors)
    }
}

impl Hearing<'_> {
    /// Reports what the frame of a line brings about.
    fn hear<F: Save, W: Write, E: Write>(
        &mut self,
        line: u64,
        frame: &Frame,
        files: &mut F,
        out: &mut W,
        errors: &mut E,
    ) -> io::Result<()> {
        if frame.id.pgn() == ECU_TO_VT {
            let Some(destination) = frame.id.destination() else {
                return Ok(());
            };
            let message = ImplementMessage {
                line,
                source: frame.id.source(),
                destination,
                bytes: frame.bytes.as_slice(),
            };
            return self.hear_message(message, files, out, errors);
        }
        self.broken.clear();
        let sent = self.listener.hear(frame, &mut self.broken)?;
        self.put_broken(Some(line), out)?;
        match sent {
            Some(sent) if sent.pgn == ECU_TO_VT => {
                let message = ImplementMessage {
                    line,
                    source: sent.source,
                    destination: sent.destination,
                    bytes: &sent.bytes,
                };
                self.hear_message(message, files, out, errors)
            }
            _ => Ok(()),
        }
    }

    /// Reports the transfers that end before they are whole: at a line, or with the log.
    fn put_broken<W: Write>(&mut self, line: Option<u64>, out: &mut W) -> io::Result<()> {
        let Report { alloc, format, .. } = self.report;
        for broken in self.broken.iter() {
            self.status = self.status.and(Status::Found);
            put_broken(alloc, line, *broken, format, out)?;
        }
        Ok(())
    }

    /// Reports what a message to a terminal brings about.
    fn hear_message<F: Save, W: Write, E: Write>(
        &mut self,
        message: ImplementMessage<'_>,
        files: &mut F,
        out: &mut W,
        errors: &mut E,
    ) -> io::Result<()> {
        let Report { alloc, format, .. } = self.report;
        if let Some(request) = PoolRequest::in_message(message.bytes) {
            if matches!(request, PoolRequest::DeletePool) {
                self.sets.delete(message.source, message.destination);
            }
            put_request(alloc, message, request, format, out)?;
        }
        if let Some(upload) = self.uploads.take(message)? {
            let found = self.judge(message.line, &upload, files, out, errors)?;
            self.status = self.status.and(found);
        }
        Ok(())
    }

    /// Reports an upload that has ended, and writes its pool.
    fn judge<F: Save, W: Write, E: Write>(
        &mut self,
        line: u64,
        upload: &Upload,
        files: &mut F,
        out: &mut W,
        errors: &mut E,
    ) -> io::Result<Status> {
        let report = self.report;
        let number = self.sets.next_number(upload.source)?;
        let name = format!(in report.alloc; "{:02X}-{number}.iop", upload.source)?;
        let objects = self.sets.objects(upload.source, upload.destination);
        let is_update = objects.is_some();
        let verdict = Verdict::of_upload(report.alloc, &upload.bytes, objects)?;
        let saved = report.save(name.as_str(), &upload.bytes, files, errors)?;
        let is_lost = report.folder.is_some() && saved.is_none();
        let end = UploadPlace { line, is_update };
        report.put_verdict(end, upload, &verdict, name.as_str(), saved, out)?;
        let found = self.sets.judge(upload, verdict)?;
        Ok(if is_lost { Status::NotJudged } else { found })
    }

    /// Reports the transfers and uploads that are not ended, and writes what there is of the pools.
    fn put_unended<F: Save, W: Write, E: Write>(
        &mut self,
        files: &mut F,
        out: &mut W,
        errors: &mut E,
    ) -> io::Result<()> {
        self.broken.clear();
        self.listener.unended(&mut self.broken)?;
        self.put_broken(None, out)?;
        let report = self.report;
        for upload in self.uploads.unended() {
            let number = self.sets.next_number(upload.source)?;
            let name = format!(in report.alloc; "{:02X}-{number}.part.iop", upload.source)?;
            let saved = report.save(name.as_str(), &upload.bytes, files, errors)?;
            let is_lost = report.folder.is_some() && saved.is_none();
            self.status = self.status.and(if is_lost {
                Status::NotJudged
            } else {
                Status::Found
            });
            put_unended(report.alloc, upload, saved.as_deref(), report.format, out)?;
        }
        Ok(())
    }
}

/// How the pools of a log are reported.
#[derive(Clone, Copy, Drop)]
struct Report<'a> {
    alloc: Global,
    folder: Option<&'a str>,
    names: &'a Names,
    format: Format,
}

impl Report<'_> {
    /// Saves a pool in the folder, and returns the path of its file. `None` if there is no folder, or it cannot be saved: then `errors`
    /// receives the reason.
    fn save<F: Save, E: Write>(
        &self,
        name: &str,
        bytes: &[u8],
        files: &mut F,
        errors: &mut E,
    ) -> io::Result<Option<String>> {
        let Some(folder) = self.folder else {
            return Ok(None);
        };
        let path = format!(in self.alloc; "{folder}/{name}")?;
        let is_saved = save_file(path.as_str(), bytes, files, errors)?;
        Ok(is_saved.then_some(path))
    }

    /// Writes the line of an upload, with the file of its pool if it is saved, and each fault of a pool that is not accepted.
    fn put_verdict<W: Write>(
        &self,
        end: UploadPlace,
        upload: &Upload,
        verdict: &Verdict,
        name: &str,
        saved: Option<String>,
        out: &mut W,
    ) -> io::Result<()> {
        let file = saved.as_deref();
        let path = file.unwrap_or(name);
        put_upload(self.alloc, end, upload, verdict, file, self.format, out)?;
        match verdict {
            Verdict::Faulty(_) | Verdict::Refused(_) if !end.is_update => {
                self.put_findings(path, &upload.bytes, out)
            }
            Verdict::Accepted(_) | Verdict::Faulty(_) | Verdict::Refused(_) => Ok(()),
        }
    }

    /// Writes every fault of a pool, as `segyolant check` does.
    fn put_findings<W: Write>(&self, path: &str, bytes: &[u8], out: &mut W) -> io::Result<()> {
        let inspection = inspect(self.alloc, bytes)?;
        let source = CheckedPool {
            path,
            inspection: &inspection,
            bytes,
            names: self.names,
        };
        for finding in inspection.findings.iter() {
            put_finding(
                self.alloc,
                &source,
                Item::Finding(finding),
                self.format,
                out,
            )?;
        }
        for note in inspection.notes.iter() {
            put_finding(self.alloc, &source, Item::Note(*note), self.format, out)?;
        }
        Ok(())
    }
}
