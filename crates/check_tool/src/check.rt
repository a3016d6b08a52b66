//! The subcommand `check`.

mod base;
mod chosen;
mod config;
mod junit;
mod known;
mod lines;
mod sarif;
mod settings;

use crate::check::base::Base;
use crate::check::chosen::Chosen;
use crate::check::config::ConfigFile;
use crate::check::junit::Junit;
use crate::check::known::Known;
use crate::check::lines::Lines;
use crate::check::sarif::put_document;
use crate::check::settings::Settings;
use check_inspect::inspect;
use check_needs::warnings;
use check_options::{CheckOptions, Format};
use check_text::{
    CheckedPool, Item, MessageStyle, Names, Severity, Summary, Totals, items_of, summary_of,
};
use check_values::value_warnings;
use std::alloc::{AllocError, Global};
use std::io::{self, Write};
use vt_cli::{Open, Status, read_names, read_pool_file};

/// Checks each pool in turn, and prints the counts of all of them if there are several files. A file that cannot be read is named, and
/// the others are checked all the same.
pub(crate) fn run_check<F: Open, W: Write, E: Write>(
    alloc: Global,
    options: &CheckOptions<'_>,
    style: MessageStyle,
    files: &mut F,
    out: &mut W,
    errors: &mut E,
) -> io::Result<Status> {
    let Some(names) = read_names(alloc, options.names.as_slice(), files, errors)? else {
        return Ok(Status::NotJudged);
    };
    let mut known = Known::new(alloc);
    if let Some(path) = options.baseline {
        match Known::read(alloc, path, files, errors)? {
            Some(read) => known = read,
            None => return Ok(Status::NotJudged),
        }
    }
    let Some(base) = Base::read(alloc, options.base, files, errors)? else {
        return Ok(Status::NotJudged);
    };
    let check = Check {
        alloc,
        options,
        base,
        lines: Lines::new(options.format, style),
        names,
    };
    check.run(&mut known, files, out, errors)
}

/// How pools are checked: with these options, lines and names.
#[derive(Drop)]
struct Check<'a> {
    alloc: Global,
    options: &'a CheckOptions<'a>,
    /// The pool on top of which the pools are uploaded.
    base: Base<'a>,
    lines: Lines,
    /// The names of the files that the command line gives.
    names: Names,
}

/// The findings of a pool that are told.
#[derive(Drop)]
struct Told<'a> {
    items: Vec<Item<'a>>,
    /// How many of them are errors.
    errors: usize,
    /// How many more are known from an earlier check.
    known: usize,
}

impl Check<'_> {
    /// Checks each pool, and writes what is found in the form of the output.
    fn run<F: Open, W: Write, E: Write>(
        &self,
        known: &mut Known,
        files: &mut F,
        out: &mut W,
        errors: &mut E,
    ) -> io::Result<Status> {
        match self.options.format {
            Format::Text | Format::Json | Format::Github => { self.all(known, files, out, errors) }
            Format::Sarif => {
                let mut results = Vec::new(self.alloc);
                let status = self.all(known, files, &mut results, errors)?;
                put_document(self.alloc, results.as_slice(), out)?;
                Ok(status)
            }
            Format::Junit => self.test_all(known, files, out, errors),
        }
    }

    /// Checks each pool, and prints the counts of all if there are several.
    fn all<F: Open, W: Write, E: Write>(
        &self,
        known: &mut Known,
        files: &mut F,
        out: &mut W,
        errors: &mut E,
    ) -> io::Result<Status> {
        let mut status = Status::Clean;
        let mut totals = Totals::new();
        for path in self.options.pools.iter() {
            let found = self.file(path, known, &mut totals, files, out, errors)?;
            status = status.and(found);
        }
        if self.options.pools.len() > 1 {
            self.lines.put_totals(self.alloc, totals, out)?;
        }
        Ok(status)
    }

    /// Checks each pool, and writes a report of JUnit with a test for each.
    fn test_all<F: Open, W: Write, E: Write>(
        &self,
        known: &mut Known,
        files: &mut F,
        out: &mut W,
        errors: &mut E,
    ) -> io::Result<Status> {
        let mut status = Status::Clean;
        let mut totals = Totals::new();
        let mut report = Junit::new(self.alloc);
        for path in self.options.pools.iter() {
            let mut lines = Vec::new(self.alloc);
            let mut told = Vec::new(self.alloc);
            let found = self.file(path, known, &mut totals, files, &mut lines, &mut told);
            let _ = errors.write_all(&told);
            let found = found?;
            report.put_case(path, found, &lines, &told)?;
            status = status.and(found);
        }
        report.write(out)?;
        Ok(status)
    }

    /// Checks the pool in a file with its settings. `known` are the known findings that the command line gives. The counts are added to
    /// `totals`. If a file cannot be read or is faulty, `errors` receives the reason.
    fn file<F: Open, W: Write, E: Write>(
        &self,
        path: &str,
        known: &mut Known,
        totals: &mut Totals,
        files: &mut F,
        out: &mut W,
        errors: &mut E,
    ) -> io::Result<Status> {
        let alloc = self.alloc;
        let options = self.options;
        let mut file = ConfigFile::empty(alloc);
        if !options.is_isolated {
            match ConfigFile::read(alloc, options.config, path, files, errors)? {
                Some(read) => file = read,
                None => return Ok(Status::NotJudged),
            }
        }
        let Some(config) = file.settings(alloc, files.name(), errors)? else {
            return Ok(Status::NotJudged);
        };
        let settings = Settings::new(alloc, options, &config)?;
        let Some(bytes) = read_pool_file(alloc, path, files, errors)? else {
            return Ok(Status::NotJudged);
        };
        let Some(names) = settings.names_beside(alloc, file.path(), files, errors)? else {
            return Ok(Status::NotJudged);
        };
        let names = names.as_ref().unwrap_or(&self.names);
        let Some(own) = settings.known_beside(alloc, file.path(), files, errors)? else {
            return Ok(Status::NotJudged);
        };
        let Some(mut own) = own else {
            return self.pool(path, &bytes, &settings, names, known, totals, out);
        };
        self.pool(path, &bytes, &settings, names, &mut own, totals, out)
    }

    /// Prints every finding and warning of a pool that is told, and the counts, which are added to `totals`.
    fn pool<W: Write>(
        &self,
        path: &str,
        bytes: &[u8],
        settings: &Settings<'_>,
        names: &Names,
        known: &mut Known,
        totals: &mut Totals,
        out: &mut W,
    ) -> io::Result<Status> {
        let alloc = self.alloc;
        let bytes = self.base.with(alloc, bytes)?;
        let inspection = inspect(alloc, bytes.as_slice())?;
        let warnings = warnings(alloc, &inspection.objects, settings.sizes)?;
        let values = value_warnings(alloc, &inspection.objects)?;
        let source = CheckedPool {
            path,
            inspection: &inspection,
            bytes: bytes.as_slice(),
            names,
        };
        let items = items_of(alloc, &inspection, warnings.as_slice(), values.as_slice())?;
        let told = self.told(&source, items.as_slice(), &settings.chosen, known)?;
        let most = self
            .options
            .most
            .map_or(told.items.len(), |most| most as usize);
        for item in told.items.iter().take(most) {
            let severity = settings.chosen.severity(&source, *item);
            self.lines
                .put_item(alloc, &source, &self.base, *item, severity, out)?;
        }
        for note in inspection.notes.iter() {
            let note = Item::Note(*note);
            self.lines
                .put_item(alloc, &source, &self.base, note, Severity::Note, out)?;
        }
        let summary = Summary {
            errors: told.errors,
            warnings: told.items.len().saturating_sub(told.errors),
            ..summary_of(&source, told.items.as_slice(), most)
        };
        self.lines.put_summary(alloc, summary, told.known, out)?;
        totals.add(&summary);
        Ok(status_of(&summary, settings.chosen.denies_warnings))
    }

    /// The items that are told: those that are chosen and not known. An object of the base that the pool replaces is not told.
    fn told<'a>(
        &self,
        source: &CheckedPool<'_>,
        items: &[Item<'a>],
        chosen: &Chosen<'_>,
        known: &mut Known,
    ) -> Result<Told<'a>, AllocError> {
        let mut told = Told {
            items: Vec::new(self.alloc),
            errors: 0,
            known: 0,
        };
        for item in items {
            if self.base.is_replaced(*item) || !chosen.is_told(source, *item) {
                continue;
            }
            if !known.is_empty() && known.take(&source.message(self.alloc, *item)?)? {
                told.known = told.known.saturating_add(1);
                continue;
            }
            if chosen.severity(source, *item) == Severity::Error {
                told.errors = told.errors.saturating_add(1);
            }
            told.items.push(*item)?;
        }
        Ok(told)
    }
}

/// The status of a pool with these counts.
fn status_of(summary: &Summary<'_>, denies_warnings: bool) -> Status {
    if summary.errors > 0 || denies_warnings && summary.warnings > 0 {
        Status::Found
    } else {
        Status::Clean
    }
}
