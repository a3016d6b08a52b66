//! How the findings of a pool are told.

use crate::check::chosen::{Chosen, ChosenWords};
use crate::check::config::{Config, path_beside};
use crate::check::known::Known;
use check_needs::{Sizes, TERMINAL_SIZES};
use check_options::CheckOptions;
use check_text::Names;
use std::alloc::{AllocError, Global};
use std::io::{self, Write};
use vt_cli::{Open, read_names};

/// How the findings of a pool are told: each setting is that of the command line, or else that of the file of settings.
#[derive(Drop)]
pub(crate) struct Settings<'a> {
    /// The sizes of the terminal.
    pub(crate) sizes: Sizes,
    /// Which findings are told, and with which severity.
    pub(crate) chosen: Chosen<'a>,
    /// The files of names that the file of settings gives, if the command line gives none.
    names: &'a [&'a str],
    /// The file of known findings that the file of settings gives, if the command line gives none.
    baseline: Option<&'a str>,
}

impl<'a> Settings<'a> {
    /// Those of the command line, and else of the file of settings.
    pub(crate) fn new(
        alloc: Global,
        options: &'a CheckOptions<'a>,
        config: &'a Config<'a>,
    ) -> Result<Settings<'a>, AllocError> {
        let words = ChosenWords {
            select: given(&options.select, &config.select),
            ignore: given(&options.ignore, &config.ignore),
            deny: given(&options.deny, &config.deny),
            warn: given(&options.warn, &config.warn),
            is_for_any: options.is_for_any.or(config.is_for_any).unwrap_or(false),
        };
        let usual = TERMINAL_SIZES;
        Ok(Settings {
            sizes: Sizes {
                mask: options.mask.or(config.mask).unwrap_or(usual.mask),
                key: options.key.or(config.key).unwrap_or(usual.key),
                keys: options.keys.or(config.keys).unwrap_or(usual.keys),
            },
            chosen: Chosen::new(alloc, words)?,
            names: if options.names.is_empty() {
                config.names.as_slice()
            } else {
                &[]
            },
            baseline: match options.baseline {
                Some(_) => None,
                None => config.baseline,
            },
        })
    }

    /// The names of the files that the file of settings gives, by its path; `Some(None)` if it gives none. `None` if one cannot be read:
    /// then `errors` receives the reason.
    pub(crate) fn names_beside<F: Open, E: Write>(
        &self,
        alloc: Global,
        path: &str,
        files: &mut F,
        errors: &mut E,
    ) -> io::Result<Option<Option<Names>>> {
        if self.names.is_empty() {
            return Ok(Some(None));
        }
        let mut paths = Vec::new(alloc);
        for name in self.names {
            paths.push(path_beside(alloc, path, name)?)?;
        }
        let paths = paths
            .iter()
            .map(|path| path.as_str())
            .collect::<Vec<_>>(alloc)?;
        let names = read_names(alloc, paths.as_slice(), files, errors)?;
        Ok(names.map(Some))
    }

    /// The known findings in the file that the file of settings gives, by its path; `Some(None)` if it gives none. `None` if it cannot be
    /// read: then `errors` receives the reason.
    pub(crate) fn known_beside<F: Open, E: Write>(
        &self,
        alloc: Global,
        path: &str,
        files: &mut F,
        errors: &mut E,
    ) -> io::Result<Option<Option<Known>>> {
        let Some(baseline) = self.baseline else {
            return Ok(Some(None));
        };
        let baseline = path_beside(alloc, path, baseline)?;
        let known = Known::read(alloc, baseline.as_str(), files, errors)?;
        Ok(known.map(Some))
    }
}

/// What the command line gives, or else what the file of settings gives.
fn given<'a, 'b>(options: &'b [&'a str], config: &'b [&'a str]) -> &'b [&'a str] {
    if options.is_empty() { config } else { options }
}
