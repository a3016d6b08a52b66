//! The form of lines that no workflow reads.

use clap::ArgMatches;

/// The form of lines.
#[derive(Clone, Copy, PartialEq, Eq)]
pub enum LineFormat {
    /// Lines for people.
    Text,
    /// Lines of JSON.
    Json,
}

/// The form that `--format` gives.
pub(crate) fn line_format_of(matches: &ArgMatches<'_>) -> LineFormat {
    match matches.get_str("format") {
        Some("json") => LineFormat::Json,
        _ => LineFormat::Text,
    }
}
