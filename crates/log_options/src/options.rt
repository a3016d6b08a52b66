//! The options that a command line gives.

use crate::filter_options::{line_filter, range_of, topic_filter};
use crate::filters::{LineFilter, TopicFilter};
use crate::places::LineRange;
use crate::start_options::{StartOptions, start_options};
use crate::subcommands::command;
use crate::terminal_options::{TerminalOptions, own_of, terminal_options};
use crate::wrong_option::WrongOption;
use clap::ArgMatches;
use std::alloc::{AllocError, Global};
use std::convert::AsStr;
use vt_cli::{UsageError, all_of, inputs_in};

/// The options that a command line gives, by its subcommand.
#[derive(Drop)]
pub enum Options<'a> {
    /// `pools`.
    Pools(PoolsOptions<'a>),
    /// `operator`.
    Operator(OperatorOptions<'a>),
    /// `trace`.
    Trace(TraceOptions<'a>),
    /// `compare`.
    Compare(CompareOptions<'a>),
    /// `draw`.
    Draw(DrawOptions<'a>),
    /// `stats`.
    Stats(StatsOptions<'a>),
    /// `report`.
    Report(ReportOptions<'a>),
    /// `test`.
    Test(TestOptions<'a>),
}

/// The form of the output.
#[derive(Clone, Copy, PartialEq, Eq)]
pub enum Format {
    /// Lines for people.
    Text,
    /// Lines of JSON.
    Json,
}

/// The form of the output of `test`.
#[derive(Clone, Copy, PartialEq, Eq)]
pub enum TestFormat {
    /// Lines for people.
    Text,
    /// Lines of JSON.
    Json,
    /// A report of JUnit, in XML.
    JUnit,
}

/// The options of `pools`.
#[derive(Drop)]
pub struct PoolsOptions<'a> {
    /// The file of the log.
    pub log: &'a str,
    /// The only interface whose frames are read, or `None` for all.
    pub interface: Option<&'a str>,
    /// The folder for the pools, or `None` to write none.
    pub folder: Option<&'a str>,
    /// The files of names.
    pub names: Vec<&'a str>,
    /// The form of the output.
    pub format: Format,
}

/// The options of `operator`.
#[derive(Clone, Copy, PartialEq, Eq)]
pub struct OperatorOptions<'a> {
    /// The file of the log.
    pub log: &'a str,
    /// The only interface whose frames are read, or `None` for all.
    pub interface: Option<&'a str>,
    /// The address of the recorded terminal.
    pub own: u8,
    /// The form of the output.
    pub format: Format,
}

/// A log that a terminal replays: a part of the options of `trace`, `compare`, `draw`, `stats` and `report`.
#[derive(Drop)]
pub struct ReplayOptions<'a> {
    /// The file of the log.
    pub log: &'a str,
    /// The only interface whose frames are read, or `None` for all.
    pub interface: Option<&'a str>,
    /// The files of names.
    pub names: Vec<&'a str>,
    /// The terminal.
    pub terminal: TerminalOptions,
    /// The working sets that it has from the start.
    pub start: StartOptions<'a>,
}

/// The options of `trace`.
#[derive(Drop)]
pub struct TraceOptions<'a> {
    /// The log, and the terminal that replays it.
    pub replay: ReplayOptions<'a>,
    /// The lines that are printed.
    pub filter: LineFilter<'a>,
    /// The form of the output.
    pub format: Format,
}

/// The options of `compare`.
#[derive(Drop)]
pub struct CompareOptions<'a> {
    /// The log, and the terminal that replays it.
    pub replay: ReplayOptions<'a>,
    /// What is reported.
    pub report: DifferenceOptions<'a>,
}

/// How answers are compared, and which differences are reported.
#[derive(Drop)]
pub struct DifferenceOptions<'a> {
    /// The differences that are reported.
    pub filter: TopicFilter<'a>,
    /// How long an answer may take, in milliseconds.
    pub wait: u32,
    /// Whether the times of the recorded terminal are reported too.
    pub has_times: bool,
    /// The form of the output.
    pub format: Format,
}

/// The options of `draw`.
#[derive(Drop)]
pub struct DrawOptions<'a> {
    /// The log, and the terminal that replays it.
    pub replay: ReplayOptions<'a>,
    /// The lines at which the screen is drawn.
    pub filter: LineFilter<'a>,
    /// The folder for the pictures.
    pub folder: &'a str,
    /// The form of the output.
    pub format: Format,
}

/// The options of `stats`.
#[derive(Drop)]
pub struct StatsOptions<'a> {
    /// The log, and the terminal that replays it.
    pub replay: ReplayOptions<'a>,
    /// The form of the output.
    pub format: Format,
}

/// The options of `report`.
#[derive(Drop)]
pub struct ReportOptions<'a> {
    /// The log, and the terminal that replays it.
    pub replay: ReplayOptions<'a>,
    /// The lines that the page has.
    pub range: LineRange,
    /// How long an answer may take, in milliseconds.
    pub wait: u32,
}

/// The options of `test`.
#[derive(Drop)]
pub struct TestOptions<'a> {
    /// The files of the logs, and folders of logs.
    pub logs: Vec<&'a str>,
    /// Whether each log is written anew, with what its lines print as expectations.
    pub blesses: bool,
    /// The form of the output.
    pub format: TestFormat,
    /// The terminal.
    pub terminal: TerminalOptions,
    /// The working sets that it has from the start.
    pub start: StartOptions<'a>,
}

/// How long an answer may take, in milliseconds, unless another time is given.
const WAIT: u32 = 1500;

/// The subcommands, and where to read about them.
const SUBCOMMANDS: &str =
    "pools, operator, trace, compare, draw, stats, report or test; segyolant_log --help says what each does";

/// The arguments that are paths of files to read.
const FILES: &[&str] = &["LOG", "names", "pool"];

impl<'a> Options<'a> {
    /// Reads the arguments of a command line, of which the first is the program's name.
    pub fn parse<S: AsStr>(
        alloc: Global,
        arguments: &'a [S],
    ) -> Result<Options<'a>, UsageError<WrongOption<'a>>> {
        let matches = command(alloc)?.try_get_matches_from(arguments)?;
        // clap demands a subcommand; its contract does not say so.
        let Some((name, matches)) = matches.subcommand() else {
            return Err(UsageError::NoSubcommand(SUBCOMMANDS));
        };
        let options = Options::of_subcommand(alloc, name, matches)?;
        if inputs_in(matches, FILES) > 1 {
            return Err(UsageError::InputTwice);
        }
        Ok(options)
    }

    /// The options of the subcommand with this name, from its matches.
    fn of_subcommand(
        alloc: Global,
        name: &str,
        matches: &ArgMatches<'a>,
    ) -> Result<Options<'a>, UsageError<WrongOption<'a>>> {
        Ok(match name {
            "operator" => Options::Operator(operator_options(matches)?),
            "trace" => Options::Trace(trace_options(alloc, matches)?),
            "compare" => Options::Compare(compare_options(alloc, matches)?),
            "draw" => Options::Draw(draw_options(alloc, matches)?),
            "stats" => Options::Stats(stats_options(alloc, matches)?),
            "report" => Options::Report(report_options(alloc, matches)?),
            "test" => Options::Test(test_options(alloc, matches)?),
            "pools" => Options::Pools(pools_options(alloc, matches)?),
            // clap takes no other name; its contract does not say so.
            _ => return Err(UsageError::NoSubcommand(SUBCOMMANDS)),
        })
    }
}

fn pools_options<'a>(
    alloc: Global,
    matches: &ArgMatches<'a>,
) -> Result<PoolsOptions<'a>, AllocError> {
    Ok(PoolsOptions {
        log: log_of(matches),
        interface: matches.get_str("interface"),
        folder: matches.get_str("out"),
        names: all_of(alloc, matches, "names")?,
        format: format_of(matches),
    })
}

fn operator_options<'a>(matches: &ArgMatches<'a>) -> Result<OperatorOptions<'a>, WrongOption<'a>> {
    Ok(OperatorOptions {
        log: log_of(matches),
        interface: matches.get_str("interface"),
        own: own_of(matches)?,
        format: format_of(matches),
    })
}

fn replay_options<'a>(
    alloc: Global,
    matches: &ArgMatches<'a>,
) -> Result<ReplayOptions<'a>, UsageError<WrongOption<'a>>> {
    let terminal = terminal_options(matches)?;
    Ok(ReplayOptions {
        log: log_of(matches),
        interface: matches.get_str("interface"),
        names: all_of(alloc, matches, "names")?,
        terminal,
        start: start_options(alloc, matches, terminal.own)?,
    })
}

fn trace_options<'a>(
    alloc: Global,
    matches: &ArgMatches<'a>,
) -> Result<TraceOptions<'a>, UsageError<WrongOption<'a>>> {
    Ok(TraceOptions {
        replay: replay_options(alloc, matches)?,
        filter: line_filter(alloc, matches)?,
        format: format_of(matches),
    })
}

fn compare_options<'a>(
    alloc: Global,
    matches: &ArgMatches<'a>,
) -> Result<CompareOptions<'a>, UsageError<WrongOption<'a>>> {
    Ok(CompareOptions {
        replay: replay_options(alloc, matches)?,
        report: DifferenceOptions {
            filter: topic_filter(alloc, matches)?,
            wait: wait_of(matches)?,
            has_times: matches.get_flag("times"),
            format: format_of(matches),
        },
    })
}

fn draw_options<'a>(
    alloc: Global,
    matches: &ArgMatches<'a>,
) -> Result<DrawOptions<'a>, UsageError<WrongOption<'a>>> {
    Ok(DrawOptions {
        replay: replay_options(alloc, matches)?,
        filter: line_filter(alloc, matches)?,
        // clap demands it; its contract does not say so.
        folder: matches.get_str("out").unwrap_or("."),
        format: format_of(matches),
    })
}

fn stats_options<'a>(
    alloc: Global,
    matches: &ArgMatches<'a>,
) -> Result<StatsOptions<'a>, UsageError<WrongOption<'a>>> {
    Ok(StatsOptions {
        replay: replay_options(alloc, matches)?,
        format: format_of(matches),
    })
}

fn report_options<'a>(
    alloc: Global,
    matches: &ArgMatches<'a>,
) -> Result<ReportOptions<'a>, UsageError<WrongOption<'a>>> {
    Ok(ReportOptions {
        replay: replay_options(alloc, matches)?,
        range: range_of(matches)?,
        wait: wait_of(matches)?,
    })
}

fn test_options<'a>(
    alloc: Global,
    matches: &ArgMatches<'a>,
) -> Result<TestOptions<'a>, UsageError<WrongOption<'a>>> {
    let logs = all_of(alloc, matches, "LOG")?;
    let blesses = matches.get_flag("bless");
    if blesses && inputs_in(matches, &["LOG"]) > 0 {
        return Err(UsageError::Wrong(WrongOption::BlessedInput));
    }
    let terminal = terminal_options(matches)?;
    Ok(TestOptions {
        logs,
        blesses,
        format: test_format_of(matches),
        terminal,
        start: start_options(alloc, matches, terminal.own)?,
    })
}

/// The milliseconds that the value of `--wait` gives, or else the default.
fn wait_of<'a>(matches: &ArgMatches<'a>) -> Result<u32, WrongOption<'a>> {
    match matches.get_str("wait") {
        None => Ok(WAIT),
        Some(value) => value.parse::<u32>().map_err(|_| WrongOption::Wait(value)),
    }
}

/// The path of the log, which `clap` demands.
fn log_of<'a>(matches: &ArgMatches<'a>) -> &'a str {
    matches.get_str("LOG").unwrap_or("-")
}

fn format_of(matches: &ArgMatches<'_>) -> Format {
    match matches.get_str("format") {
        Some("json") => Format::Json,
        _ => Format::Text,
    }
}

fn test_format_of(matches: &ArgMatches<'_>) -> TestFormat {
    match matches.get_str("format") {
        Some("json") => TestFormat::Json,
        Some("junit") => TestFormat::JUnit,
        _ => TestFormat::Text,
    }
}
