//! The words of the command line, and the options that they give.

ghost use Rattle.std.specs.Prelude.{◌≡◌, ℕ, IfOk, IfErr, MatchOption, codes, false, is_some, map, true};
ghost use Rattle.clap.specs.Words.{IsParsedFrom, IsPlainArg, app_of, first_value, found_of, one_text, rule_of};
ghost use Rattle.clap.specs.Built.{TakesValue};
ghost use Rattle.clap.specs.declared.parser.matches.ArgMatches.{ArgMatches};
ghost use Rattle.vt_program.specs.declared.options.UsageError.TheVariants.{Memory};
ghost use Rattle.vt_program.specs.Words.{HasValidAddresses, GivesOptions, GivesAddress, IsBadAddress, IsBadName, IsMistake, IsName, IsOwnName, IsRefusalFor, IsRefusalOf, WordsGive, app, file_word, given_in, usage_text, report_flag, valued_option};

use byteorder::{BigEndian, ByteOrder};
use clap::error::ErrorKind;
use clap::{Arg, ArgAction, ArgMatches, Command, Error};
use hex::FromHex;
use std::alloc::{AllocError, Global};
use std::convert::AsStr;
use std::fmt;
use vt_can::assigned::TERMINAL_ADDRESS;
use vt_cli::address;
use vt_names::{Name, TERMINAL_NAME};

/// The options that the words give.
#[derive(Drop)]
pub struct Options<'a> {
    /// The file of the log, or of the object pool to report on.
    pub file: &'a str,
    /// The terminal's own address, at most 253.
    pub own: u8,
    /// The terminal's NAME.
    pub name: Name,
    /// The working set that is present from the start.
    pub preload: Option<Preload<'a>>,
    /// Whether a report is asked for instead of a replay.
    pub report: bool,
}

/// A working set that is present from the start.
#[derive(Drop)]
pub struct Preload<'a> {
    /// The file of the set's object pool.
    pub pool: &'a str,
    /// The set's address, at most 253.
    pub owner: u8,
}

/// A refusal of the words, or a request for help or the version.
#[derive(Drop)]
pub enum UsageError<'a> {
    /// An error of `clap`: a fault of the words, or a request for help or the version.
    Words(Error),
    /// The value of an option is not an address, which is two hex digits up to FD.
    Address {
        /// The option's name.
        option: &'static str,
        /// The option's value.
        value: &'a str,
    },
    /// The value of `--name` is not a NAME, which is 16 hex digits.
    Name(&'a str),
    /// The value of `--owner` is the terminal's own address.
    OwnerIsOwn(&'a str),
    /// A pool is given without its owner, or an owner without a pool.
    Alone,
    /// An allocation was refused.
    Memory,
}

impl fmt::Display for UsageError<'_> {
    ghost output = { usage_text };

    fn fmt<W: fmt::Write>(&self, f: &mut fmt::Formatter<W>) -> fmt::Result {
        match self {
            UsageError::Words(error) => write!(f, "{error}"),
            UsageError::Address { option, value } => {
                writeln!(
                    f,
                    "error: --{option} {value}: expected two hex digits up to FD"
                )
            }
            UsageError::Name(value) => {
                writeln!(f, "error: --name {value}: expected 16 hex digits")
            }
            UsageError::OwnerIsOwn(value) => {
                writeln!(
                    f,
                    "error: --owner {value}: expected another address than the terminal's own (--own, 26 unless given)"
                )
            }
            UsageError::Alone => {
                writeln!(
                    f,
                    "error: --pool and --owner are given together or not at all"
                )
            }
            UsageError::Memory => writeln!(f, "vt_replay: out of memory"),
        }
    }
}

impl From<Error> for UsageError<'_> {
    ghost from_gives = { IsRefusalFor };

    fn from(error: Error) -> Self {
        match error.kind() {
            ErrorKind::OutOfMemory => UsageError::Memory,
            _ => UsageError::Words(error),
        }
    }
}

impl From<AllocError> for UsageError<'_> {
    ghost from_gives = { λ _ refusal. refusal ≡ Memory };

    fn from(_error: AllocError) -> Self {
        UsageError::Memory
    }
}

impl<'a> Options<'a> {
    /// Reads the words, of which the first is the program's name.
    pub fn parse<S: AsStr>(alloc: Global, words: &'a [S]) -> Result<Options<'a>, UsageError<'a>>
        ensures given { IfOk result (WordsGive (map S.text words.now)) }
        ensures refused { IfErr result (IsRefusalOf (map S.text words.now)) }
    {
        let matches = command(alloc)?.try_get_matches_from(words)?;
        options_of(&matches)
    }
}

/// The text of help after the options.
const AFTER_HELP: &str = "\
Lines of the log, beside frames and comments (#):
  ! press ID, ! release ID   presses and releases a soft key or a button
  ! select ID                selects an input
  ! number ID N              enters a number
  ! text ID TEXT             enters a text
  ! set AA                   chooses the working set of an address

Status: 0 done, 1 a fault of a file, a pool or the replay, 2 the command line

  vt_replay seeder.log                               replays a log
  vt_replay my.log --pool my.iop --owner 80          the same, with a pool from the start
  candump -L can0 | vt_replay -                      listens to a bus
  vt_replay my.iop --report                          checks a pool (docs/POOLS.md)";

/// The command line of the program, for `clap`.
fn command<'a>(alloc: Global) -> Result<Command<'a>, AllocError>
    ensures app { IfOk result (λ command. app_of command ≡ app) }
    // The matches of the command have a value of FILE.
    ensures file { IfOk result (λ command. (matches : ArgMatches) → IsParsedFrom command matches
        → is_some (first_value (found_of matches) (codes "FILE")) ≡ true) }
{
    let file = file_word(alloc);
    let own = valued_option(
        alloc,
        "own",
        "AA",
        "The terminal's own address, two hex digits up to FD [default: 26, which is 38 in decimal]",
    );
    let name = valued_option(
        alloc,
        "name",
        "N",
        "The terminal's NAME, 16 hex digits [default: 20001D0000000001]",
    );
    let pool = valued_option(
        alloc,
        "pool",
        "PATH",
        "The object pool of a working set that is there from the start",
    );
    let owner = valued_option(alloc, "owner", "AA", "The address of that working set");
    let report = report_flag(alloc);
    Command::new(alloc, "vt_replay")
        .version("0.2.0")
        .about(
            "Replays a CAN log to a virtual terminal and prints what it answers, or checks an \
             object pool and prints its report",
        )
        .after_help(AFTER_HELP)
        .arg(file)?
        .arg(own)?
        .arg(name)?
        .arg(pool)?
        .arg(owner)?
        .arg(report)
}

fn file_word<'a>(alloc: Global) -> Arg<'a>
    ensures rule { rule_of result ≡ file_word }
    ensures plain { IsPlainArg result }
    ensures local { result.global ≡ false }
    ensures value { TakesValue result }
{
    Arg::new(alloc, "FILE")
        .help(
            "The log to replay, as candump -L writes it, or - for the standard input; with --report an object pool",
        )
        .action(ArgAction::Set)
        .required(true)
}

fn valued_option<'a>(alloc: Global, name: &'a str, value: &'a str, help: &'a str) -> Arg<'a>
    ensures rule { rule_of result ≡ valued_option name.now }
    ensures plain { IsPlainArg result }
    ensures local { result.global ≡ false }
{
    Arg::new(alloc, name)
        .long(name)
        .value_name(value)
        .help(help)
        .action(ArgAction::Set)
}

fn report_flag<'a>(alloc: Global) -> Arg<'a>
    ensures rule { rule_of result ≡ report_flag }
    ensures plain { IsPlainArg result }
    ensures local { result.global ≡ false }
{
    Arg::new(alloc, "report")
        .long("report")
        .help("Print the report of the object pool FILE instead of a replay")
        .action(ArgAction::SetTrue)
}

/// The options that matches give. The matches have a value of FILE.
fn options_of<'a>(matches: &ArgMatches<'a>) -> Result<Options<'a>, UsageError<'a>>
    requires { is_some (first_value (found_of matches.now) (codes "FILE")) ≡ true }
    ensures gives { IfOk result (GivesOptions (given_in (first_value (found_of matches.now)) (one_text (found_of matches.now)))) }
    ensures apart { IfOk result HasValidAddresses }
    ensures refused { IfErr result (IsMistake (given_in (first_value (found_of matches.now)) (one_text (found_of matches.now)))) }
{
    let own = address_given(matches, "own")?.unwrap_or(TERMINAL_ADDRESS);
    let name = name_given(matches)?;
    let owner = address_given(matches, "owner")?;
    let preload = match (matches.get_str("pool"), owner) {
        (Some(_), Some(owner)) if owner == own => {
            let value = matches.get_str("owner").unwrap_or("");
            return Err(UsageError::OwnerIsOwn(value));
        }
        (Some(pool), Some(owner)) => Some(Preload { pool, owner }),
        (None, None) => None,
        _ => return Err(UsageError::Alone),
    };
    let file = matches.get_str("FILE").unwrap_or("");
    let report = matches.get_flag("report");
    Ok(Options {
        file,
        own,
        name,
        preload,
        report,
    })
}

/// The address that an option gives, if the option is present.
fn address_given<'a>(
    matches: &ArgMatches<'a>,
    option: &'static str,
) -> Result<Option<u8>, UsageError<'a>>
    ensures given { IfOk result (GivesAddress (first_value (found_of matches.now) option.now)) }
    ensures refused { IfErr result (IsBadAddress option.now (first_value (found_of matches.now) option.now)) }
{
    let Some(value) = matches.get_str(option) else {
        return Ok(None);
    };
    match address(value) {
        Some(address) => Ok(Some(address)),
        None => Err(UsageError::Address { option, value }),
    }
}

/// The terminal's NAME, the one given or the default.
fn name_given<'a>(matches: &ArgMatches<'a>) -> Result<Name, UsageError<'a>>
    ensures given { IfOk result (IsOwnName (first_value (found_of matches.now) (codes "name"))) }
    ensures refused { IfErr result (IsBadName (first_value (found_of matches.now) (codes "name"))) }
{
    let Some(value) = matches.get_str("name") else {
        return Ok(Name::from_raw(TERMINAL_NAME));
    };
    match name(value) {
        Some(name) => Ok(name),
        None => Err(UsageError::Name(value)),
    }
}

/// The NAME written as 16 hex digits. `None` for any other text.
pub fn name(text: &str) -> Option<Name>
    ensures { MatchOption result ((n : ℕ) → IsName text.now n → ⊥) (IsName text.now) }
{
    let bytes = <[u8; 8]>::from_hex(text).ok()?;
    Some(Name::from_raw(BigEndian::read_u64(&bytes)))
}
