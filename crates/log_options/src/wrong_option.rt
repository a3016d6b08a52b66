//! Wrong options.

use std::fmt;
use vt_cli::UsageError;

/// A wrong option, or one that lacks another.
#[derive(Clone, Copy, PartialEq, Eq)]
pub enum WrongOption<'a> {
    /// The value of `--own` is no address that a terminal may have.
    Own(&'a str),
    /// The value of `--owner` is no address that a working set may have, or the terminal's own.
    Owner(&'a str),
    /// The value of `--name` is no NAME.
    Name(&'a str),
    /// The value of `--wait` is no number of milliseconds.
    Wait(&'a str),
    /// The value of `--from` or `--to`, the first text, is no place in a log.
    Place(&'static str, &'a str),
    /// The value of `--to`, the second text, is before that of `--from`.
    Reversed(&'a str, &'a str),
    /// The value of `--address` is no byte.
    Address(&'a str),
    /// The value of `--function` is no byte.
    Function(&'a str),
    /// The value of `--object` is no object.
    Object(&'a str),
    /// The value of `--only` or `--ignore`, the first text, is no part of a topic.
    Topic(&'static str, &'a str),
    /// Behind `@`, the value of `--pool` has no address that a working set may have, or the terminal's own.
    PoolOwner(&'a str),
    /// The value of `--pool` gives the working set at an address that an earlier one gives.
    PoolTwice(&'a str),
    /// `--owner` is given without a pool that needs it.
    OwnerAlone,
    /// With `--bless`, a log is the standard input, which cannot be written anew.
    BlessedInput,
}

impl fmt::Display for WrongOption<'_> {
    fn fmt<W: fmt::Write>(&self, f: &mut fmt::Formatter<W>) -> fmt::Result {
        match self {
            WrongOption::Own(value) => write!(
                f,
                "--own {value}: expected two hex digits up to FD, such as 26, the address of the recorded terminal"
            ),
            WrongOption::Owner(value) => write!(
                f,
                "--owner {value}: expected two hex digits up to FD, such as 81, but not the terminal's own address"
            ),
            WrongOption::Name(value) => write!(
                f,
                "--name {value}: expected 16 hex digits, such as 20001D0000000001"
            ),
            WrongOption::Wait(value) => write!(
                f,
                "--wait {value}: expected milliseconds, such as 1500, at most 4294967295"
            ),
            WrongOption::Place(option, value) => write!(
                f,
                "--{option} {value}: expected a line, such as 120, or a time in seconds with a point, such as 12.5"
            ),
            WrongOption::Reversed(from, to) => write!(
                f,
                "--to {to}: expected a place that is not before --from {from}"
            ),
            WrongOption::Address(value) => write!(
                f,
                "--address {value}: expected two hex digits, such as 80, or FF for messages to all"
            ),
            WrongOption::Function(value) => write!(
                f,
                "--function {value}: expected two hex digits, such as A0, the first byte of a message"
            ),
            WrongOption::Object(value) => write!(
                f,
                "--object {value}: expected an ID, such as 1000, at most 65534, or a name of --names"
            ),
            WrongOption::Topic(option, value) => write!(
                f,
                "--{option} {value}: expected a function, such as A0, object=ID, such as object=1000, object=NAME with a name of --names, to=AA, such as to=80, or to=all"
            ),
            WrongOption::PoolOwner(value) => write!(
                f,
                "--pool {value}: expected two hex digits up to FD behind @, such as my.iop@81, but not the terminal's own address"
            ),
            WrongOption::PoolTwice(value) => write!(
                f,
                "--pool {value}: another --pool gives the working set at this address; expected the address behind @, such as my.iop@81"
            ),
            WrongOption::OwnerAlone => write!(
                f,
                "--owner is the address of the working set of a pool without @, so both are needed, such as --pool my.iop --owner 81"
            ),
            WrongOption::BlessedInput => write!(
                f,
                "--bless writes the files of the logs anew, so the standard input cannot be one of them"
            ),
        }
    }
}

impl<'a> From<WrongOption<'a>> for UsageError<WrongOption<'a>> {
    fn from(option: WrongOption<'a>) -> Self {
        UsageError::Wrong(option)
    }
}
