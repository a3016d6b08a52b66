//! Wrong options.

use std::fmt;
use vt_cli::UsageError;

/// A wrong option, or one that lacks another.
#[derive(Clone, Copy, PartialEq, Eq)]
pub enum WrongOption<'a> {
    /// The value of `--size` is no width and height.
    Size(&'a str),
    /// The value of `--key-size` is no width and height.
    KeySize(&'a str),
    /// The value of an option that chooses findings is neither a code nor a name, nor an object in brackets.
    Code { option: &'a str, word: &'a str },
    /// `--config` and `--isolated` are given.
    IsolatedConfig,
    /// The value of `--mask` is neither an ID nor `all`.
    Mask(&'a str),
    /// All masks are requested, but not into a folder.
    AllMasks,
    /// There is neither a pool nor a log in its place.
    NoPool,
    /// The value of `--owner` is no address that a working set may have.
    Owner(&'a str),
    /// `--owner` is given without a log, or without a pool.
    OwnerAlone,
    /// The word for the event is neither an object and an event nor an object alone.
    Event(&'a str),
}

impl fmt::Display for WrongOption<'_> {
    fn fmt<W: fmt::Write>(&self, f: &mut fmt::Formatter<W>) -> fmt::Result {
        match self {
            WrongOption::Size(value) => write!(
                f,
                "--size {value}: expected a width and a height, such as 480x480"
            ),
            WrongOption::KeySize(value) => write!(
                f,
                "--key-size {value}: expected a width and a height, such as 64x64"
            ),
            WrongOption::Code { option, word } => write!(
                f,
                "--{option} {word}: expected a code or a name of an error or a warning, such as W02 or Unused, an object, such as [325], or both, such as Unused[325]{}; segyolant rule lists the codes",
                if *option == "deny" {
                    ", or warnings"
                } else {
                    ""
                }
            ),
            WrongOption::IsolatedConfig => write!(
                f,
                "--isolated reads no file of settings; leave out --config or --isolated"
            ),
            WrongOption::Mask(value) => write!(
                f,
                "--mask {value}: expected the ID of a mask, such as 1000, or all"
            ),
            WrongOption::AllMasks => write!(
                f,
                "--mask all draws a file for each mask, so it needs a folder, such as --mask all --out masks"
            ),
            WrongOption::NoPool => write!(
                f,
                "expected a pool, such as segyolant draw my.iop, or a log, such as segyolant draw --state my.log"
            ),
            WrongOption::Owner(value) => write!(
                f,
                "--owner {value}: expected two hex digits up to FD, such as 81, but not 26, the terminal's own address"
            ),
            WrongOption::OwnerAlone => write!(
                f,
                "--owner is the address at which a log finds the pool, so both are needed, such as my.iop --state my.log --owner 81"
            ),
            WrongOption::Event(value) => write!(
                f,
                "{value}: expected an object and an event of it, such as 2002:24 or key_fold:press, or an object alone; events are 0 to 26, or their names in docs/PROFILE.md, \"Event numbers\""
            ),
        }
    }
}

impl<'a> From<WrongOption<'a>> for UsageError<WrongOption<'a>> {
    fn from(option: WrongOption<'a>) -> Self {
        UsageError::Wrong(option)
    }
}
