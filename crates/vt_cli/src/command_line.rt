//! Command lines and their subcommands.

use crate::argument::Argument;
use clap::Command;
use std::alloc::{AllocError, Global};

/// The version of the programs.
pub const VERSION: &str = "0.2.0";

/// The command line of a program with subcommands, of which one has to be given.
pub struct CommandLine<'a> {
    /// The name of the program.
    pub name: &'a str,
    /// What the program is for, in a line of its help.
    pub about: &'a str,
    /// The text of the help after the subcommands.
    pub after_help: &'a str,
    /// The subcommands, in the order of the help.
    pub subcommands: &'a [Subcommand<'a>],
}

/// A subcommand.
pub struct Subcommand<'a> {
    /// The name of the subcommand.
    pub name: &'a str,
    /// What the subcommand does, in a line of the help.
    pub about: &'a str,
    /// The text of its help after the arguments.
    pub after_help: Option<&'a str>,
    /// The arguments: positional ones in the order in which they are given, settings and flags in the order of the help.
    pub arguments: &'a [Argument<'a>],
}

impl<'a> CommandLine<'a> {
    /// The command of the program for `clap`. Without arguments it shows the help, and with some but no subcommand it is refused. An
    /// error is returned if memory is refused.
    pub fn command(&self, alloc: Global) -> Result<Command<'a>, AllocError> {
        let mut command = Command::new(alloc, self.name)
            .version(VERSION)
            .about(self.about)
            .after_help(self.after_help)
            .subcommand_required(true)
            .arg_required_else_help(true);
        for subcommand in self.subcommands {
            command = command.subcommand(subcommand.command(alloc)?)?;
        }
        Ok(command)
    }
}

impl<'a> Subcommand<'a> {
    /// The command of the subcommand for `clap`. An error is returned if memory is refused.
    pub fn command(&self, alloc: Global) -> Result<Command<'a>, AllocError> {
        let mut command = Command::new(alloc, self.name).about(self.about);
        if let Some(after_help) = self.after_help {
            command = command.after_help(after_help);
        }
        for argument in self.arguments {
            command = command.arg(argument.arg(alloc))?;
        }
        Ok(command)
    }
}
