//! Arguments of a subcommand.

use clap::{Arg, ArgAction, value_parser};
use std::alloc::Global;

/// An argument of a subcommand.
#[derive(Clone, Copy)]
pub struct Argument<'a> {
    /// The name of the argument, by which `ArgMatches` has its value. A setting or a flag is `--` and this name. The help uses it for a
    /// positional argument, unless the argument's form gives another name.
    pub name: &'a str,
    /// What the argument is for, in a line of the help.
    pub help: &'a str,
    /// How the argument is given.
    pub form: Form<'a>,
}

/// How an argument is given.
#[derive(Clone, Copy)]
pub enum Form<'a> {
    /// One value without `--`, which has to be given.
    Positional,
    /// One value without `--`, which may be left out.
    OptionalPositional,
    /// One value without `--`, which may be left out. The text is its name in the help.
    NamedPositional(&'a str),
    /// One or more values without `--`.
    Positionals,
    /// `--name VALUE`, at most once, with an allowed value. The text is the value's name in the help.
    Setting(&'a str, Allowed<'a>),
    /// `--name VALUE`, exactly once, with any text. The text here is the value's name in the help.
    RequiredSetting(&'a str),
    /// `--name VALUE`, any number of times, each with any text. The text here is the value's name in the help.
    RepeatedSetting(&'a str),
    /// `--name` alone.
    Flag,
}

/// The values that a setting may have.
#[derive(Clone, Copy)]
pub enum Allowed<'a> {
    /// Any text.
    Any,
    /// One of these texts.
    OneOf(&'a [&'a str]),
    /// A decimal number from 0 to 255, which `ArgMatches::get_one::<u8>` returns.
    Byte,
    /// A decimal number from 0 to 4294967295, which `ArgMatches::get_one::<u32>` returns.
    Number,
}

impl<'a> Argument<'a> {
    /// The argument for `clap`.
    pub(crate) fn arg(&self, alloc: Global) -> Arg<'a> {
        let arg = Arg::new(alloc, self.name).help(self.help);
        match self.form {
            Form::Positional => arg.action(ArgAction::Set).required(true),
            Form::OptionalPositional => arg.action(ArgAction::Set),
            Form::NamedPositional(name) => arg.value_name(name).action(ArgAction::Set),
            Form::Positionals => arg.action(ArgAction::Append).num_args(1..).required(true),
            Form::Setting(name, allowed) => restricted(self.setting(arg, name), allowed),
            Form::RequiredSetting(name) => self.setting(arg, name).required(true),
            Form::RepeatedSetting(name) => self.setting(arg, name).action(ArgAction::Append),
            Form::Flag => arg.long(self.name).action(ArgAction::SetTrue),
        }
    }

    /// The argument with a value behind `--name`.
    fn setting(&self, arg: Arg<'a>, value_name: &'a str) -> Arg<'a> {
        arg.long(self.name)
            .value_name(value_name)
            .action(ArgAction::Set)
    }
}

/// The argument, which takes the allowed values alone.
fn restricted<'a>(arg: Arg<'a>, allowed: Allowed<'a>) -> Arg<'a> {
    match allowed {
        Allowed::Any => arg,
        Allowed::OneOf(texts) => arg.value_parser(texts),
        Allowed::Byte => arg.value_parser(value_parser!(u8)),
        Allowed::Number => arg.value_parser(value_parser!(u32)),
    }
}
