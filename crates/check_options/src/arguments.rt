//! The arguments of the subcommands.

use vt_cli::{Allowed, Argument, Form};

/// The formats of output.
const FORMATS: &[&str] = &["text", "json", "github", "sarif", "junit"];

/// The terminals for which a pool is checked.
const TERMINALS: &[&str] = &["this", "any"];

/// The formats of output that no workflow reads.
const LINE_FORMATS: &[&str] = &["text", "json"];

pub(crate) const POOLS: Argument<'static> = Argument {
    name: "POOL",
    help: "The files of the pools; - is the standard input",
    form: Form::Positionals,
};

pub(crate) const POOL: Argument<'static> = Argument {
    name: "POOL",
    help: "The file of the pool; - is the standard input",
    form: Form::Positional,
};

/// The pool of a picture.
pub(crate) const DRAWN_POOL: Argument<'static> = Argument {
    name: "POOL",
    help: "The file of the pool; - is the standard input; it may be left out with --state",
    form: Form::OptionalPositional,
};

pub(crate) const OLD: Argument<'static> = Argument {
    name: "OLD",
    help: "The file of the old pool",
    form: Form::Positional,
};

pub(crate) const NEW: Argument<'static> = Argument {
    name: "NEW",
    help: "The file of the new pool",
    form: Form::Positional,
};

pub(crate) const EVENT: Argument<'static> = Argument {
    name: "EVENT",
    help: "An object and an event of it, 0 to 26 or by its name, or an object alone [default: all events]",
    form: Form::NamedPositional("OBJECT:EVENT"),
};

/// The code that is explained.
pub(crate) const CODE: Argument<'static> = Argument {
    name: "CODE",
    help: "The code or the name, such as R04 or WrongKind; left out for a line about each",
    form: Form::OptionalPositional,
};

pub(crate) const NAMES: Argument<'static> = Argument {
    name: "names",
    help: "A file of names: lines ID,NAME or #define NAME ID; may be given again",
    form: Form::RepeatedSetting("FILE"),
};

pub(crate) const FORMAT: Argument<'static> = Argument {
    name: "format",
    help: "Lines for people, lines of JSON, a GitHub workflow's commands, SARIF, or the XML of JUnit [default: text]",
    form: Form::Setting("FORMAT", Allowed::OneOf(FORMATS)),
};

/// The form of lines that no workflow reads.
pub(crate) const LINE_FORMAT: Argument<'static> = Argument {
    name: "format",
    help: "Lines for people, or lines of JSON [default: text]",
    form: Form::Setting("FORMAT", Allowed::OneOf(LINE_FORMATS)),
};

/// The most events of a list.
pub(crate) const MOST_EVENTS: Argument<'static> = Argument {
    name: "most",
    help: "List at most N events",
    form: Form::Setting("N", Allowed::Number),
};

pub(crate) const MOST: Argument<'static> = Argument {
    name: "most",
    help: "Print at most N errors and warnings a pool; the counts stay whole",
    form: Form::Setting("N", Allowed::Number),
};

pub(crate) const DENY: Argument<'static> = Argument {
    name: "deny",
    help: "What is an error: warnings for all of them, or CODE as for --select; may be given again",
    form: Form::RepeatedSetting("WHAT"),
};

pub(crate) const WARN: Argument<'static> = Argument {
    name: "warn",
    help: "What is only a warning: CODE as for --select; may be given again",
    form: Form::RepeatedSetting("CODE"),
};

pub(crate) const SELECT: Argument<'static> = Argument {
    name: "select",
    help: "Only what has this code or name, of this object or both: R03, Missing, Missing[325], [325]; may be given again",
    form: Form::RepeatedSetting("CODE"),
};

pub(crate) const IGNORE: Argument<'static> = Argument {
    name: "ignore",
    help: "Not what has this code or name, of this object or both: W02, Unused, Unused[box], [box]; may be given again",
    form: Form::RepeatedSetting("CODE"),
};

pub(crate) const BASELINE: Argument<'static> = Argument {
    name: "baseline",
    help: "Not what stands in this file, which an earlier check wrote with --format json; - is the standard input",
    form: Form::Setting("FILE", Allowed::Any),
};

pub(crate) const ON: Argument<'static> = Argument {
    name: "on",
    help: "The file of the pool on top of which the others are uploaded, such as those of languages; - is the standard input",
    form: Form::Setting("BASE", Allowed::Any),
};

pub(crate) const FOR: Argument<'static> = Argument {
    name: "for",
    help: "The terminal: this one, or any, without what this one alone asks for [default: this]",
    form: Form::Setting("TERMINAL", Allowed::OneOf(TERMINALS)),
};

pub(crate) const CONFIG: Argument<'static> = Argument {
    name: "config",
    help: "The file of settings [default: segyolant.toml in the folder of the pool, if it is there]",
    form: Form::Setting("FILE", Allowed::Any),
};

pub(crate) const ISOLATED: Argument<'static> = Argument {
    name: "isolated",
    help: "Read no file of settings",
    form: Form::Flag,
};

pub(crate) const SIZE: Argument<'static> = Argument {
    name: "size",
    help: "The terminal's area of a mask, in pixels [default: 480x480]",
    form: Form::Setting("WxH", Allowed::Any),
};

pub(crate) const KEYS: Argument<'static> = Argument {
    name: "keys",
    help: "The terminal's soft keys [default: 64]",
    form: Form::Setting("N", Allowed::Byte),
};

pub(crate) const STATE: Argument<'static> = Argument {
    name: "state",
    help: "Draw what a terminal shows at the end of a log, as candump -L writes it; - is the standard input",
    form: Form::Setting("LOG", Allowed::Any),
};

pub(crate) const OWNER: Argument<'static> = Argument {
    name: "owner",
    help: "The address of the pool's working set in the log, two hex digits up to FD [default: 80]",
    form: Form::Setting("AA", Allowed::Any),
};

pub(crate) const MASK: Argument<'static> = Argument {
    name: "mask",
    help: "The mask that is drawn, or all of them into a folder [default: the active mask; all for a folder]",
    form: Form::Setting("ID|all", Allowed::Any),
};

pub(crate) const KEY_SIZE: Argument<'static> = Argument {
    name: "key-size",
    help: "The terminal's area of a key, in pixels [default: 64x64]",
    form: Form::Setting("WxH", Allowed::Any),
};

pub(crate) const OUT: Argument<'static> = Argument {
    name: "out",
    help: "A file, if PATH ends in .svg, or a folder, which is made if it is not there [default: the standard output]",
    form: Form::Setting("PATH", Allowed::Any),
};
