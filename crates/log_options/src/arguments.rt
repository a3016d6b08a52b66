//! The arguments of the subcommands.

use vt_cli::{Allowed, Argument, Form};

/// The formats of output.
const FORMATS: &[&str] = &["text", "json"];

/// The formats of the output of `test`.
const TEST_FORMATS: &[&str] = &["text", "json", "junit"];

pub(crate) const LOG: Argument<'static> = Argument {
    name: "LOG",
    help: "The file of the log; - is the standard input",
    form: Form::Positional,
};

pub(crate) const LOGS: Argument<'static> = Argument {
    name: "LOG",
    help: "The files of the logs; a folder stands for the files in it whose names end in .log",
    form: Form::Positionals,
};

/// The folder for pools.
pub(crate) const POOLS_FOLDER: Argument<'static> = Argument {
    name: "out",
    help: "A folder for the pools, which is made if it is not there [default: write none]",
    form: Form::Setting("FOLDER", Allowed::Any),
};

/// The folder for pictures.
pub(crate) const PICTURES_FOLDER: Argument<'static> = Argument {
    name: "out",
    help: "A folder for the pictures, which is made if it is not there",
    form: Form::RequiredSetting("FOLDER"),
};

pub(crate) const NAMES: Argument<'static> = Argument {
    name: "names",
    help: "A file of names: lines ID,NAME or #define NAME ID; may be given again",
    form: Form::RepeatedSetting("FILE"),
};

pub(crate) const INTERFACE: Argument<'static> = Argument {
    name: "interface",
    help: "Only the frames of this interface, such as can0 [default: all are one bus]",
    form: Form::Setting("NAME", Allowed::Any),
};

pub(crate) const FORMAT: Argument<'static> = Argument {
    name: "format",
    help: "Lines for people, or lines of JSON [default: text]",
    form: Form::Setting("FORMAT", Allowed::OneOf(FORMATS)),
};

/// The format of the output of `test`.
pub(crate) const TEST_FORMAT: Argument<'static> = Argument {
    name: "format",
    help: "Lines for people, lines of JSON, or a report of JUnit in XML [default: text]",
    form: Form::Setting("FORMAT", Allowed::OneOf(TEST_FORMATS)),
};

pub(crate) const WAIT: Argument<'static> = Argument {
    name: "wait",
    help: "How long an answer may take, in milliseconds [default: 1500]",
    form: Form::Setting("MS", Allowed::Any),
};

/// What the log tells of the recorded terminal's times.
pub(crate) const TIMES: Argument<'static> = Argument {
    name: "times",
    help: "Also print the recorded terminal's answer times, gaps over 3 s, and what is missing of its transfers",
    form: Form::Flag,
};

/// The first line of the printed ones.
pub(crate) const FROM: Argument<'static> = Argument {
    name: "from",
    help: "Only from this line on, such as 120, or from this time on in seconds with a point, such as 12.5 [default: from the beginning]",
    form: Form::Setting("PLACE", Allowed::Any),
};

/// The last line of the printed ones.
pub(crate) const TO: Argument<'static> = Argument {
    name: "to",
    help: "Only up to this line, or up to this time [default: to the end]",
    form: Form::Setting("PLACE", Allowed::Any),
};

/// The differences that are reported.
pub(crate) const ONLY: Argument<'static> = Argument {
    name: "only",
    help: "Only differences on this function, such as A0, on object=ID or object=NAME, or to=AA; may be given again",
    form: Form::RepeatedSetting("TOPIC"),
};

/// The differences that are not reported.
pub(crate) const IGNORE: Argument<'static> = Argument {
    name: "ignore",
    help: "No differences on this function, on object=ID or object=NAME, or to=AA; may be given again",
    form: Form::RepeatedSetting("TOPIC"),
};

/// The addresses of the printed messages.
pub(crate) const ADDRESS: Argument<'static> = Argument {
    name: "address",
    help: "Only lines with a message from or to this address, two hex digits, FF for all; may be given again",
    form: Form::RepeatedSetting("AA"),
};

/// The functions of the printed messages.
pub(crate) const FUNCTION: Argument<'static> = Argument {
    name: "function",
    help: "Only lines with a message of this function, two hex digits, such as A0; may be given again",
    form: Form::RepeatedSetting("FF"),
};

/// The objects of the printed messages.
pub(crate) const OBJECT: Argument<'static> = Argument {
    name: "object",
    help: "Only lines with a message that names this object, by its ID or a name of --names; may be given again",
    form: Form::RepeatedSetting("ID"),
};

pub(crate) const OWN: Argument<'static> = Argument {
    name: "own",
    help: "The terminal's address, two hex digits up to FD [default: 26]",
    form: Form::Setting("AA", Allowed::Any),
};

/// The NAME of the terminal in a replay. If it is not given, the NAME of the terminal's claim in the log is used.
pub(crate) const RECORDED_NAME: Argument<'static> = Argument {
    name: "name",
    help: "The terminal's NAME, 16 hex digits [default: that of its claim in the log, or else 20001D0000000001]",
    form: Form::Setting("N", Allowed::Any),
};

/// The NAME of the terminal in `test`, which reads no NAME from a log.
pub(crate) const NAME: Argument<'static> = Argument {
    name: "name",
    help: "The terminal's NAME, 16 hex digits [default: 20001D0000000001]",
    form: Form::Setting("N", Allowed::Any),
};

pub(crate) const POOL: Argument<'static> = Argument {
    name: "pool",
    help: "An object pool that is there from the start, and behind @ the address of its working set; may be given again",
    form: Form::RepeatedSetting("FILE[@AA]"),
};

/// The folder of pools that are there from the start.
pub(crate) const START_POOLS: Argument<'static> = Argument {
    name: "pools",
    help: "A folder of pools that are there from the start: of each address AA, the last file AA-1.iop, AA-2.iop, .. that is accepted",
    form: Form::Setting("FOLDER", Allowed::Any),
};

pub(crate) const OWNER: Argument<'static> = Argument {
    name: "owner",
    help: "The address of the working set of a --pool without @, two hex digits up to FD [default: 80]",
    form: Form::Setting("AA", Allowed::Any),
};

pub(crate) const BLESS: Argument<'static> = Argument {
    name: "bless",
    help: "Write each log anew, with the expectations that it meets",
    form: Form::Flag,
};
