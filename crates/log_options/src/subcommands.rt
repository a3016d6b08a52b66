//! The whole command line.

use crate::arguments::{
    BLESS, FORMAT, INTERFACE, LOG, LOGS, NAME, NAMES, OWN, OWNER, POOL, POOLS_FOLDER, START_POOLS,
    TEST_FORMAT,
};
use crate::replays::{COMPARE, DRAW, REPORT, STATS, TRACE};
use clap::Command;
use std::alloc::{AllocError, Global};
use vt_cli::{CommandLine, Subcommand};

/// The text of help after the subcommands.
const AFTER_HELP: &str = "\
Status: 0 nothing found, 1 something found, 2 not judged (command line, file or memory)

  segyolant_log pools field.log --out pools --names my.h      every uploaded pool as a file, and what is wrong with it
  segyolant_log operator field.log > replay.log               the log with what the operator did
  segyolant_log trace replay.log --names my.h                 each line in words, what the terminal answers, and what changes
  segyolant_log compare replay.log                            where the recorded terminal answered differently
  segyolant_log draw replay.log --out screens                 a picture after each line at which the screen changed
  segyolant_log stats replay.log                              what the log holds in numbers, and what it reached of each pool
  segyolant_log report replay.log > field.html                one page with all of this, for a browser
  segyolant_log test suite                                    whether each line prints what the lines #< behind it say
  segyolant_log test suite.log --bless                        writes these lines

A log is as candump -L writes it. Lines of candump -ta are read too, and padded names of interfaces. - is the standard input.

docs/LOGS.md has examples.";

/// The text of help after the options of `pools`.
const AFTER_POOLS: &str = "\
A line for each upload and update, from the first piece to its end, and below a refused pool every fault, as segyolant check prints them:

  lines 3 to 14: pool of 80 to 26, 74 bytes in 11 pieces: accepted 7 objects -> pools/80-1.iop
  line 40: transfer of 80 to 26 broken off: 1785 bytes of parameter group E700, packet 7 is missing

Packets that were recorded or sent twice do no harm. If a log has two interfaces of one bus, select one by --interface.
Status: 0 all pools are accepted, 1 some are not, or a transfer or an upload did not end, 2 not judged.";

/// The text of help after the options of `operator`.
const AFTER_OPERATOR: &str = "\
The lines of the log, with ! press, ! release, ! select, ! number and ! text before the terminal's messages that report them. Operator
lines that the log already has are left out. A log does not show which working set the operator chose.

  segyolant_log operator field.log --own 26 > replay.log
  vt_replay replay.log";

/// The text of help after the options of `test`.
const AFTER_TEST: &str = "\
A line #< TEXT is an expectation: the line before it must print TEXT when vt_replay replays the log. Other readers of logs see a comment.
Expectations at the front are those of the first screen. In a line #<? TEXT each ? stands for one byte.

  (2.400000) can0 14E72680#A0640000FFFFFFFF
  #< 14E68026#A064000000FFFFFF

Status: 0 each line prints what is expected of it, 1 some line prints something else, 2 not judged.";

/// The command of `segyolant_log` for `clap`. An error is returned if memory is refused.
///
/// Each subcommand is made in a function of its own, because the whole table is too large for one proof.
pub(crate) fn command<'a>(alloc: Global) -> Result<Command<'a>, AllocError> {
    let command = SEGYOLANT_LOG.command(alloc)?;
    let command = command.subcommand(pools(alloc)?)?;
    let command = command.subcommand(operator(alloc)?)?;
    let command = command.subcommand(trace(alloc)?)?;
    let command = command.subcommand(compare(alloc)?)?;
    let command = command.subcommand(draw(alloc)?)?;
    let command = command.subcommand(stats(alloc)?)?;
    let command = command.subcommand(report(alloc)?)?;
    let command = command.subcommand(test(alloc)?)?;
    Ok(command)
}

/// The command of `segyolant_log` without its subcommands.
const SEGYOLANT_LOG: CommandLine<'static> = CommandLine {
    name: "segyolant_log",
    about: "Examines recorded logs of an ISOBUS: uploaded pools, messages in words, screens, and differences from this terminal",
    after_help: AFTER_HELP,
    subcommands: &[],
};

fn pools<'a>(alloc: Global) -> Result<Command<'a>, AllocError> {
    POOLS.command(alloc)
}

fn operator<'a>(alloc: Global) -> Result<Command<'a>, AllocError> {
    OPERATOR.command(alloc)
}

fn trace<'a>(alloc: Global) -> Result<Command<'a>, AllocError> {
    TRACE.command(alloc)
}

fn compare<'a>(alloc: Global) -> Result<Command<'a>, AllocError> {
    COMPARE.command(alloc)
}

fn draw<'a>(alloc: Global) -> Result<Command<'a>, AllocError> {
    DRAW.command(alloc)
}

fn stats<'a>(alloc: Global) -> Result<Command<'a>, AllocError> {
    STATS.command(alloc)
}

fn report<'a>(alloc: Global) -> Result<Command<'a>, AllocError> {
    REPORT.command(alloc)
}

fn test<'a>(alloc: Global) -> Result<Command<'a>, AllocError> {
    TEST.command(alloc)
}

const POOLS: Subcommand<'static> = Subcommand {
    name: "pools",
    about: "Prints every upload and update of an object pool, and its verdict",
    after_help: Some(AFTER_POOLS),
    arguments: &[LOG, POOLS_FOLDER, NAMES, INTERFACE, FORMAT],
};

const OPERATOR: Subcommand<'static> = Subcommand {
    name: "operator",
    about: "Prints a log with the operator's actions, as the recorded terminal reported them",
    after_help: Some(AFTER_OPERATOR),
    arguments: &[LOG, INTERFACE, OWN, FORMAT],
};

const TEST: Subcommand<'static> = Subcommand {
    name: "test",
    about: "Replays logs, and compares what each line prints with the expectations in the log",
    after_help: Some(AFTER_TEST),
    arguments: &[
        LOGS,
        BLESS,
        TEST_FORMAT,
        OWN,
        NAME,
        POOL,
        OWNER,
        START_POOLS,
    ],
};
