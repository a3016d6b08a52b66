//! The subcommands that have the arguments of a replay: `trace`, `compare`, `draw`, `stats` and `report`.

use crate::arguments::{
    ADDRESS, FORMAT, FROM, FUNCTION, IGNORE, INTERFACE, LOG, NAMES, OBJECT, ONLY, OWN, OWNER,
    PICTURES_FOLDER, POOL, RECORDED_NAME, START_POOLS, TIMES, TO, WAIT,
};
use vt_cli::Subcommand;

/// The text of help after the options of `trace`.
const AFTER_TRACE: &str = "\
A line for each frame and each action of the operator, in words. Below it is what the terminal sends, as vt_replay prints it, and the
lines of its screen that are removed (-) and added (+):

  17 2.400000 80 to 26: Hide/Show Object: Container 100 `boom`, hide
      14E68026#A064000000FFFFFF  26 to 80: Hide/Show Object: done
    - container 100 10 5 50x20

Filters print only some lines, each with all that is below it. The terminal receives every line. With several of --address, --function
and --object a line is printed if one message at it, of the log or of this terminal, fits all of them.";

/// The text of help after the options of `compare`.
const AFTER_COMPARE: &str = "\
This terminal replays the log. For each address, function and object, its messages are compared with those of the recorded terminal,
in their order. An answer that differs, that is late, or that only one of the two sent, is printed:

  line 43: 5.200000 to 80: Hide/Show Object 100: ours A064000000FFFFFF error 00 (done), recorded A064000002FFFFFF error 02
  (refused: the object is not there or of another kind) at line 44

Transport control and claims are not compared. The log should have the operator's actions: segyolant_log operator adds them. What this
terminal never sends, such as the repeats of a held key, and the values of another screen are left out, and counted. A difference is
printed if it fits one of --only, if some are given, and none of --ignore, and is in the range of --from and --to; the others are counted.
Status: 0 all answers are the same, 1 some are not, 2 not judged.";

/// The text of help after the options of `draw`.
const AFTER_DRAW: &str = "\
The first screen becomes FOLDER/line-0.svg, and the screen after each line that changed its text becomes FOLDER/line-17.svg, by the
number of the line. Each is named on the standard output. A screen without a mask has no picture. With --from the first picture is that
of the screen at that place. Filters draw only at some lines, as those of trace; the terminal receives every line.";

/// The text of help after the options of `stats`.
const AFTER_STATS: &str = "\
Frames, bytes and load by source, transfers, repeated packets, and frames that were recorded twice; then, for each working set with a
pool, its commands, and which of its masks, objects and macros the log reached; then the busiest second, frames by parameter group,
messages by function, gaps of the terminal's status and of the implements' maintenance, answer times, what is missing of transfers, and
steps of the clock. With --format json each is a line of JSON.";

/// The text of help after the options of `report`.
const AFTER_REPORT: &str = "\
One page of HTML on the standard output, which needs no network: the time line of the log, the pictures of the screens, to be played and
stepped through, the words of each line beside them, differences, gaps, and the pools with their findings.

  segyolant_log operator field.log > replay.log
  segyolant_log report replay.log --names my.h > field.html

The page has at most 50,000 lines of the log and 1,000 pictures, from --from on; --from and --to choose others.
Status: 0 the page is written, 2 not judged.";

pub(crate) const TRACE: Subcommand<'static> = Subcommand {
    name: "trace",
    about: "Prints each line of a log in words, with the answers of a terminal and the changes of its screen",
    after_help: Some(AFTER_TRACE),
    arguments: &[
        NAMES,
        FROM,
        TO,
        ADDRESS,
        FUNCTION,
        OBJECT,
        FORMAT,
        LOG,
        INTERFACE,
        OWN,
        RECORDED_NAME,
        POOL,
        OWNER,
        START_POOLS,
    ],
};

pub(crate) const COMPARE: Subcommand<'static> = Subcommand {
    name: "compare",
    about: "Prints where the terminal in a log answered differently from this one",
    after_help: Some(AFTER_COMPARE),
    arguments: &[
        NAMES,
        WAIT,
        TIMES,
        ONLY,
        IGNORE,
        FROM,
        TO,
        FORMAT,
        LOG,
        INTERFACE,
        OWN,
        RECORDED_NAME,
        POOL,
        OWNER,
        START_POOLS,
    ],
};

pub(crate) const DRAW: Subcommand<'static> = Subcommand {
    name: "draw",
    about: "Draws the screen after each line of a log that changed it",
    after_help: Some(AFTER_DRAW),
    arguments: &[
        PICTURES_FOLDER,
        NAMES,
        FROM,
        TO,
        ADDRESS,
        FUNCTION,
        OBJECT,
        FORMAT,
        LOG,
        INTERFACE,
        OWN,
        RECORDED_NAME,
        POOL,
        OWNER,
        START_POOLS,
    ],
};

pub(crate) const STATS: Subcommand<'static> = Subcommand {
    name: "stats",
    about: "Prints a log in numbers, and what it reached of each pool",
    after_help: Some(AFTER_STATS),
    arguments: &[
        NAMES,
        FORMAT,
        LOG,
        INTERFACE,
        OWN,
        RECORDED_NAME,
        POOL,
        OWNER,
        START_POOLS,
    ],
};

pub(crate) const REPORT: Subcommand<'static> = Subcommand {
    name: "report",
    about: "Writes a page for a browser, with the screens of a log in time, its lines in words, differences and pools",
    after_help: Some(AFTER_REPORT),
    arguments: &[
        NAMES,
        FROM,
        TO,
        WAIT,
        LOG,
        INTERFACE,
        OWN,
        RECORDED_NAME,
        POOL,
        OWNER,
        START_POOLS,
    ],
};
