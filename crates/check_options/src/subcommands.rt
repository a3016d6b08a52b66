//! The command line of the program, for `clap`.

use crate::arguments::{
    BASELINE, CODE, CONFIG, DENY, DRAWN_POOL, EVENT, FOR, FORMAT, IGNORE, ISOLATED, KEY_SIZE, KEYS,
    LINE_FORMAT, MASK, MOST, MOST_EVENTS, NAMES, NEW, OLD, ON, OUT, OWNER, POOL, POOLS, SELECT,
    SIZE, STATE, WARN,
};
use vt_cli::{CommandLine, Subcommand};

/// The text of help after the subcommands.
const AFTER_HELP: &str = "\
Status: 0 nothing found, 1 something found, 2 not judged or not drawn (command line, file, memory, or a pool that the subcommand cannot take)

  segyolant check my.iop                                every fault, and warnings
  segyolant check my.iop --names my.h --format github   the same, by names, for a workflow
  segyolant check *.iop --format json --most 100        lines of JSON, at most 100 errors and warnings a pool
  segyolant rule R04                                    what a code means, and the cure
  segyolant why my.iop --most 5                         the five events that can cost the most steps
  segyolant why my.iop key_fold:press --names my.h      what the press of a key can cost, and why
  segyolant needs my.iop --size 240x240 --keys 6        which objects need the most, and whether the pool fits
  segyolant diff old.iop new.iop                        what is removed, changed and added
  segyolant draw my.iop > my.svg                        the active mask with its soft keys, as SVG
  segyolant draw my.iop --out masks --names my.h        all masks, and a page of them with every fault
  segyolant draw my.iop --state my.log > my.svg         the mask that is shown at the end of a log
  segyolant report my.iop --names my.h > my.html        a page for a browser, with all of this

docs/POOLS.md has the codes.";

/// The text of help after the options of `check`.
const AFTER_CHECK: &str = "\
A line for each finding, FILE:OFFSET: SEVERITY[CODE NAME] SENTENCE:

  my.iop:598: error[R03 Missing] Output Number 341 `tank_value`: font names object 104, which is not there

  segyolant check my.iop --deny warnings --ignore Unused
  segyolant check my.iop --deny W10 --warn Scale --ignore 'Unused[325]'
  segyolant check my.iop --format json > known.json    later, with --baseline known.json, only what is new is told
  segyolant check my.iop --size 240x240 --keys 6
  segyolant check german.iop --on my.iop
  segyolant check my.iop --for any                     without what only this terminal asks for, such as its scales
  cat my.iop | segyolant check -";

/// The text of help after the options of `rule`.
const AFTER_RULE: &str = "\
Without a code, a line for each.

  segyolant rule R04
  segyolant rule WrongKind";

/// The text of help after the options of `why`.
const AFTER_WHY: &str = "\
Without an event, the events that can cost a step, the dearest first. With one, the event with its macros, then each macro that it can
run, with its commands and the events that they raise. Each number is the sum of the numbers below it, plus one for a command, up to
1000000000000. An object is its ID, or its name in a file of --names; the words of an event's name may be joined by - or _.

  segyolant why my.iop
  segyolant why my.iop 2002 --most 3
  segyolant why my.iop 2002:24
  segyolant why my.iop key_fold:key-press --names my.h";

/// The text of help after the options of `draw`.
const AFTER_DRAW: &str = "\
A pool with errors is drawn as far as it can be read. A folder gets a picture ID.svg of each mask, and index.html with all of them and
the lines of check. A log is replayed by the terminal of vt_replay. Status: 0 drawn, 1 drawn but the pool has errors, 2 not drawn.

  segyolant draw my.iop > my.svg                        the active mask
  segyolant draw my.iop --mask 2000 --out alarm.svg     another
  segyolant draw my.iop --out masks --names my.h        all, with masks/index.html
  segyolant draw my.iop --state my.log > my.svg         what is shown at the end of a log, with the pool at address 80
  segyolant draw --state my.log > my.svg                the same with the pools that the log uploads alone
  segyolant draw my.iop --size 240x240 --key-size 60x60 > small.svg";

/// The text of help after the options of `report`.
const AFTER_REPORT: &str = "\
One page of HTML on the standard output, which needs no network: the masks and keys as pictures, the lines of check beside them, all objects
with their parents and children, what events cost, and what the pool needs of a terminal. A pool with errors has a page of what could be read.

  segyolant report my.iop > my.html
  segyolant report my.iop --names my.h --size 240x240 --key-size 60x60 --keys 6 > small.html

The page has at most 200 masks, 2,000 keys, 50,000 objects and 20,000 findings. Files of settings are not read.
Status: 0 no errors, 1 the pool has errors, 2 there is no page, or it is not whole.";

/// The command line.
pub(crate) const SEGYOLANT: CommandLine<'static> = CommandLine {
    name: "segyolant",
    about: "Checks object pools for makers of ISOBUS implements: every fault at once, with its place and its cause",
    after_help: AFTER_HELP,
    subcommands: &[CHECK, RULE, WHY, NEEDS, DIFF, DRAW, REPORT],
};

const CHECK: Subcommand<'static> = Subcommand {
    name: "check",
    about: "Prints every fault of object pools, and warnings",
    after_help: Some(AFTER_CHECK),
    arguments: &[
        POOLS, NAMES, ON, FORMAT, MOST, SELECT, IGNORE, DENY, WARN, BASELINE, FOR, SIZE, KEY_SIZE,
        KEYS, CONFIG, ISOLATED,
    ],
};

const RULE: Subcommand<'static> = Subcommand {
    name: "rule",
    about: "Explains a code of check: its cause, its cure and an example",
    after_help: Some(AFTER_RULE),
    arguments: &[CODE],
};

const WHY: Subcommand<'static> = Subcommand {
    name: "why",
    about: "Prints the steps that an event of an object pool can take, by macros and commands",
    after_help: Some(AFTER_WHY),
    arguments: &[POOL, EVENT, NAMES, MOST_EVENTS, LINE_FORMAT],
};

const NEEDS: Subcommand<'static> = Subcommand {
    name: "needs",
    about: "Prints what an object pool needs of a terminal, which objects need it, and whether a terminal has it",
    after_help: None,
    arguments: &[POOL, NAMES, SIZE, KEYS, LINE_FORMAT],
};

const DIFF: Subcommand<'static> = Subcommand {
    name: "diff",
    about: "Compares two object pools by the IDs of their objects, field by field",
    after_help: None,
    arguments: &[OLD, NEW, NAMES, LINE_FORMAT],
};

const DRAW: Subcommand<'static> = Subcommand {
    name: "draw",
    about: "Draws masks of an object pool with their soft keys, as SVG",
    after_help: Some(AFTER_DRAW),
    arguments: &[DRAWN_POOL, NAMES, STATE, OWNER, MASK, SIZE, KEY_SIZE, OUT],
};

const REPORT: Subcommand<'static> = Subcommand {
    name: "report",
    about: "Writes a page for a browser, with the masks of an object pool, its findings, objects, costs and needs",
    after_help: Some(AFTER_REPORT),
    arguments: &[POOL, NAMES, SIZE, KEY_SIZE, KEYS],
};
