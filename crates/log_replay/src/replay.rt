//! A log with all that its replay needs.

use crate::claims::Recorded;
use crate::in_order::{InOrder, ReplayPass};
use crate::log::Log;
use crate::messages::Messages;
use crate::start::{LoadedSet, new_terminal, read_sets};
use check_text::Names;
use log_options::{ReplayOptions, TerminalOptions};
use log_order::Sorter;
use std::alloc::Global;
use std::io::{self, Write};
use vt_cli::{Open, Program, read_names};
use vt_names::TERMINAL_NAME;
use vt_server::Terminal;

/// A log with all that its replay needs.
#[derive(Drop)]
pub struct Replay<'a> {
    alloc: Global,
    options: TerminalOptions,
    sets: Vec<LoadedSet>,
    /// The log.
    pub log: Log<'a>,
    /// The names of objects.
    pub names: Names,
    /// What the log says about the recorded terminal.
    pub recorded: Recorded,
}

impl<'a> Replay<'a> {
    /// Reads the files of a replay. `None` if one cannot be read or is refused: then `errors` receives the reason.
    pub fn read<F: Open, E: Messages>(
        alloc: Global,
        options: &ReplayOptions<'a>,
        files: &mut F,
        errors: &mut E,
    ) -> io::Result<Option<Replay<'a>>> {
        let Some(log) = Log::open(alloc, options.log, options.interface, files, errors)? else {
            return Ok(None);
        };
        let own = options.terminal.own;
        match Recorded::in_log(alloc, &log, own, files, errors)? {
            Some(recorded) => Replay::of_log(alloc, options, log, recorded, files, errors),
            None => Ok(None),
        }
    }

    /// As `read`, but if the log is the standard input, it is not read before the pass over it, which takes its lines as they come. Then
    /// nothing is known of the recorded terminal.
    pub fn follow<F: Open, E: Messages>(
        alloc: Global,
        options: &ReplayOptions<'a>,
        files: &mut F,
        errors: &mut E,
    ) -> io::Result<Option<Replay<'a>>> {
        if options.log != "-" {
            return Replay::read(alloc, options, files, errors);
        }
        let log = Log::input(alloc, options.interface);
        let recorded = Recorded::unknown(alloc);
        Replay::of_log(alloc, options, log, recorded, files, errors)
    }

    /// A replay of a log, with the other files that it needs.
    fn of_log<F: Open, E: Write>(
        alloc: Global,
        options: &ReplayOptions<'a>,
        log: Log<'a>,
        recorded: Recorded,
        files: &mut F,
        errors: &mut E,
    ) -> io::Result<Option<Replay<'a>>> {
        let Some(names) = read_names(alloc, options.names.as_slice(), files, errors)? else {
            return Ok(None);
        };
        let own = options.terminal.own;
        let Some(sets) = read_sets(alloc, &options.start, own, files, errors)? else {
            return Ok(None);
        };
        Ok(Some(Replay {
            alloc,
            options: options.terminal,
            sets,
            log,
            names,
            recorded,
        }))
    }

    /// The address of the terminal.
    pub fn own(&self) -> u8 {
        self.options.own
    }

    /// The NAME of the terminal.
    fn name(&self) -> u64 {
        let given = self.options.name.or(self.recorded.name);
        given.unwrap_or(TERMINAL_NAME)
    }

    /// The terminal before the first line. Its NAME is that of the recorded terminal, unless the options give another.
    pub fn terminal(&self) -> io::Result<Terminal> {
        let sets = self.sets.as_slice();
        new_terminal(self.alloc, self.options, self.recorded.name, sets)
    }

    /// Whether a node has a pool from the start.
    pub fn has_pool_of(&self, source: u8) -> bool {
        self.sets.iter().any(|set| set.owner == source)
    }

    /// Gives each line to `pass`, with the packets of messages to the recorded terminal in order. Then writes to `errors` what a pass over
    /// the log does, how many packets were not in order, and which messages this terminal does not receive. Returns whether a frame was
    /// read, and the log to its end; if it was not, `errors` receives the reason.
    pub fn pass<P: ReplayPass<F, W, E>, F: Open, W: Write, E: Messages>(
        &self,
        pass: &mut P,
        files: &mut F,
        out: &mut W,
        errors: &mut E,
    ) -> io::Result<bool> {
        let recorded = &self.recorded;
        let sorter = Sorter::new(self.alloc, self.own(), self.name(), &recorded.endings);
        let mut in_order = InOrder::new(pass, sorter);
        let has_frames = self.log.pass(&mut in_order, files, out, errors)?;
        in_order.tell(self.log.path(), recorded.has_messages, files, errors)?;
        Ok(has_frames)
    }

    /// Writes to `errors` that the terminal has lost its address, if it has.
    pub fn tell_loss<F: Program, E: Write>(&self, terminal: &Terminal, files: &F, errors: &mut E) {
        tell_loss(self.log.path(), self.options.own, terminal, files, errors);
    }
}

/// Writes to `errors` that the terminal lost its address, if it did. Returns whether it did.
pub fn tell_loss<F: Program, E: Write>(
    path: &str,
    own: u8,
    terminal: &Terminal,
    files: &F,
    errors: &mut E,
) -> bool {
    let is_lost = terminal.is_lost();
    if is_lost {
        let _ = writeln!(
            errors,
            "{}: {path}: the terminal lost its address {own:02X} to a lower NAME, and was silent from then on; --name gives it another NAME",
            files.name()
        );
    }
    is_lost
}
