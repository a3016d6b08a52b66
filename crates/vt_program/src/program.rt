//! A run of the program, from its words to its status.

ghost use Rattle.std.specs.Prelude.{◌≡◌, ◌≢◌, ◌≤◌, ℕ, List, Option, Some, None, IfOk, IfErr, IfSome, OnOk, OnErr, map};
ghost use Rattle.std.specs.FinMap as finite;
ghost use Rattle.vt_names.specs.Registry.{set_at};
ghost use Rattle.std.specs.Io.KnownBytes.{Keeps};
ghost use Rattle.vt_program.specs.declared.fault.Fault.TheVariants.{Memory};
ghost use Rattle.vt_program.specs.Words.{HasValidAddresses, status_code};
ghost use Rattle.vt_program.specs.Runs.{EndsWithStatus, EndsBy, EndsReport, FailsReplay, HasPoolToPrint, HasReplayed, HasToPrint, IsAcceptedPoolOf, IsFaultOfPool, IsFileFault, IsLoaded, IsPoolFileFault, IsPrinted, IsReplayFault, IsReportOf, PrintsFault, new_state};
ghost use Rattle.vt_pool.specs.Pools.{contents};
ghost use Rattle.vt_server.specs.States.{state_of};

use crate::fault::Fault;
use crate::messages::{print_loss, print_notes, print_replay_fault};
use crate::options::{Options, Preload, UsageError};
use crate::pool_sentences::{FaultSentence, Named, RefusalSentence};
use crate::sentences::ReplaySentence;
use std::alloc::Global;
use std::convert::AsStr;
use std::io::{self, Read, Write};
use vt_cli::Open;
use vt_judge::{NotAccepted, judge};
use vt_kinds::{Kind, ObjectId};
use vt_logs::{Notes, ReplayFault, Sink, Stream, replay_with_notes};
use vt_pool::{Pool, PoolFault, read_pool};
use vt_server::Terminal;
use vt_verify::Accepted;

/// The status with which a run ends.
#[derive(Clone, Copy, PartialEq, Eq)]
pub enum Status {
    /// The log was replayed, or a report or help was printed.
    Done,
    /// A file, the pool or the replay has a fault.
    Fault,
    /// The words are refused.
    Usage,
}

impl Status {
    /// The exit status of the process.
    pub fn code(self) -> u8
        ensures { result ≡ status_code self }
    {
        match self {
            Status::Done => 0,
            Status::Fault => 1,
            Status::Usage => 2,
        }
    }
}

/// Facts for messages: the files, the lines of the log that were taken, and whether a report was asked for.
#[derive(Clone, Copy)]
struct About<'a> {
    pool: &'a str,
    log: &'a str,
    lines: u64,
    in_report: bool,
}

/// Runs the program on its words, of which the first is its name. The fault or the refusal of a pool is printed to `out`. A
/// sentence is printed to `errors` for each fault, for the faulty lines of a log and for refused actions of the operator; the
/// status is the same if that cannot be written.
pub fn run<S: AsStr, F: Open, W: Sink, E: Write>(
    alloc: Global,
    words: &[S],
    files: &mut F,
    out: &mut W,
    errors: &mut E,
) -> io::Result<Status>
    ensures ends { IfOk result (EndsWithStatus (map S.text words.now) (F.file files.old) (W.contents out.old) (W.contents out.new)) }
    // A run returns an error only where it has to print help, a report, or the fault or the refusal of a pool.
    ensures fails { OnErr result (HasToPrint (map S.text words.now) (F.file files.old)) }
{
    let options = match Options::parse(alloc, words) {
        Ok(options) => options,
        Err(refusal) => return refuse(&refusal, out, errors),
    };
    if options.report {
        return print_report(alloc, options.file, files, out, errors);
    }
    let mut notes = Notes::new();
    let mut is_lost = false;
    let result = replay_log(alloc, &options, files, out, &mut notes, &mut is_lost);
    print_notes(&notes, options.file, errors);
    print_loss(is_lost, options.file, options.own, errors);
    match result {
        Ok(()) => Ok(Status::Done),
        Err(fault) => {
            let about = About {
                pool: options.preload.as_ref().map_or("", |preload| preload.pool),
                log: options.file,
                lines: notes.lines,
                in_report: false,
            };
            print_fault(&fault, &about, out, errors)
        }
    }
}

fn refuse<W: Sink, E: Write>(
    refusal: &UsageError,
    out: &mut W,
    errors: &mut E,
) -> io::Result<Status>
    ensures status { IfOk result (EndsBy refusal.now) }
    ensures out { IfOk result (λ status. status ≢ Status.Done → Keeps (W.contents out.old) (W.contents out.new)) }
    // An error is returned only where help or the version is printed.
    ensures fails { OnErr result (EndsBy refusal.now Status.Done) }
{
    let status = match refusal {
        UsageError::Words(error) if !error.use_stderr() => {
            write!(out, "{refusal}")?;
            out.flush()?;
            return Ok(Status::Done);
        }
        UsageError::Memory => Status::Fault,
        UsageError::Words(_)
        | UsageError::Address { .. }
        | UsageError::Name(_)
        | UsageError::OwnerIsOwn(_)
        | UsageError::Alone => Status::Usage,
    };
    let _ = write!(errors, "{refusal}");
    Ok(status)
}

/// Prints the fault or the refusal of a pool to `out`, and a sentence on any fault to `errors`.
fn print_fault<W: Sink, E: Write>(
    fault: &Fault<'_>,
    about: &About<'_>,
    out: &mut W,
    errors: &mut E,
) -> io::Result<Status>
    ensures status { IfOk result (λ status. status ≡ Status.Fault) }
    ensures prints { OnOk result (PrintsFault fault.now (W.contents out.old) (W.contents out.new)) }
    ensures fails { OnErr result (IsPrinted fault.now) }
{
    match fault {
        Fault::Pool(fault) => {
            writeln!(out, "{fault}")?;
            out.flush()?;
            let sentence = FaultSentence {
                fault,
                in_report: about.in_report,
            };
            let _ = writeln!(errors, "vt_replay: {}: {sentence}", about.pool);
        }
        Fault::Refused { why, named } => {
            writeln!(out, "{why}")?;
            out.flush()?;
            let sentence = RefusalSentence {
                refusal: why,
                named: *named,
            };
            let _ = writeln!(errors, "vt_replay: {}: {sentence}", about.pool);
        }
        Fault::Replay { why, cause } => {
            let sentence = ReplaySentence {
                why: *why,
                log: about.log,
                lines: about.lines,
            };
            match why {
                ReplayFault::Read => print_replay_fault(&sentence, cause.as_ref(), errors),
                ReplayFault::Write => print_replay_fault(&sentence, out.cause(), errors),
                ReplayFault::Memory | ReplayFault::TooLong => {
                    print_replay_fault(&sentence, None, errors);
                }
            }
        }
        Fault::File { .. } | Fault::Memory => {
            let _ = writeln!(errors, "vt_replay: {fault}");
        }
    }
    Ok(Status::Fault)
}

/// Prints the report of the pool in a file.
fn print_report<F: Open, W: Sink, E: Write>(
    alloc: Global,
    path: &str,
    files: &mut F,
    out: &mut W,
    errors: &mut E,
) -> io::Result<Status>
    ensures ends { IfOk result (EndsReport (F.file files.old) path.entry (W.contents out.old) (W.contents out.new)) }
    ensures fails { OnErr result (HasPoolToPrint (F.file files.old) path.entry) }
{
    match report(alloc, path, files) {
        Ok(text) => {
            out.write_all(&text)?;
            out.flush()?;
            Ok(Status::Done)
        }
        Err(fault) => {
            let about = About {
                pool: path,
                log: path,
                lines: 0,
                in_report: true,
            };
            print_fault(&fault, &about, out, errors)
        }
    }
}

/// The report of the pool in a file.
fn report<'a, F: Open>(alloc: Global, path: &'a str, files: &mut F) -> Result<Vec<u8>, Fault<'a>>
    ensures text { IfOk result (λ text. IfSome (F.file files.old path.now) (λ bytes. IsReportOf bytes text.items)) }
    ensures fault { IfErr result (IsPoolFileFault (F.file files.old) path.entry) }
{
    let pool = read_accepted(alloc, path, files)?;
    let mut text = Vec::new(alloc);
    pool.report(&mut text)?;
    Ok(text)
}

fn replay_log<'a, F: Open, W: Sink>(
    alloc: Global,
    options: &Options<'a>,
    files: &mut F,
    out: &mut W,
    notes: &mut Notes,
    is_lost: &mut bool,
) -> Result<(), Fault<'a>>
    requires { HasValidAddresses options.now }
    ensures replayed { OnOk result (HasReplayed (F.file files.old) options.now (W.contents out.old) (W.contents out.new)) }
    ensures fault { IfErr result (IsReplayFault (F.file files.old) options.now) }
    // The output before a fault: the pool's file is read first, then the log is opened, and then the first screen is drawn.
    ensures before { IfErr result (λ why. FailsReplay (F.file files.old) options.now why (W.contents out.old) (W.contents out.new)) }
{
    // One way out of this body, since the end of a terminal takes a copy of it on the stack for each.
    let mut terminal = Terminal::new(alloc, options.own, options.name);
    let result = replay_on(alloc, options, files, out, notes, &mut terminal);
    *is_lost = terminal.is_lost();
    result
}

/// Replays a log with a new terminal.
fn replay_on<'a, F: Open, W: Sink>(
    alloc: Global,
    options: &Options<'a>,
    files: &mut F,
    out: &mut W,
    notes: &mut Notes,
    terminal: &mut Terminal,
) -> Result<(), Fault<'a>>
    requires addresses { HasValidAddresses options.now }
    requires fresh { state_of terminal.old ≡ new_state options.now.own options.now.name }
    ensures replayed { OnOk result (HasReplayed (F.file files.old) options.now (W.contents out.old) (W.contents out.new)) }
    ensures fault { IfErr result (IsReplayFault (F.file files.old) options.now) }
    ensures before { IfErr result (λ why. FailsReplay (F.file files.old) options.now why (W.contents out.old) (W.contents out.new)) }
{
    if let Some(preload) = &options.preload {
        load(alloc, preload, files, terminal)?;
    }
    let path = options.file;
    let mut log = match files.open(path) {
        Ok(log) => Stream::new(log),
        Err(cause) => return Err(Fault::File { path, cause }),
    };
    match replay_with_notes(alloc, &mut log, out, terminal, notes) {
        Ok(_counts) => {}
        Err(why) => {
            let cause = log.into_failure();
            return Err(Fault::Replay { why, cause });
        }
    }
    match out.flush() {
        Ok(()) => Ok(()),
        Err(_) => Err(Fault::Replay {
            why: ReplayFault::Write,
            cause: None,
        }),
    }
}

/// Reads the pool of a working set, verifies it, and adds the set to the terminal.
fn load<'a, F: Open>(
    alloc: Global,
    preload: &Preload<'a>,
    files: &mut F,
    terminal: &mut Terminal,
) -> Result<(), Fault<'a>>
    requires none { set_at preload.now.owner (state_of terminal.old).sets ≡ None }
    requires claimed { preload.now.owner ≤ 253 }
    requires other { preload.now.owner ≢ (state_of terminal.old).claims.own }
    ensures set { OnOk result (IsLoaded (F.file files.old) preload.now (state_of terminal.old) (state_of terminal.new)) }
    ensures fault { IfErr result (IsPoolFileFault (F.file files.old) preload.now.pool) }
    ensures stay { F.file files.new ≡ F.file files.old }
{
    let pool = read_accepted(alloc, preload.pool, files)?;
    terminal.preload(preload.owner, &pool)?;
    Ok(())
}

/// Reads the pool in a file and verifies it.
fn read_accepted<'a, F: Open>(
    alloc: Global,
    path: &'a str,
    files: &mut F,
) -> Result<Accepted, Fault<'a>>
    ensures pool { IfOk result (λ pool. IfSome (F.file files.old path.now) (λ bytes. IsAcceptedPoolOf bytes (contents pool))) }
    ensures rising { IfOk result (λ pool. pool ≡ finite.entries (contents pool)) }
    ensures fault { IfErr result (IsPoolFileFault (F.file files.old) path.entry) }
    ensures stay { F.file files.new ≡ F.file files.old }
{
    let bytes = read_file(alloc, path, files)?;
    accepted(alloc, &bytes)
}

/// Reads a pool from bytes and verifies it.
fn accepted<'a>(alloc: Global, bytes: &[u8]) -> Result<Accepted, Fault<'a>>
    ensures pool { IfOk result (λ pool. IsAcceptedPoolOf bytes.now (contents pool)) }
    ensures rising { IfOk result (λ pool. pool ≡ finite.entries (contents pool)) }
    ensures fault { IfErr result (IsFaultOfPool bytes.now) }
{
    match judge(alloc, bytes) {
        Ok(accepted) => Ok(accepted),
        Err(
            NotAccepted::Fault(PoolFault::OutOfMemory { .. })
            | NotAccepted::Refused(vt_verify::Refusal::OutOfMemory),
        ) => Err(Fault::Memory),
        Err(NotAccepted::Fault(fault)) => Err(Fault::Pool(fault)),
        Err(NotAccepted::Refused(why)) => {
            let named = named_in_bytes(alloc, bytes, &why)?;
            Err(Fault::Refused { why, named })
        }
    }
}

/// The kinds of the objects in a refusal of the pool of some bytes. Reads the pool again, as the verifier has taken it over.
fn named_in_bytes<'a>(
    alloc: Global,
    bytes: &[u8],
    why: &vt_verify::Refusal,
) -> Result<Named, Fault<'a>>
    ensures { IfErr result (λ fault. fault ≡ Memory) }
{
    match read_pool(alloc, bytes) {
        Ok(pool) => Ok(named_in(&pool, why)),
        Err(_) => Err(Fault::Memory),
    }
}

/// The kinds of the objects in a refusal of a pool.
fn named_in(pool: &Pool<'_>, why: &vt_verify::Refusal) -> Named {
    match why {
        vt_verify::Refusal::Missing { parent, id }
        | vt_verify::Refusal::WrongKind { parent, id }
        | vt_verify::Refusal::MacroMissing { parent, id }
        | vt_verify::Refusal::MacroKind { parent, id } => Named {
            parent: kind_in(pool, *parent),
            object: kind_in(pool, *id),
        },
        vt_verify::Refusal::OverBudget { id } => Named {
            parent: kind_in(pool, *id),
            object: None,
        },
        _ => Named::default(),
    }
}

fn kind_in(pool: &Pool<'_>, id: ObjectId) -> Option<Kind> {
    pool.get(id).map(|object| object.kind())
}

fn read_file<'a, F: Open>(alloc: Global, path: &'a str, files: &mut F) -> Result<Vec<u8>, Fault<'a>>
    ensures bytes { IfOk result (λ read. IfSome (F.file files.old path.now) (λ bytes. read.items ≡ bytes)) }
    ensures fault { IfErr result (IsFileFault path.entry) }
    ensures stay { F.file files.new ≡ F.file files.old }
{
    let mut bytes = Vec::new(alloc);
    let read = match files.open(path) {
        Ok(mut file) => file.read_to_end(&mut bytes),
        Err(cause) => Err(cause),
    };
    match read {
        Ok(_) => Ok(bytes),
        Err(cause) => Err(Fault::File { path, cause }),
    }
}
