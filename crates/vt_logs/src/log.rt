//! The replay of a log, from its bytes to the text written.

ghost use Rattle.std.specs.Prelude.{◌≡◌, [], length, IfOk, IfErr, IfSome, OnOk, OnErr, IsErrOf, List, ℕ};
ghost use Rattle.std.specs.Io.KnownBytes.{Appends, IsAtEnd};
ghost use Rattle.vt_logs.specs.EarlyEnds.{HasStopped, HasStoppedAtLong};
ghost use Rattle.vt_logs.specs.Replays.{IsReplay, MayEndWith};
ghost use Rattle.vt_logs.specs.Texts.{no_counts};
ghost use Rattle.vt_server.specs.States.{state_of};

use crate::counts::Counts;
use crate::fault::ReplayFault;
use crate::notes::Notes;
use crate::output::{flush, put_counts};
use crate::progress::Progress;
use crate::streams::{Sink, Source};
use std::alloc::{AllocError, Global};
use vt_server::Terminal;

/// The most bytes of one read.
const CHUNK: usize = 65_536;

/// The most reads of a log. A log that they do not read to its end is the fault Read.
const READS: u32 = 1_000_000_000;

/// Replays a log to its end, line by line, and returns its counts. It writes the first screen, the terminal's outputs, each new
/// screen, the faulty lines and, at the end, the counts. The text of the lines read is flushed before the next read. After an
/// error the terminal has taken the first lines of the log, and the first screen and the text of these lines are written. Of the
/// last line's text or of the counts, possibly only the first bytes are written.
pub fn replay<R: Source, W: Sink>(
    alloc: Global,
    reader: &mut R,
    writer: &mut W,
    terminal: &mut Terminal,
) -> Result<Counts, ReplayFault>
    // The text and the counts are the replay of the log's bytes, however the reads cut them.
    ensures text { IfOk result (λ counts. IfSome (R.remaining reader.old) (λ input. (text : List ℕ)
        × Appends (W.contents writer.old) (W.contents writer.new) text
        × IsReplay (state_of terminal.old) input text counts (state_of terminal.new))) }
    ensures end { OnOk result (IsAtEnd (R.remaining reader.new)) }
    // After an error the terminal has taken the first lines, none of them too long, and their text is written, that of the last one
    // or the counts perhaps in part. After an error before the first line the first screen is written at most, perhaps in part.
    ensures stopped { OnErr result (IfSome (R.remaining reader.old) (λ input.
        HasStopped (state_of terminal.old) input (state_of terminal.new) (W.contents writer.old) (W.contents writer.new))) }
    // TooLong is returned at the first line that is too long; the lines before it are taken, and their text is written.
    ensures too_long { IsErrOf result ReplayFault.TooLong → IfSome (R.remaining reader.old) (λ input.
        HasStoppedAtLong (state_of terminal.old) input (state_of terminal.new) (W.contents writer.old) (W.contents writer.new)) }
    // From a steady source to a steady sink, a log of fewer than 1,000,000,000 bytes has the faults TooLong and Memory alone.
    ensures cause { IfErr result (MayEndWith R.steady W.steady (R.remaining reader.old)) }
{
    replay_with_notes(alloc, reader, writer, terminal, &mut Notes::new())
}

/// Replays a log as `replay` does, and returns notes on its lines for messages to people, also after an error.
pub fn replay_with_notes<R: Source, W: Sink>(
    alloc: Global,
    reader: &mut R,
    writer: &mut W,
    terminal: &mut Terminal,
    notes: &mut Notes,
) -> Result<Counts, ReplayFault>
    // The text and the counts are the replay of the log's bytes, however the reads cut them.
    ensures text { IfOk result (λ counts. IfSome (R.remaining reader.old) (λ input. (text : List ℕ)
        × Appends (W.contents writer.old) (W.contents writer.new) text
        × IsReplay (state_of terminal.old) input text counts (state_of terminal.new))) }
    ensures end { OnOk result (IsAtEnd (R.remaining reader.new)) }
    // After an error the terminal has taken the first lines, none of them too long, and their text is written, that of the last one
    // or the counts perhaps in part. After an error before the first line the first screen is written at most, perhaps in part.
    ensures stopped { OnErr result (IfSome (R.remaining reader.old) (λ input.
        HasStopped (state_of terminal.old) input (state_of terminal.new) (W.contents writer.old) (W.contents writer.new))) }
    // TooLong is returned at the first line that is too long; the lines before it are taken, and their text is written.
    ensures too_long { IsErrOf result ReplayFault.TooLong → IfSome (R.remaining reader.old) (λ input.
        HasStoppedAtLong (state_of terminal.old) input (state_of terminal.new) (W.contents writer.old) (W.contents writer.new)) }
    // From a steady source to a steady sink, a log of fewer than 1,000,000,000 bytes has the faults TooLong and Memory alone.
    ensures cause { IfErr result (MayEndWith R.steady W.steady (R.remaining reader.old)) }
{
    let mut progress = Progress::new(alloc);
    let result = take_log(alloc, &mut progress, reader, writer, terminal);
    *notes = progress.into_notes();
    result
}

fn take_log<R: Source, W: Sink>(
    alloc: Global,
    progress: &mut Progress,
    reader: &mut R,
    writer: &mut W,
    terminal: &mut Terminal,
) -> Result<Counts, ReplayFault>
    requires counts { progress.old.counts ≡ no_counts }
    requires pending { progress.old.pending.items ≡ [] }
    requires screen { progress.old.screen.items ≡ [] }
    // The text and the counts are the replay of the log's bytes, however the reads cut them.
    ensures text { IfOk result (λ counts. IfSome (R.remaining reader.old) (λ input. (text : List ℕ)
        × Appends (W.contents writer.old) (W.contents writer.new) text
        × IsReplay (state_of terminal.old) input text counts (state_of terminal.new))) }
    ensures end { OnOk result (IsAtEnd (R.remaining reader.new)) }
    // After an error the terminal has taken the first lines, none of them too long, and their text is written, that of the last one
    // or the counts perhaps in part. After an error before the first line the first screen is written at most, perhaps in part.
    ensures stopped { OnErr result (IfSome (R.remaining reader.old) (λ input.
        HasStopped (state_of terminal.old) input (state_of terminal.new) (W.contents writer.old) (W.contents writer.new))) }
    // TooLong is returned at the first line that is too long; the lines before it are taken, and their text is written.
    ensures too_long { IsErrOf result ReplayFault.TooLong → IfSome (R.remaining reader.old) (λ input.
        HasStoppedAtLong (state_of terminal.old) input (state_of terminal.new) (W.contents writer.old) (W.contents writer.new)) }
    // From a steady source to a steady sink, a log of fewer than 1,000,000,000 bytes has the faults TooLong and Memory alone.
    ensures cause { IfErr result (MayEndWith R.steady W.steady (R.remaining reader.old)) }
{
    let mut chunk = zeros(alloc, CHUNK)?;
    progress.begin(terminal, writer)?;
    for _ in 0..READS {
        flush(writer)?;
        let Ok(count) = reader.next_bytes(&mut chunk) else {
            return Err(ReplayFault::Read);
        };
        if count == 0 {
            progress.end_log(terminal, writer)?;
            put_counts(&progress.counts, writer)?;
            return Ok(progress.counts);
        }
        progress.take_chunk(&chunk[..count], terminal, writer)?;
    }
    Err(ReplayFault::Read)
}

fn zeros(alloc: Global, count: usize) -> Result<Vec<u8>, AllocError>
    ensures { IfOk result (λ bytes. length bytes.items ≡ count) }
{
    vec![in alloc; 0; count]
}
