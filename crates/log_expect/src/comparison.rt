//! The differences between what a log expects and what it prints.

ghost use Rattle.std.specs.Prelude.{◌≡◌, ◌≤◌, ◌^◌, ◌++◌, ◌⊎◌, length, map, IfOk, IfErr, OnOk, IsErrOf};
ghost use Rattle.std.specs.List.{AllByRecursion};
ghost use Rattle.log_expect.specs.Differences.{difference_at, difference_seen, AreDifferences};
ghost use Rattle.log_expect.specs.Expectations.{expected_by};
ghost use Rattle.vt_logs.specs.Lines.{lines_of};
ghost use Rattle.vt_server.specs.States.{state_of};

use crate::difference::LineDifference;
use crate::expectation::{expected_by, fits, is_expectation, next_line, wildcards_by};
use std::alloc::{AllocError, Global};
use vt_logs::{Progress, ReplayFault};
use vt_server::Terminal;

/// Replays a log, and returns each line that does not print what is expected of it. The first screen is the first of them, if it is not
/// what the expectations before any other line say. It fails if memory is refused or a line has more than 4,096 bytes; then the terminal
/// has processed the lines before it.
pub fn differences(
    alloc: Global,
    log: &[u8],
    terminal: &mut Terminal,
) -> Result<Vec<LineDifference>, ReplayFault>
    requires few { length log.now ≤ 2 ^ 60 }
    // Each line prints what it prints in a replay of the log, and exactly the lines whose text does not fit what is expected are returned.
    ensures differences { IfOk result (λ differences. AreDifferences (state_of terminal.old) log.now (map difference_seen differences.items) (state_of terminal.new)) }
    ensures fault { IfErr result (λ fault. (fault ≡ ReplayFault.Memory) ⊎ (fault ≡ ReplayFault.TooLong)) }
    // The fault is TooLong only if a line of the log is longer than 4,096 bytes.
    ensures too_long { IsErrOf result ReplayFault.TooLong → ¬ AllByRecursion (λ line. length line ≤ 4096) (lines_of log.now) }
{
    let mut progress = Progress::new(alloc);
    let mut printed = Vec::new(alloc);
    let mut differences = Vec::new(alloc);
    progress.begin(terminal, &mut printed)?;
    compare(alloc, 0, log, &printed, &mut differences)?;
    let mut rest = log;
    while let Some((line, after)) = next_line(rest) {
        printed.clear();
        progress.end_line(line, terminal, &mut printed)?;
        if !is_expectation(line) {
            compare(
                alloc,
                progress.counts.lines,
                after,
                &printed,
                &mut differences,
            )?;
        }
        rest = after;
    }
    Ok(differences)
}

/// Appends the difference between the text that a line printed and what the expectations behind the line say, if the text does not fit.
fn compare(
    alloc: Global,
    line: u64,
    after: &[u8],
    printed: &[u8],
    differences: &mut Vec<LineDifference>,
) -> Result<(), AllocError>
    ensures { OnOk result (map difference_seen differences.new.items ≡ map difference_seen differences.old.items ++ difference_at line (expected_by (lines_of after.now)) printed.now) }
{
    if !fits(after, printed) {
        let expected = expected_by(alloc, after)?;
        let wildcards = wildcards_by(alloc, after)?;
        let printed = Vec::from_slice(alloc, printed)?;
        differences.push(LineDifference {
            line,
            expected,
            wildcards,
            printed,
        })?;
    }
    Ok(())
}
