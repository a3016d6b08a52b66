//! Judges object pools for callers in other languages: verdicts and findings as numbers, and texts. What has no room in the caller's
//! memory is not written.
//!
//! - `judge_pool` returns whether a pool is accepted, or why not.
//! - `write_findings` writes all findings.
//! - `write_report` writes the report, or the line of a fault or a refusal.
//! - `write_screen` writes the screen of a mask.
//!
//! Each function reads the bytes of a pool, and keeps nothing after it returns. docs/EMBEDDING.md has the numbers.
//!
//! The exported functions of C are in vt_check. Come here to ask which numbers and texts a caller gets for a pool.
#![tactic(auto)]

ghost use Rattle.std.specs.Prelude.{◌≡◌, IfOk};
ghost use Rattle.check_verdicts.specs.Findings.{AreFindingsOf, Finds};
ghost use Rattle.check_verdicts.specs.Texts.{Draws, Reports};
ghost use Rattle.check_verdicts.specs.Verdicts.{Judges};

mod copying;
mod findings;
mod screen;
mod text;
mod verdict;

use check_inspect::inspect;
use std::alloc::{AllocError, Global};
pub use verdict::VtVerdict;

/// Judges an object pool: whether it is accepted, or why not.
pub fn judge_pool(alloc: Global, bytes: &[u8]) -> VtVerdict
    ensures { Judges bytes.now result }
{
    verdict::judged(alloc, bytes)
}

/// Writes the findings of an object pool, as many as `findings` has room for: the faults of records first, and then the broken rules in
/// their order. Returns the number of all findings. If memory was refused, writes nothing and returns 2^64 - 1.
pub fn write_findings(alloc: Global, bytes: &[u8], findings: &mut [VtVerdict]) -> u64
    ensures { Finds bytes.now findings.old findings.new result }
{
    match found(alloc, bytes) {
        Ok(all) => {
            copying::write_over(&all, findings);
            all.len() as u64
        }
        Err(_) => u64::MAX,
    }
}

/// All findings in numbers.
fn found(alloc: Global, bytes: &[u8]) -> Result<Vec<VtVerdict>, AllocError>
    ensures { IfOk result (λ all. AreFindingsOf bytes.now all.items) }
{
    let inspection = inspect(alloc, bytes)?;
    findings::all_told(alloc, &inspection.findings)
}

/// Writes the report of an object pool, or the line of its fault or refusal, up to the end of `text`. Returns the number of bytes of
/// the whole report or line. If memory was refused, writes nothing and returns 2^64 - 1.
pub fn write_report(alloc: Global, bytes: &[u8], text: &mut [u8]) -> u64
    ensures { Reports bytes.now text.old text.new result }
{
    copying::copied(text::report(alloc, bytes), text)
}

/// Writes the screen of an accepted pool at an address, up to the end of `text`: the screen after a Change Active Mask to `mask`, with
/// its macros, or the first screen if `mask` is 65535. Returns the number of bytes of the whole screen, or 0 if there is no such
/// screen. If memory was refused, writes nothing and returns 2^64 - 1.
pub fn write_screen(alloc: Global, bytes: &[u8], address: u32, mask: u32, text: &mut [u8]) -> u64
    ensures { Draws bytes.now address mask text.old text.new result }
{
    match screen::screen(alloc, bytes, address, mask) {
        Ok(Some(screen)) => copying::copied(Ok(screen), text),
        Ok(None) => 0,
        Err(_) => u64::MAX,
    }
}
