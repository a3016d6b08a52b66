//! The static library that checks object pools for C. Its functions are for whether a pool is accepted or why not, all findings, its
//! report, and the screen of a mask.
//!
//! Each function reads the bytes of a pool, and keeps nothing after it returns. docs/EMBEDDING.md explains the calls, and
//! include/vt_check.h declares them for C.
//!
//! What each function returns is decided in check_verdicts. Come here to ask which functions C sees.
#![tactic(auto)]

ghost use Rattle.check_verdicts.specs.Findings.{Finds};
ghost use Rattle.check_verdicts.specs.Texts.{Draws, Reports};
ghost use Rattle.check_verdicts.specs.Verdicts.{Judges};

use check_verdicts::{VtVerdict, judge_pool, write_findings, write_report, write_screen};
use std::alloc::Global;

/// Judges an object pool: whether it is accepted, or why not.
#[unsafe(no_mangle)]
pub extern "C" fn vt_check_pool(alloc: Global, bytes: &[u8], verdict: &mut VtVerdict)
    ensures { Judges bytes.now verdict.new }
{
    *verdict = judge_pool(alloc, bytes);
}

/// Writes the findings of an object pool, as many as `findings` has room for: the faults of records first, and then the broken rules
/// in their order. Returns the number of all findings. If memory was refused, writes nothing and returns 2^64 - 1.
#[unsafe(no_mangle)]
pub extern "C" fn vt_findings(alloc: Global, bytes: &[u8], findings: &mut [VtVerdict]) -> u64
    ensures { Finds bytes.now findings.old findings.new result }
{
    write_findings(alloc, bytes, findings)
}

/// Writes the report of an object pool, or the line of its fault or refusal, up to the end of `text`. Returns the number of bytes of
/// the whole report or line. If memory was refused, writes nothing and returns 2^64 - 1.
#[unsafe(no_mangle)]
pub extern "C" fn vt_report(alloc: Global, bytes: &[u8], text: &mut [u8]) -> u64
    ensures { Reports bytes.now text.old text.new result }
{
    write_report(alloc, bytes, text)
}

/// Writes the screen of an accepted pool at an address, up to the end of `text`: the screen after a Change Active Mask to `mask`,
/// with its macros, or the first screen if `mask` is 65535. Returns the number of bytes of the whole screen, or 0 if there is no
/// such screen. If memory was refused, writes nothing and returns 2^64 - 1.
#[unsafe(no_mangle)]
pub extern "C" fn vt_draw(
    alloc: Global,
    bytes: &[u8],
    address: u32,
    mask: u32,
    text: &mut [u8],
) -> u64
    ensures { Draws bytes.now address mask text.old text.new result }
{
    write_screen(alloc, bytes, address, mask, text)
}
