//! Theorems: the ranges of numbers, by their types.

ghost use Rattle.std.specs.Prelude.{◌<◌, ◌≤◌, FitsSigned};
ghost use Rattle.std.specs.Int.{w16, w32};
ghost use Rattle.std.specs.List.{AllByRecursion};
ghost use Rattle.vt_kinds.specs.Scales.{IsScale, scale_number};

use vt_kinds::{Decimals, ObjectId, Scale};

pub fn byte(n: u8)
    ensures { n < 256 }
{}

pub fn word(n: u16)
    ensures { n < 65536 }
{}

pub fn id(n: ObjectId)
    ensures { n < 65536 }
{}

pub fn long(n: u32)
    ensures { n < 4294967296 }
{}

pub fn short(n: i16)
    ensures { FitsSigned w16 n }
{}

pub fn signed_long(n: i32)
    ensures { FitsSigned w32 n }
{}

pub fn scale(s: Scale)
    ensures is { IsScale (scale_number s) }
    ensures small { scale_number s < 4294967296 }
{}

pub fn decimals(n: Decimals)
    ensures { n ≤ 7 }
{}

pub fn bytes(bytes: &[u8])
    ensures { AllByRecursion (λ b. b < 256) bytes.now }
{}
