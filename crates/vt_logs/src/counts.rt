//! The numbers of lines of a log, by sort.

ghost use Rattle.std.specs.Prelude.{◌≡◌};
ghost use Rattle.vt_logs.specs.Texts.{no_counts};

/// The numbers of lines read. Each line is a frame, an operator line, a skipped line, a comment or a fault.
#[derive(Clone, Copy, PartialEq, Eq)]
pub struct Counts {
    /// All lines.
    pub lines: u64,
    /// Frames.
    pub frames: u64,
    /// Operator lines.
    pub operator: u64,
    /// Skipped lines.
    pub skipped: u64,
    /// Comments.
    pub comments: u64,
    /// Faulty lines.
    pub faults: u64,
}

impl Counts {
    /// The counts before the first line, all 0.
    pub fn new() -> Counts
        ensures { result ≡ no_counts }
    {
        Counts {
            lines: 0,
            frames: 0,
            operator: 0,
            skipped: 0,
            comments: 0,
            faults: 0,
        }
    }
}
