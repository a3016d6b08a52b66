//! The first and the last frame.

ghost use Rattle.std.specs.Prelude.{◌≡◌, ◌≤◌, IfSome};
ghost use Rattle.log_traffic.specs.Spans.{with_frame_at};

/// The first and the last frame.
#[derive(Clone, Copy, Default)]
pub(crate) struct FrameSpan {
    pub(crate) first_line: u64,
    pub(crate) last_line: u64,
    pub(crate) first_time: u64,
    /// The latest time.
    pub(crate) last_time: u64,
}

impl FrameSpan {
    /// A span with one more frame. No span is that before the first frame.
    pub(crate) fn with_frame_at(line: u64, time: u64, before: Option<FrameSpan>) -> FrameSpan
        ensures span { result ≡ with_frame_at line time before }
        ensures later { IfSome before (λ span. span.last_time ≤ result.last_time) }
    {
        match before {
            Some(span) => FrameSpan {
                last_line: line,
                last_time: span.last_time.max(time),
                ..span
            },
            None => FrameSpan {
                first_line: line,
                last_line: line,
                first_time: time,
                last_time: time,
            },
        }
    }
}
