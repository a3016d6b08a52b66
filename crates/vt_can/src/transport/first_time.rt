//! The earlier of two times.

ghost use Rattle.std.specs.Prelude.{◌≡◌};
ghost use Rattle.vt_can.specs.transport.FirstTimes.{earlier};

/// The earlier of two times. Each may be absent.
pub fn earlier(a: Option<u64>, b: Option<u64>) -> Option<u64>
    ensures { result ≡ earlier a b }
{
    match (a, b) {
        (None, b) => b,
        (a, None) => a,
        (Some(a), Some(b)) => Some(a.min(b)),
    }
}
