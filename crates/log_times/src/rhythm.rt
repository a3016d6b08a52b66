//! Messages that are sent each second, and the gaps between them.

ghost use Rattle.std.specs.Prelude.{◌≡◌, ◌<◌, ◌≤◌, ℕ, List, [], ◌∷◌, MatchOption};
ghost use Rattle.log_traffic.specs.declared.moment.Moment.{Moment as Message};
ghost use Rattle.log_times.specs.Rhythms.{longer};

use log_traffic::Moment;

/// The most microseconds from a message to the next one that are no gap (docs/PROFILE.md, "Silence").
const MOST_SILENT: u64 = 3_000_000;

/// The time between a message and the next one.
#[derive(Clone, Copy, PartialEq, Eq)]
pub struct Gap {
    /// The message before.
    pub from: Moment,
    /// The message after.
    pub to: Moment,
}

impl Gap {
    ghost use Rattle.log_times.specs.Rhythms.{length_of};

    /// The microseconds from the message before to the one after.
    pub fn length(self) -> u64
        ensures { result ≡ length_of self }
    {
        self.to.since(self.from)
    }
}

/// The messages of one sort so far, and the gaps between them.
#[derive(Clone, Copy)]
pub(crate) struct Rhythm {
    /// The last message.
    last: Moment,
    /// How many gaps there are. A count that would not fit stays at `u64::MAX`.
    pub(crate) count: u64,
    /// The longest gap, the first if several are as long.
    pub(crate) longest: Option<Gap>,
}

impl Rhythm {
    ghost use Rattle.log_times.specs.Rhythms.{HasTaken};

    /// A first message.
    pub(crate) fn new(first: Moment) -> Rhythm
        ensures { HasTaken (first ∷ []) result }
    {
        Rhythm {
            last: first,
            count: 0,
            longest: None,
        }
    }

    /// Takes a message, which is no earlier than the one before.
    pub(crate) fn take(&mut self, at: Moment)
        ensures { (messages : List Message) → HasTaken messages self.old → HasTaken (at ∷ messages) self.new }
    {
        let gap = Gap {
            from: self.last,
            to: at,
        };
        self.last = at;
        if gap.length() > MOST_SILENT {
            self.count = self.count.saturating_add(1);
            self.longest = Some(longer(self.longest, gap));
        }
    }
}

/// The longer one of two gaps, or the first if they are as long.
fn longer(first: Option<Gap>, second: Gap) -> Gap
    ensures { result ≡ longer first second }
{
    match first {
        Some(first) if first.length() >= second.length() => first,
        _ => second,
    }
}
