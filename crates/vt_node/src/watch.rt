//! The time of the last frame of each address.

ghost use Rattle.std.specs.Prelude.{◌≡◌, ◌↔◌, true, ◌<◌, ◌-◌, ℕ, Some, None, false, unwrap_or, length, get_or};
ghost use Rattle.vt_node.specs.Watches.{is_silent};
ghost use Rattle.vt_node.specs.AddressFunctions.{with_at};
ghost use Rattle.vt_can.specs.transport.FirstTimes.{IsFirstTime};
ghost use Rattle.vt_node.specs.Watches.{heard_of, heard_in, SomeAwaited};

use std::marker::Model;

/// The longest time without a frame before a set is closed, in microseconds.
pub(crate) const SILENCE: u64 = 3_000_000;

/// The time of the last frame of each of the 256 addresses, in microseconds. A preloaded address has none until the next
/// frame line, and then the time of that line.
#[derive(Drop)]
pub(crate) struct Watch {
    last: [u64; 256],
    awaited: [bool; 256],
    // Whether some address may have no time.
    awaits: bool,
}

impl Model for Watch {
    ghost use Rattle.std.specs.Prelude.{◌≡◌, ℕ, false, length, get_or};
    ghost use Rattle.vt_node.specs.Watches.{Times, times_code};

    ghost Value = { Times };

    ghost coded = { times_code };

    ghost view = { λ w. record { last = w.last; awaited = w.awaited } };

    ghost invariant = { λ w. (length w.last ≡ 256) × (length w.awaited ≡ 256)
        × (w.awaits ≡ false → (q : ℕ) → get_or w.awaited q false ≡ false) };
}

impl Watch {
    pub(crate) fn new() -> Watch
        ensures { (address : ℕ) → heard_of result address ≡ Some 0 }
    {
        Watch {
            last: Default::default(),
            awaited: Default::default(),
            awaits: false,
        }
    }

    /// Gives each address without a time the time of a frame line.
    pub(crate) fn begin(&mut self, now: u64)
        ensures { (address : ℕ) → heard_of self.new address ≡ Some (unwrap_or (heard_of self.old address) now) }
    {
        if self.awaits {
            begin_each(&mut self.last, &mut self.awaited, now);
            self.awaits = false;
        }
    }

    /// Records a frame from an address.
    pub(crate) fn note_frame(&mut self, address: u8, now: u64)
        ensures { heard_of self.new ≡ with_at address (Some now) (heard_of self.old) }
    {
        self.last[usize::from(address)] = now;
        self.awaited[usize::from(address)] = false;
    }

    /// Removes the time of an address, so that its silence begins with the next frame line.
    pub(crate) fn preload(&mut self, address: u8)
        ensures { heard_of self.new ≡ with_at address None (heard_of self.old) }
    {
        self.awaits = true;
        self.awaited[usize::from(address)] = true;
    }

    /// The time of the last frame of an address.
    pub(crate) fn last_heard(&self, address: u8) -> Option<u64>
        ensures { result ≡ heard_of self.now address }
    {
        if self.awaited[usize::from(address)] {
            return None;
        }
        Some(self.last[usize::from(address)])
    }

    /// Whether some address waits for the time of the next frame line.
    pub(crate) fn awaits(&self) -> bool
        ensures { (result ≡ true) ↔ SomeAwaited (heard_of self.now) }
    {
        self.awaits && self.awaited.contains(&true)
    }

    /// The first time at which an address is silent, or `None` if it has no time or is never silent.
    pub(crate) fn silent_from(&self, address: u8) -> Option<u64>
        ensures { IsFirstTime (λ now. is_silent now (heard_of self.now address) ≡ true) result }
    {
        let last = self.last_heard(address)?;
        last.checked_add(SILENCE + 1)
    }

    /// Whether an address has sent no frame for more than 3,000,000 microseconds.
    pub(crate) fn is_silent(&self, address: u8, now: u64) -> bool
        ensures { result ≡ is_silent now (heard_of self.now address) }
    {
        if self.awaited[usize::from(address)] {
            return false;
        }
        now.saturating_sub(self.last[usize::from(address)]) > SILENCE
    }
}

/// Gives each address without a time the time `now`.
fn begin_each(last: &mut [u64], awaited: &mut [bool], now: u64)
    requires { length awaited.old ≡ length last.old }
    ensures heard { (q : ℕ) → q < length last.old → heard_in last.new awaited.new q ≡ Some (unwrap_or (heard_in last.old awaited.old q) now) }
    ensures none { (q : ℕ) → get_or awaited.new q false ≡ false }
{
    for place in 0..last.len() {
        if awaited[place] {
            last[place] = now;
            awaited[place] = false;
        }
    }
}
