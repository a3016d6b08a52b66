//! The audio commands that a working set has done (docs/PROFILE.md, "Commands: all rows").

ghost use Rattle.std.specs.Prelude.{◌≡◌};
ghost use Rattle.vt_macros.specs.Audio.{noted, silence};

use vt_objects::Command;

/// An audio signal, as a Control Audio command requests it.
#[derive(Clone, Copy, PartialEq, Eq)]
pub struct Signal {
    /// The number of times that it sounds.
    pub activations: u8,
    /// The frequency in Hz.
    pub frequency: u16,
    /// The milliseconds that it sounds each time.
    pub on: u16,
    /// The milliseconds of silence after each time.
    pub off: u16,
}

/// The audio commands that a working set has done: the number of them, and the last of each.
#[derive(Clone, Copy, PartialEq, Eq)]
pub struct Audio {
    /// The number of signals, modulo 2^32.
    pub signals: u32,
    /// The last signal. All its numbers are 0 before the first.
    pub signal: Signal,
    /// The number of times that the volume was set, modulo 2^32.
    pub volumes: u32,
    /// The last volume in percent. 0 before the first.
    pub volume: u8,
}

impl Audio {
    /// The state before the first audio command.
    pub fn new() -> Audio
        ensures { result ≡ silence }
    {
        let signal = Signal {
            activations: 0,
            frequency: 0,
            on: 0,
            off: 0,
        };
        Audio {
            signals: 0,
            signal,
            volumes: 0,
            volume: 0,
        }
    }

    /// Records a command that is done. Only Control Audio and Set Audio Volume change anything.
    pub fn note(&mut self, command: &Command<'_>)
        ensures { self.new ≡ noted self.old command.now }
    {
        if let Command::ControlAudio {
            count,
            frequency,
            on,
            off,
        } = *command
        {
            self.signals = self.signals.wrapping_add(1);
            self.signal = Signal {
                activations: count,
                frequency,
                on,
                off,
            };
        }
        if let Command::SetVolume { volume } = *command {
            self.volumes = self.volumes.wrapping_add(1);
            self.volume = volume;
        }
    }
}
