//! Places in a log, and the lines from one to another.

/// The microseconds of a second.
const SECOND: u64 = 1_000_000;

/// The digits of the microseconds behind the point of a time in seconds.
const MICRO_DIGITS: usize = 6;

/// A place in a log.
#[derive(Clone, Copy, PartialEq, Eq)]
pub enum LogPlace {
    /// The line with this number, from 1.
    Line(u64),
    /// The time in microseconds.
    Time(u64),
}

impl LogPlace {
    /// The place that a text gives: `120` is a line, and `12.5` a time in seconds, with at most six digits behind its point. `None` for
    /// any other text.
    pub(crate) fn read(text: &str) -> Option<LogPlace> {
        match text.split_once('.') {
            None => Some(LogPlace::Line(number_in(text)?)),
            Some((seconds, fraction)) => {
                let whole = number_in(seconds)?.checked_mul(SECOND)?;
                Some(LogPlace::Time(whole.checked_add(micros_in(fraction)?)?))
            }
        }
    }

    /// Whether a line of a number and a time in microseconds is before this place.
    fn is_after(self, line: u64, time: u64) -> bool {
        match self {
            LogPlace::Line(number) => line < number,
            LogPlace::Time(place) => time < place,
        }
    }

    /// Whether a line of a number and a time in microseconds is behind this place.
    fn is_before(self, line: u64, time: u64) -> bool {
        match self {
            LogPlace::Line(number) => number < line,
            LogPlace::Time(place) => place < time,
        }
    }
}

/// The lines of a log from one place to another, both included.
#[derive(Clone, Copy, Default, PartialEq, Eq)]
pub struct LineRange {
    /// The first place, or `None` for the beginning of the log.
    pub from: Option<LogPlace>,
    /// The last place, or `None` for the end of the log.
    pub to: Option<LogPlace>,
}

impl LineRange {
    /// Whether a line of a number and a time in microseconds is in the range.
    pub fn has(self, line: u64, time: u64) -> bool {
        !self.from.is_some_and(|place| place.is_after(line, time))
            && !self.to.is_some_and(|place| place.is_before(line, time))
    }

    /// Whether the last place is before the first one, so that the range has no line. `false` if one is a line and the other a time.
    pub(crate) fn is_reversed(self) -> bool {
        match (self.from, self.to) {
            (Some(LogPlace::Line(from)), Some(LogPlace::Line(to))) => to < from,
            (Some(LogPlace::Time(from)), Some(LogPlace::Time(to))) => to < from,
            _ => false,
        }
    }
}

/// Whether a text has only decimal digits, and at least one.
pub(crate) fn is_number(text: &str) -> bool {
    !text.is_empty() && text.as_bytes().iter().all(u8::is_ascii_digit)
}

/// The number in decimal digits. `None` for any other text, and for a number of more than 64 bits.
fn number_in(text: &str) -> Option<u64> {
    if is_number(text) {
        text.parse::<u64>().ok()
    } else {
        None
    }
}

/// The microseconds in the digits behind the point of a time in seconds. `None` for more than six digits, and for any other text.
fn micros_in(fraction: &str) -> Option<u64> {
    let missing = MICRO_DIGITS.checked_sub(fraction.len())?;
    let mut micros = number_in(fraction)?;
    for _ in 0..missing {
        micros = micros.checked_mul(10)?;
    }
    Some(micros)
}
