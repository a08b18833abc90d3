//! Moments that a clock told, and how often it was read for them.
ghost use Rattle.std.specs.Prelude.{◌≡◌};
ghost use Rattle.std.specs.Option.{option_map};
ghost use Rattle.std.specs.Duration.{as_nanos};
ghost use Rattle.modbus_link.specs.Terminal.{nanos_between};
ghost use Rattle.modbus_adapter.specs.Moments.{no_reading, ReadsClock};

use std::marker::Model;
use std::time::{Clock, Duration, Instant};

/// What a clock told, or nothing where it could not be read, or was not.
///
/// It is made by a reading alone and is never copied, so that each says of one reading what it was.
#[derive(Drop)]
pub(crate) struct Moment {
    at: Option<Instant>,
    number: u64,
}

/// A contract sees the nanoseconds since the clock's start, and the number of the reading.
impl Model for Moment {
    ghost use Rattle.std.specs.Option.{option_map};
    ghost use Rattle.std.specs.Time.{instant_nanos};
    ghost use Rattle.modbus_adapter.specs.Moments.{Reading};

    ghost Value = { Reading };

    ghost view = { λ it. record { at = option_map instant_nanos it.at; number = it.number } };
}

impl Moment {
    /// No reading.
    pub(crate) fn none() -> Moment
        ensures { result ≡ no_reading }
    {
        Moment {
            at: None,
            number: 0,
        }
    }

    /// The time since an earlier one; `None` where one of the two is not known.
    pub(crate) fn since(&self, earlier: &Moment) -> Option<Duration>
        ensures { option_map as_nanos result ≡ nanos_between earlier.now.at self.now.at }
    {
        match (earlier.at, self.at) {
            (Some(earlier), Some(later)) => Some(later.saturating_duration_since(earlier)),
            _ => None,
        }
    }
}

/// A clock whose readings are counted. Nothing else makes a moment with a number, so that who has to tell the next one has to read it.
#[derive(Drop)]
pub(crate) struct Watch<'c, C> {
    clock: &'c C,
    readings: u64,
}

/// A contract sees how often the clock was read.
impl<'c, C> Model for Watch<'c, C> {
    ghost use Rattle.std.specs.Prelude.{ℕ};

    ghost Value = { ℕ };

    ghost view = { λ it. it.readings };
}

impl<'c, C: Clock> Watch<'c, C> {
    /// One that was not read.
    pub(crate) fn new(clock: &'c C) -> Watch<'c, C>
        ensures { result ≡ 0 }
    {
        Watch { clock, readings: 0 }
    }

    /// Its clock.
    pub(crate) fn clock(&self) -> &C {
        self.clock
    }

    /// Now.
    pub(crate) fn read(&mut self) -> Moment
        ensures { ReadsClock self.old self.new result }
    {
        self.readings = self.readings.saturating_add(1);
        Moment {
            at: Instant::now(self.clock).ok(),
            number: self.readings,
        }
    }
}
