//! What a clock told, each reading with its number.
ghost use Rattle.std.specs.Prelude.{◌≡◌};
ghost use Rattle.modbus_link.specs.Memory.{next_count};
ghost use Rattle.modbus_gateway.specs.Readings.{no_reading};

use std::marker::Model;
use std::time::{Clock, Instant};

/// What a clock told, or nothing where it could not be read. Nothing else makes one with a number, and none is copied, so that who has to
/// tell the next reading has to make it.
#[derive(Drop)]
pub(crate) struct Reading {
    at: Option<Instant>,
    number: u64,
}

/// A contract sees it, and the number of the reading.
impl Model for Reading {
    ghost use Rattle.modbus_gateway.specs.Readings.{Reading};

    ghost Value = { Reading };

    ghost view = { λ it. record { at = it.at; number = it.number } };
}

impl Reading {
    /// No reading.
    pub(crate) fn none() -> Reading
        ensures { result ≡ no_reading }
    {
        Reading {
            at: None,
            number: 0,
        }
    }

    /// Reads the clock, which was read so often before.
    pub(crate) fn next<R: Clock>(clock: &R, before: u64) -> Reading
        ensures { result.number ≡ next_count before }
    {
        Reading {
            at: Instant::now(clock).ok(),
            number: before.saturating_add(1),
        }
    }

    /// The number of the reading.
    pub(crate) fn number(&self) -> u64
        ensures { result ≡ self.now.number }
    {
        self.number
    }

    /// When it was.
    pub(crate) fn at(&self) -> Option<Instant>
        ensures { result ≡ self.now.at }
    {
        self.at
    }
}
