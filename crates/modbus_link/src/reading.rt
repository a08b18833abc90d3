//! A reading of a clock.
ghost use Rattle.std.specs.Prelude.{◌≡◌, ◌-◌};
ghost use Rattle.std.specs.Option.{option_map};
ghost use Rattle.std.specs.Duration.{as_nanos};
ghost use Rattle.modbus_link.specs.Terminal.{nanos_between};
ghost use Rattle.modbus_link.specs.Timed.{reading_of};

use std::time::{Clock, Duration, Instant};

/// What a clock told, or nothing where it could not be read.
#[derive(Drop)]
pub(crate) struct Reading {
    at: Option<Instant>,
}

impl Reading {
    /// Now.
    pub(crate) fn now<R: Clock>(clock: &R) -> Reading {
        Reading {
            at: Instant::now(clock).ok(),
        }
    }

    /// The time since an earlier one; `None` where the clock could not be read at one of the two.
    pub(crate) fn since(&self, earlier: &Reading) -> Option<Duration>
        ensures { option_map as_nanos result ≡ nanos_between (reading_of earlier.now)
            (reading_of self.now) }
    {
        match (earlier.at, self.at) {
            (Some(earlier), Some(later)) => Some(later.saturating_duration_since(earlier)),
            _ => None,
        }
    }
}
