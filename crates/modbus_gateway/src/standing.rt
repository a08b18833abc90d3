//! What is kept of a slave: whether it is dead, and how long ago it was asked last.
ghost use Rattle.std.specs.Prelude.{◌≡◌};
ghost use Rattle.std.specs.Option.{option_map};
ghost use Rattle.std.specs.Duration.{as_nanos};
ghost use Rattle.modbus_gateway.specs.Sparing.{at_least_one, alive, missed_once_more, ago, is_soon, is_dead, is_out};

use crate::reading::Reading;
use std::time::{Duration, Instant};

/// When a slave is dead, and for how long the line is spared the exchanges with it then.
#[derive(Clone, Copy, Debug, PartialEq, Eq)]
pub struct SparingLimits {
    /// After how many exchanges in a row that ended with 0B (gateway target device failed to respond); 0 is as 1.
    pub misses: u16,
    /// How much time passes from the end of an exchange with it to the next one.
    pub retry: Duration,
}

impl SparingLimits {
    /// The same, where no number stands for 1.
    pub(crate) fn at_least_one(self) -> SparingLimits
        ensures { result ≡ at_least_one self }
    {
        SparingLimits {
            misses: if self.misses == 0 { 1 } else { self.misses },
            retry: self.retry,
        }
    }

    /// Whether so much time is less than a dead slave is spared for; it is not where it is not known.
    fn is_soon(&self, passed: Option<Duration>) -> bool
        ensures { result ≡ is_soon self.now (option_map as_nanos passed) }
    {
        match passed {
            Some(passed) => passed.checked_sub(self.retry).is_none(),
            None => false,
        }
    }
}

/// What the end of an exchange shows of its slave.
#[derive(Clone, Copy)]
pub enum Sign {
    /// It did not respond.
    Missed,
    /// It answered.
    Answered,
    /// Nothing: there was no line to ask it on, or no memory.
    Nothing,
}

/// What is kept of a slave.
#[derive(Clone, Copy)]
pub struct Standing {
    /// How many exchanges with it in a row ended with 0B, counted up to so many as make it dead.
    pub missed: u16,
    /// When the last of them ended; `None` where there is none, or the clock could not be read.
    pub since: Option<Instant>,
}

impl Standing {
    /// Of a slave whose last exchange ended with another answer, or which was not asked.
    pub(crate) fn alive() -> Standing
        ensures { result ≡ alive }
    {
        Standing {
            missed: 0,
            since: None,
        }
    }

    /// Behind one more exchange that ended with 0B.
    pub(crate) fn miss(self, limits: &SparingLimits, at: Option<Instant>) -> Standing
        ensures { result ≡ missed_once_more limits.now self at }
    {
        let missed = if self.missed < limits.misses {
            self.missed + 1
        } else {
            self.missed
        };
        Standing { missed, since: at }
    }

    /// How long ago the last exchange that ended with 0B did; `None` where that is not known.
    fn ago(&self, now: &Reading) -> Option<Duration>
        ensures { option_map as_nanos result ≡ ago self.now now.now.at }
    {
        match (self.since, now.at()) {
            (Some(since), Some(now)) => Some(now.saturating_duration_since(since)),
            _ => None,
        }
    }

    /// Whether it is dead: as many exchanges with it in a row ended with 0B as make it so.
    pub(crate) fn is_dead(&self, limits: &SparingLimits) -> bool
        ensures { result ≡ is_dead limits.now self.now }
    {
        limits.misses <= self.missed
    }

    /// Whether it is dead, and the last exchange with it ended a short time before now.
    pub(crate) fn is_out(&self, limits: &SparingLimits, now: &Reading) -> bool
        ensures { result ≡ is_out limits.now self.now now.now.at }
    {
        self.is_dead(limits) && limits.is_soon(self.ago(now))
    }
}
