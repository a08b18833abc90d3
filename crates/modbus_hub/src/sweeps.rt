//! When it is looked who is to be let go.
ghost use Rattle.std.specs.Prelude.{◌≡◌};
ghost use Rattle.std.specs.Option.{option_map};
ghost use Rattle.std.specs.Duration.{as_nanos};
ghost use Rattle.modbus_link.specs.Memory.{next_count};
ghost use Rattle.modbus_hub.specs.Sweeps.{all_looked, begun_with, is_due, looked, shorter_of};

use std::marker::Model;
use std::time::{Clock, Duration, Instant};

/// How long connections may stay that send no whole message. With no time for either they stay.
#[derive(Clone, Copy, Debug, PartialEq, Eq)]
pub struct Deadlines {
    /// For how long a connection may not move: no bytes come from it, and it completes no message.
    pub idle: Option<Duration>,
    /// For how long a message may be begun and not completed.
    pub message: Option<Duration>,
}

/// What the clock told, or nothing where it could not be read. Nothing else makes one with a number, so that who has to tell the next
/// reading has to make it.
#[derive(Drop)]
pub(crate) struct Reading {
    at: Option<Instant>,
    number: u64,
}

/// A contract sees it, and the number of the reading.
impl Model for Reading {
    ghost use Rattle.modbus_hub.specs.Sweeps.{Reading};

    ghost Value = { Reading };

    ghost view = { λ it. record { at = it.at; number = it.number } };
}

impl Reading {
    /// Reads the clock, which was read so often before.
    fn next<R: Clock>(clock: &R, before: u64) -> Reading
        ensures { result.number ≡ next_count before }
    {
        Reading {
            at: Instant::now(clock).ok(),
            number: before.saturating_add(1),
        }
    }
}

/// How often it is looked, and when it was looked last.
#[derive(Drop)]
struct Sweep {
    period: Option<Duration>,
    since: Option<Instant>,
}

/// A contract sees both.
impl Model for Sweep {
    ghost use Rattle.modbus_hub.specs.Sweeps.{Sweep};

    ghost Value = { Sweep };

    ghost view = { λ it. record { period = it.period; since = it.since } };
}

impl Sweep {
    /// Whether it is to be looked again; it is not where the clock could not be read.
    fn is_due(&self, now: Option<Instant>) -> bool
        ensures { result ≡ is_due self.now now }
    {
        match (self.period, self.since, now) {
            (Some(period), Some(since), Some(now)) => {
                let passed = now.saturating_duration_since(since);
                passed.checked_sub(period).is_some()
            }
            _ => false,
        }
    }

    /// Takes notice of a reading: whether it is to be looked again.
    fn look(&mut self, now: Option<Instant>) -> bool
        ensures due { result ≡ is_due self.old now }
        ensures looked { self.new ≡ looked self.old now }
    {
        let is_due = self.is_due(now);
        if is_due || self.since.is_none() {
            self.since = now;
        }
        is_due
    }
}

/// Both looks, for idle connections and for late ones, by one clock.
#[derive(Drop)]
pub(crate) struct Sweeps {
    idle: Sweep,
    late: Sweep,
    last: Reading,
}

/// A contract sees both, and the last reading of the clock.
impl Model for Sweeps {
    ghost use Rattle.modbus_hub.specs.Sweeps.{Sweeps};

    ghost Value = { Sweeps };

    ghost view = { λ it. record { idle = it.idle; late = it.late; last = it.last } };
}

/// Whether it is to be looked who is idle, and who is late.
#[derive(Clone, Copy)]
pub(crate) struct Due {
    pub(crate) idle: bool,
    pub(crate) late: bool,
}

impl Sweeps {
    /// Looks with these deadlines, whose time begins to run.
    pub(crate) fn begin<R: Clock>(clock: &R, deadlines: Deadlines) -> Sweeps
        ensures begun { result ≡ begun_with deadlines result.last }
        ensures first { result.last.number ≡ 1 }
    {
        let last = Reading::next(clock, 0);
        Sweeps {
            idle: Sweep {
                period: deadlines.idle,
                since: last.at,
            },
            late: Sweep {
                period: deadlines.message,
                since: last.at,
            },
            last,
        }
    }

    /// Reads the clock: who is to be looked for.
    pub(crate) fn look<R: Clock>(&mut self, clock: &R) -> Due
        ensures next { self.new.last.number ≡ next_count self.old.last.number }
        ensures looked { self.new ≡ all_looked self.old self.new.last }
        ensures idle { result.idle ≡ is_due self.old.idle self.new.last.at }
        ensures late { result.late ≡ is_due self.old.late self.new.last.at }
    {
        self.last = Reading::next(clock, self.last.number);
        Due {
            idle: self.idle.look(self.last.at),
            late: self.late.look(self.last.at),
        }
    }

    /// How long a wait may take that is to take so long at most: no longer than lies between two looks.
    pub(crate) fn within(&self, most: Duration) -> Duration {
        shorter(self.idle.period, shorter(self.late.period, most))
    }
}

/// The shorter of two times, where none is any time.
pub(crate) fn shorter(timeout: Option<Duration>, other: Duration) -> Duration
    ensures { as_nanos result ≡ shorter_of (option_map as_nanos timeout) (as_nanos other) }
{
    match timeout {
        Some(timeout) => {
            if timeout.checked_sub(other).is_some() {
                other
            } else {
                timeout
            }
        }
        None => other,
    }
}
